// The sums of the weights of the states, in one pass over the records.

ghost use Rattle.std.specs.Prelude.{◌≡◌, ◌≤◌};
ghost use Rattle.outcome.specs.Tests.{first};
ghost use Rattle.walks.specs.Lists.{list_to, each};
ghost use Rattle.model.specs.Format.{most_states};
ghost use Rattle.counter.specs.Records.{states_in};
ghost use Rattle.counter.specs.Verdict.{state_sum, state_tests};
ghost use Rattle.counter.specs.Accepted.{MovesRight};

use super::record::{from, moves, to, weight};
use model::format::{MOST_STATES, WEIGHT_UNIT};
use outcome::{Outcome, Reason, refused};

// The sum of the weights of each state.
fn sums_of(file: &[u8]) -> [u64; MOST_STATES]
    requires { MovesRight file.now }
    ensures { result ≡ list_to (state_sum file.now) most_states }
{
    let mut sums = [0u64; MOST_STATES];
    for i in 0..moves(file) {
        let u = from(file, i);
        sums[u] += weight(file, i);
    }
    sums
}

// How many states there are: one more than the greatest that a record names, as u or as v.
#[tactic(auto, using(walks::proofs::Sums::greatest_none, walks::proofs::Sums::greatest_step))]
fn states(file: &[u8]) -> usize
    requires { MovesRight file.now }
    ensures { (result ≡ states_in file.now) × (result ≤ most_states) }
{
    let mut state = 0;
    for i in 0..moves(file) {
        state = state.max(from(file, i).max(to(file, i)));
    }
    state + 1
}

// The tests of the states, in their order.
#[tactic(auto, using(crate::proofs::Verdict::sum_turns))]
pub(crate) fn check(file: &[u8]) -> Outcome
    requires { MovesRight file.now }
    ensures { result ≡ first (each (states_in file.now) (state_tests file.now)) }
{
    let sums = sums_of(file);
    for u in 0..states(file) {
        if sums[u] != WEIGHT_UNIT {
            return refused(Reason::CounterSum, u);
        }
    }
    Ok(())
}
