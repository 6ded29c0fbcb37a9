// The tests of one record: 11 to 13 of it by itself, and 14 by its number and that of the record before it.

ghost use Rattle.std.specs.Prelude.{◌≡◌};
ghost use Rattle.outcome.specs.Tests.{first};
ghost use Rattle.model.specs.Clauses.{HasRecord};
ghost use Rattle.wellformed.specs.Verdict.{range_at, unused_at, weight_at};
ghost use Rattle.wellformed.specs.Clauses.{own_tests, TellsOrder};

use model::format::{MOST_PUSHES, MOST_STATES, MOST_SYMBOLS, WEIGHT_UNIT};
use model::record::{pushes, state, symbol, target, top, under, weight};
use outcome::{Outcome, Reason, refused};

// Whether the states, the symbols and the count of record i are in range.
#[tactic(auto, using(std::proofs::lemmas::Bool::Decides::nat_tests), unfolding(crate::specs::Verdict::range_at))]
fn in_range(model: &[u8], i: usize) -> bool
    requires { HasRecord model.now i }
    ensures { result ≡ range_at model.now i }
{
    let p = state(model, i);
    let z = symbol(model, i);
    let q = target(model, i);
    let l = pushes(model, i);
    let y = top(model, i);
    let x = under(model, i);
    let states = p < MOST_STATES && q < MOST_STATES;
    let symbols = z < MOST_SYMBOLS && y < MOST_SYMBOLS && x < MOST_SYMBOLS;
    states && symbols && l <= MOST_PUSHES
}

// Whether the symbols that record i does not push are 0.
#[tactic(auto, using(std::proofs::lemmas::Bool::Decides::nat_tests), unfolding(crate::specs::Verdict::unused_at))]
fn unused_zero(model: &[u8], i: usize) -> bool
    requires { HasRecord model.now i }
    ensures { result ≡ unused_at model.now i }
{
    let y = top(model, i);
    let x = under(model, i);
    match pushes(model, i) {
        0 => y == 0 && x == 0,
        2 => true,
        _ => x == 0,
    }
}

// Whether the weight of record i is from 1 to 65,536.
#[tactic(auto, using(std::proofs::lemmas::Bool::Decides::nat_tests), unfolding(crate::specs::Verdict::weight_at))]
fn weight_in_range(model: &[u8], i: usize) -> bool
    requires { HasRecord model.now i }
    ensures { result ≡ weight_at model.now i }
{
    let k = weight(model, i);
    0 < k && k <= WEIGHT_UNIT
}

// Whether record i lies above the record before it, if there is one, by the numbers of the two.
pub(crate) fn ascends(i: usize, before: u64, number: u64) -> bool
    ensures { TellsOrder i before number result }
{
    i == 0 || before < number
}

// The tests of record i by itself, in their order.
#[tactic(auto, using(std::proofs::lemmas::Bool::Decides::nat_tests), unfolding(crate::specs::Clauses::own_tests, outcome::specs::Tests::first))]
pub(crate) fn check(model: &[u8], i: usize) -> Outcome
    requires { HasRecord model.now i }
    ensures { result ≡ first (own_tests model.now i) }
{
    if !in_range(model, i) {
        return refused(Reason::OutOfRange, i);
    }
    if !unused_zero(model, i) {
        return refused(Reason::UnusedNotZero, i);
    }
    if !weight_in_range(model, i) {
        return refused(Reason::WeightOutOfRange, i);
    }
    Ok(())
}
