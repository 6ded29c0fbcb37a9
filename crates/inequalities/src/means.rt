// The test 27: mean steps against the right side of their inequality, in 1/2^44 of a step.

ghost use Rattle.std.specs.Prelude.{◌≡◌, [], ◌∷◌, ◌^◌, ◌≤◌, ◌<◌};
ghost use Rattle.outcome.specs.Tests.{first};
ghost use Rattle.ppda.specs.Units.{most_mean};
ghost use Rattle.delivery.specs.Format.{most_records};
ghost use Rattle.delivery.specs.Clauses.{Chances, MeanSteps};
ghost use Rattle.rows.specs.Clauses.{Indexed};
ghost use Rattle.inequalities.specs.Inequalities.{mean_test};
ghost use Rattle.inequalities.specs.Clauses.{mean_block};

use super::missed::unless;
use delivery::format::SUM_UNIT;
use delivery::record::value_at;
use equations::steps::mean_side;
use model::sizes::Sizes;
use outcome::{Outcome, Reason};
use rows::STARTS;

// r against the right side y: a missed inequality has the shortfall r − y.
#[tactic(auto, unfolding(crate::specs::Inequalities::mean_test, outcome::specs::Tests::first))]
fn check_mean(r: u64, y: u64, place: usize) -> Outcome
    requires { (r ≤ most_mean) × (y < 2 ^ 63) }
    ensures { result ≡ first (mean_test r y place ∷ []) }
{
    let have = r * SUM_UNIT;
    unless(have < y, Reason::MeanTooSmall, place, have, y)
}

// The mean steps of all rows. Their block starts at record `from`.
#[tactic(auto, using(crate::proofs::Tests::rows_in_turn))]
pub fn check(
    model: &[u8],
    starts: &[u16; STARTS],
    uppers: &[u8],
    means: &[u8],
    n: Sizes,
    from: usize,
) -> Outcome
    requires files { Indexed model.now n starts.now × Chances n uppers.now × MeanSteps n means.now }
    requires inside { from ≤ most_records }
    ensures { result ≡ first (mean_block model.now n uppers.now means.now from) }
{
    for k in 0..n.rows() {
        let y = mean_side(model, starts, uppers, means, n, k);
        check_mean(value_at(means, k), y, from + k)?;
    }
    Ok(())
}
