// An inequality of two exact sums that may be missed.

ghost use Rattle.std.specs.Prelude.{◌≡◌, ◌^◌, ◌<◌, cond};
ghost use Rattle.std.proofs.Math.IntN.{sub_ℕ};
ghost use Rattle.outcome.specs.Outcomes.{Accepted, Refused};

use outcome::{Outcome, Reason, Refusal, difference};

// Accepted unless the inequality is missed: then its shortfall is the difference of its two sides.
#[tactic(auto, using(outcome::proofs::Differences::difference_exact))]
pub(crate) fn unless(missed: bool, reason: Reason, place: usize, have: u64, need: u64) -> Outcome
    requires { (have < 2 ^ 63) × (need < 2 ^ 63) }
    ensures { result ≡ cond missed (Refused reason place (sub_ℕ have need)) Accepted }
{
    if missed {
        return Err(Refusal {
            reason,
            place,
            shortfall: difference(have, need),
        });
    }
    Ok(())
}
