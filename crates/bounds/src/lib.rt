// The calls that C hosts have, on byte slices. Crate bounds_c exports them.
#![tactic(auto)]

ghost use Rattle.std.specs.Prelude.{◌≡◌, ◌<◌};
ghost use Rattle.wellformed.specs.Verdict.{model_verdict};
ghost use Rattle.verdict.specs.Verdict.{verdict};
ghost use Rattle.bounds.specs.Codes.{code_of, shortfall_of};
ghost use Rattle.bounds.specs.Clauses.{place_of};

use certificate::beside;
use outcome::{Outcome, Refusal};

// An outcome as one number: the reason's number × 65,536 + place, or 0 when accepted.
fn code(outcome: Outcome) -> u32
    requires { place_of outcome < 65536 }
    ensures { result ≡ code_of outcome }
{
    match outcome {
        Ok(()) => 0,
        Err(Refusal { reason, place, .. }) => u32::from(reason) * 65536 + place as u32,
    }
}

// Checks a model.
pub fn bounds_check_model(model: &[u8]) -> u32
    ensures { result ≡ code_of (model_verdict model.now) }
{
    code(wellformed::check(model))
}

// Checks a delivery with its model, which is tested first. (It calls the two checks itself, and not the one check of both: a call fewer.)
pub fn bounds_check_delivery(model: &[u8], delivery: &[u8]) -> u32
    ensures { result ≡ code_of (verdict model.now delivery.now) }
{
    code(wellformed::check(model).and_then(|()| beside::check(model, delivery)))
}

// The shortfall of the same check: 0 when accepted.
pub fn bounds_delivery_shortfall(model: &[u8], delivery: &[u8]) -> i64
    ensures { result ≡ shortfall_of (verdict model.now delivery.now) }
{
    match wellformed::check(model).and_then(|()| beside::check(model, delivery)) {
        Ok(()) => 0,
        Err(Refusal { shortfall, .. }) => shortfall,
    }
}
