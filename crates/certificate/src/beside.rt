// A delivery beside an accepted model, for `check` and for the calls of C hosts.

ghost use Rattle.std.specs.Prelude.{◌≡◌, Some};
ghost use Rattle.outcome.specs.Tests.{first};
ghost use Rattle.outcome.specs.Outcomes.{Accepted};
ghost use Rattle.wellformed.specs.Verdict.{model_verdict};
ghost use Rattle.verdict.specs.Verdict.{shaped_tests, verdict};
ghost use Rattle.certificate.specs.Clauses.{SizedFile};

use super::numbers;
use delivery::shape::{Shape, shape_of};
use model::sizes::{Sizes, sizes_of};
use outcome::{Outcome, Reason, refused};

// The tests 21 to 27 of a delivery whose shape is known.
fn check_shaped(model: &[u8], delivery: &[u8], n: Sizes, shape: Shape) -> Outcome
    requires { SizedFile model.now n shape delivery.now }
    ensures { result ≡ first (shaped_tests model.now n.states n.symbols (Some shape) delivery.now) }
{
    layout::check(delivery, n, shape)?;
    numbers::check(model, delivery, n, shape)
}

// The verdict on any bytes as a delivery beside an accepted model.
pub fn check(model: &[u8], delivery: &[u8]) -> Outcome
    requires { model_verdict model.now ≡ Accepted }
    ensures { result ≡ verdict model.now delivery.now }
{
    let n = sizes_of(model);
    match shape_of(delivery, n) {
        Some(shape) => check_shaped(model, delivery, n, shape),
        None => refused(Reason::NoShape, 0),
    }
}
