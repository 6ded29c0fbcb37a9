// A delivery with its model, in the field's term a certificate: the verdict 10 to 15 and 20 to 27, and the margin.
#![tactic(auto)]

use delivery::shape::{Shape, has_lowers, shape_of};
use margins::margin_with_lowers;
use model::sizes::sizes_of;
use outcome::Outcome;

pub mod beside; // beside.rt: a delivery beside an accepted model
pub mod margins; // margins.rt: the margin of an accepted delivery with lowers
mod numbers; // numbers.rt: the tests 23 to 27, in their order

ghost use Rattle.std.specs.Prelude.{◌≡◌};
ghost use Rattle.verdict.specs.Verdict.{verdict};
ghost use Rattle.certificate.specs.Margin.{shown_margin};
ghost use Rattle.certificate.specs.Shown.{shape_in};

// The verdict on any two byte strings: the model is tested first, then the delivery.
pub fn check(model: &[u8], delivery: &[u8]) -> Outcome
    ensures { result ≡ verdict model.now delivery.now }
{
    wellformed::check(model)?;
    beside::check(model, delivery)
}

// The shape of a delivery for its model: none where the model is refused.
pub fn shape(model: &[u8], delivery: &[u8]) -> Option<Shape>
    ensures { result ≡ shape_in model.now delivery.now }
{
    wellformed::check(model).ok()?;
    shape_of(delivery, sizes_of(model))
}

// The margin of any two byte strings: shown where the delivery is accepted and has lowers.
pub fn margin(model: &[u8], delivery: &[u8]) -> Option<u64>
    ensures { result ≡ shown_margin model.now delivery.now }
{
    check(model, delivery).ok()?;
    let n = sizes_of(model);
    let shape = shape_of(delivery, n)?;
    if !has_lowers(shape) {
        return None;
    }
    Some(margin_with_lowers(model, delivery, n, shape))
}
