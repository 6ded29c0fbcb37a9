// What an accepted file becomes in the register.

ghost use Rattle.std.specs.Prelude.{◌≡◌, cond, ◌≤◌, length};
ghost use Rattle.outcome.specs.Outcomes.{Accepted};
ghost use Rattle.model.specs.Format.{most_bytes};
ghost use Rattle.model.specs.Clauses.{Fits};
ghost use Rattle.wellformed.specs.Verdict.{model_verdict};
ghost use Rattle.delivery.specs.Shapes.{has_lowers, has_means, shape_of};
ghost use Rattle.delivery.specs.Numbers.{lowers_of, means_of};
ghost use Rattle.delivery.specs.Clauses.{ShapedFile};
ghost use Rattle.certificate.specs.Margin.{margin_of};
ghost use Rattle.certificate.specs.Clauses.{AcceptedFile};
ghost use Rattle.held.specs.Held.{filled, model_held, numbers_held, listed_by_exit, listed_rows, if_standing, shape_as};

use super::lists::{live_marks, values, values_by_exit};
use super::{HeldModel, Numbers};
use certificate::margins::margin_with_lowers;
use delivery::format::RECORD_BYTES;
use delivery::shape::{Shape, has_lowers, has_means, means_from, shape_of};
use model::format::{MOST_BYTES, MOST_ENTRIES};
use model::sizes::{Sizes, sizes_of};

// The bytes of a file, in the first places.
fn copied(file: &[u8]) -> [u8; MOST_BYTES]
    requires { length file.now ≤ most_bytes }
    ensures { result ≡ filled most_bytes file.now }
{
    let mut bytes = [0u8; MOST_BYTES];
    bytes[..file.len()].copy_from_slice(file);
    bytes
}

// The model of an accepted file.
pub fn model_of(file: &[u8]) -> HeldModel
    requires { model_verdict file.now ≡ Accepted }
    ensures { result ≡ model_held file.now }
{
    let n = sizes_of(file);
    let states = n.states as u8;
    let symbols = n.symbols as u16;
    HeldModel {
        bytes: copied(file),
        length: file.len(),
        states,
        symbols,
        live: live_marks(file),
    }
}

// The shape of an accepted delivery, which is never unknown.
pub fn shape_for(delivery: &[u8], n: Sizes) -> Shape
    requires { Fits n.states n.symbols }
    ensures { result ≡ shape_as (shape_of n.states n.symbols delivery.now) }
{
    shape_of(delivery, n).unwrap_or(Shape::U)
}

// The lowers of a delivery of this shape, by exit, or zeros.
pub fn lowers_of(delivery: &[u8], n: Sizes, shape: Shape) -> [u32; MOST_ENTRIES]
    requires { ShapedFile n shape delivery.now }
    ensures { result ≡ if_standing (has_lowers shape) (listed_by_exit n.states n.symbols (lowers_of n.states n.symbols delivery.now)) }
{
    if !has_lowers(shape) {
        return [0u32; MOST_ENTRIES];
    }
    let v = n.entries();
    let rest = &delivery[RECORD_BYTES * v..];
    values_by_exit(rest, n)
}

// The mean steps of a delivery of this shape, or zeros.
pub fn means_of(delivery: &[u8], n: Sizes, shape: Shape) -> [u32; MOST_ENTRIES]
    requires { ShapedFile n shape delivery.now }
    ensures { result ≡ if_standing (has_means shape) (listed_rows n.states n.symbols (means_of n.states n.symbols shape delivery.now)) }
{
    if !has_means(shape) {
        return [0u32; MOST_ENTRIES];
    }
    let from = means_from(n, shape);
    let block = &delivery[RECORD_BYTES * from..];
    values(block, n.rows())
}

// The margin of an accepted delivery of this shape, or 0 where it has no lowers.
fn margin_or_zero(model: &[u8], delivery: &[u8], n: Sizes, shape: Shape) -> u64
    requires { AcceptedFile model.now n shape delivery.now }
    ensures { result ≡ cond (has_lowers shape) (margin_of model.now delivery.now) 0 }
{
    if has_lowers(shape) {
        margin_with_lowers(model, delivery, n, shape)
    } else {
        0
    }
}

// The numbers of an accepted delivery.
pub fn numbers_of(model: &[u8], delivery: &[u8], n: Sizes, shape: Shape) -> Numbers
    requires { AcceptedFile model.now n shape delivery.now }
    ensures { result ≡ numbers_held model.now shape delivery.now }
{
    Numbers {
        uppers: values_by_exit(delivery, n),
        lowers: lowers_of(delivery, n, shape),
        means: means_of(delivery, n, shape),
        margin: margin_or_zero(model, delivery, n, shape),
    }
}
