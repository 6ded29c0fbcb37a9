// The shape of a delivery: which blocks it has.

ghost use Rattle.std.specs.Prelude.{◌≡◌, ◌+◌, ◌≤◌};
ghost use Rattle.walks.specs.Order.{entries_in};
ghost use Rattle.model.specs.Format.{most_rows};
ghost use Rattle.model.specs.Clauses.{Fits};
ghost use Rattle.delivery.specs.Format.{most_records};
ghost use Rattle.delivery.specs.Clauses.{HasRecord};
ghost use Rattle.delivery.specs.Shapes.{has_lowers, has_means, same_shape, means_from, records_in, long_as, lowers_or_means, shape_of};

use super::format::RECORD_BYTES;
use super::record::{kind, kind_at};
use model::sizes::Sizes;

// The four shapes: uppers; with lowers; with mean steps; with both.
#[derive(Clone, Copy, PartialEq, Eq)]
pub enum Shape {
    U,
    UL,
    UR,
    ULR,
}

// The kinds of blocks.
#[derive(Clone, Copy)]
pub enum Block {
    Uppers,
    Lowers,
    Means,
}

// Whether a shape has lowers.
pub fn has_lowers(shape: Shape) -> bool
    ensures { result ≡ has_lowers shape }
{
    matches!(shape, Shape::UL | Shape::ULR)
}

// Whether a shape has mean steps.
pub fn has_means(shape: Shape) -> bool
    ensures { result ≡ has_means shape }
{
    matches!(shape, Shape::UR | Shape::ULR)
}

// Whether two shapes are the same.
pub fn same_shape(a: Shape, b: Shape) -> bool
    ensures { result ≡ same_shape a b }
{
    a == b
}

// The record at which a shape's mean steps start.
#[tactic(auto, unfolding(crate::specs::Shapes::means_from))]
pub fn means_from(n: Sizes, shape: Shape) -> usize
    requires { Fits n.states n.symbols }
    ensures { (result ≡ means_from n.states n.symbols shape) × (result ≤ most_records) }
{
    let v = n.entries();
    if has_lowers(shape) { v + v } else { v }
}

// How many records a shape has.
#[tactic(auto, unfolding(crate::specs::Shapes::records_in))]
fn records_in(n: Sizes, shape: Shape) -> usize
    requires { Fits n.states n.symbols }
    ensures { (result ≡ records_in n.states n.symbols shape) × (result ≤ most_records + most_rows) }
{
    let from = means_from(n, shape);
    if has_means(shape) {
        from + n.rows()
    } else {
        from
    }
}

// Whether the file has as many bytes as the shape's records.
#[tactic(auto, unfolding(crate::specs::Shapes::long_as))]
fn long_as(delivery: &[u8], n: Sizes, shape: Shape) -> bool
    requires { Fits n.states n.symbols }
    ensures { result ≡ long_as n.states n.symbols shape delivery.now }
{
    delivery.len() == RECORD_BYTES * records_in(n, shape)
}

// Which of the two shapes a file as long as UL has: UR where s is 1 and the kind of record V is not that of lowers.
#[tactic(auto, unfolding(crate::specs::Shapes::lowers_or_means))]
fn lowers_or_means(delivery: &[u8], n: Sizes) -> Shape
    requires { Fits n.states n.symbols × HasRecord delivery.now (entries_in n.states n.symbols) }
    ensures { result ≡ lowers_or_means n.states n.symbols delivery.now }
{
    if n.states == 1 && kind_at(delivery, n.entries()) != kind(Block::Lowers) {
        Shape::UR
    } else {
        Shape::UL
    }
}

// The shape of a file for a model of these sizes, if its length is that of any.
#[tactic(auto, using(crate::proofs::Shapes::UL_has_more), unfolding(crate::specs::Shapes::shape_of))]
pub fn shape_of(delivery: &[u8], n: Sizes) -> Option<Shape>
    requires { Fits n.states n.symbols }
    ensures { result ≡ shape_of n.states n.symbols delivery.now }
{
    if long_as(delivery, n, Shape::U) {
        return Some(Shape::U);
    }
    if long_as(delivery, n, Shape::UL) {
        return Some(lowers_or_means(delivery, n));
    }
    if long_as(delivery, n, Shape::UR) {
        return Some(Shape::UR);
    }
    if long_as(delivery, n, Shape::ULR) {
        return Some(Shape::ULR);
    }
    None
}
