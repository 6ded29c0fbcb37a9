// What the register holds.
#![tactic(auto)]

use delivery::shape;
use delivery::shape::Shape;
use model::format::{MOST_BYTES, MOST_ENTRIES};

pub mod filing; // filing.rt: what an accepted file becomes
pub mod lists; // lists.rt: lists of numbers, in the order of files or by exit
pub mod places; // places.rt: a held number by its entry or its row

ghost use Rattle.std.specs.Prelude.{◌≡◌};
ghost use Rattle.held.specs.Held.{is_held, shape_held, is_held_as, lowers_stand, means_stand, holds_model, no_model, no_numbers};

// A held model: its file's bytes in the first `length` places, and what is worked out from them once. No model is held where the length is 0
// (or above MOST_BYTES, which no call makes).
#[derive(Clone, Copy)]
pub struct HeldModel {
    pub bytes: [u8; MOST_BYTES],
    pub length: usize,
    pub states: u8,
    pub symbols: u16,
    pub live: [u32; MOST_ENTRIES],
}

// The numbers of a held delivery, and its margin: 0 where there are none. Uppers and lowers stand by exit (request A.6), mean steps in the order of files.
#[derive(Clone, Copy)]
pub struct Numbers {
    pub uppers: [u32; MOST_ENTRIES],
    pub lowers: [u32; MOST_ENTRIES],
    pub means: [u32; MOST_ENTRIES],
    pub margin: u64,
}

// Whether a model of this length is held.
#[tactic(auto, unfolding(crate::specs::Held::holds_model))]
pub fn holds_model(length: usize) -> bool
    ensures { result ≡ holds_model length }
{
    0 < length && length <= MOST_BYTES
}

// Whether a delivery is held.
pub fn is_held(delivery: Option<Shape>) -> bool
    ensures { result ≡ is_held delivery }
{
    delivery.is_some()
}

// The shape of the held delivery, where one is held.
pub fn shape_held(delivery: Option<Shape>) -> Shape
    ensures { result ≡ shape_held delivery }
{
    delivery.unwrap_or(Shape::U)
}

// Whether a delivery of this shape is held.
pub fn is_held_as(delivery: Option<Shape>, shape: Shape) -> bool
    ensures { result ≡ is_held_as delivery shape }
{
    delivery.is_some_and(|former| shape::same_shape(former, shape))
}

// Whether a delivery with lowers is held.
pub fn lowers_stand(delivery: Option<Shape>) -> bool
    ensures { result ≡ lowers_stand delivery }
{
    delivery.is_some_and(shape::has_lowers)
}

// Whether a delivery with mean steps is held.
pub fn means_stand(delivery: Option<Shape>) -> bool
    ensures { result ≡ means_stand delivery }
{
    delivery.is_some_and(shape::has_means)
}

// No model.
#[tactic(auto, unfolding(crate::specs::Held::no_model))]
pub fn no_model() -> HeldModel
    ensures { result ≡ no_model }
{
    HeldModel {
        bytes: [0u8; MOST_BYTES],
        length: 0,
        states: 0,
        symbols: 0,
        live: [0u32; MOST_ENTRIES],
    }
}

// No delivery's numbers.
#[tactic(auto, unfolding(crate::specs::Held::no_numbers))]
pub fn no_numbers() -> Numbers
    ensures { result ≡ no_numbers }
{
    Numbers {
        uppers: [0u32; MOST_ENTRIES],
        lowers: [0u32; MOST_ENTRIES],
        means: [0u32; MOST_ENTRIES],
        margin: 0,
    }
}
