// The margin of a block of uppers, and of an accepted delivery with lowers, for `margin` and for the register.

ghost use Rattle.std.specs.Prelude.{◌≡◌, true};
ghost use Rattle.model.specs.Clauses.{Sized};
ghost use Rattle.delivery.specs.Shapes.{has_lowers};
ghost use Rattle.delivery.specs.Clauses.{Chances};
ghost use Rattle.certificate.specs.Margin.{margin_of};
ghost use Rattle.certificate.specs.Clauses.{AcceptedFile};

use delivery::format::RECORD_BYTES;
use delivery::shape::Shape;
use live::rounds::find_marks;
use model::format::MOST_ROWS;
use model::sizes::Sizes;
use rows::{STARTS, find_starts};
use shares::margin::margin_of;

// The margin of a block of uppers in range, for an accepted model.
pub fn margin_of_uppers(model: &[u8], uppers: &[u8], n: Sizes) -> u64
    requires { Sized model.now n.states n.symbols × Chances n uppers.now }
    ensures { result ≡ margin_of model.now uppers.now }
{
    let mut starts = [0u16; STARTS];
    find_starts(model, n, &mut starts);
    let mut live = [0u8; MOST_ROWS];
    find_marks(model, &starts, n, &mut live);
    margin_of(model, &starts, &live, uppers, n)
}

// The margin of an accepted delivery with lowers.
pub fn margin_with_lowers(model: &[u8], delivery: &[u8], n: Sizes, shape: Shape) -> u64
    requires { AcceptedFile model.now n shape delivery.now × (has_lowers shape ≡ true) }
    ensures { result ≡ margin_of model.now delivery.now }
{
    let uppers = &delivery[..RECORD_BYTES * n.entries()];
    margin_of_uppers(model, uppers, n)
}
