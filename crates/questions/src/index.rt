// What questions on short runs need of a held model, found once for many of them: its sizes, and where its rows start.

ghost use Rattle.std.specs.Prelude.{◌≡◌, ◌+◌, ◌≤◌, length, take};
ghost use Rattle.model.specs.Format.{most_rows};
ghost use Rattle.questions.specs.Clauses.{none, RowsOf, Indexes, IfNeeded, Kept};

use held::holds_model;
use model::format::MOST_BYTES;
use model::sizes::{Sizes, sizes_of};
use rows::{STARTS, find_starts};

// No sizes: those of bytes that are no model, and of a model whose index has not been found.
pub fn none() -> Sizes
    ensures { result ≡ none }
{
    Sizes {
        states: 0,
        symbols: 0,
    }
}

// Finds the index of the first bytes, which are checked as a model.
fn find_in(bytes: &[u8], count: usize, starts: &mut [u16; STARTS]) -> Sizes
    requires { (count ≤ length bytes.now) × (length starts.old ≡ most_rows + 1) }
    ensures { RowsOf (take count bytes.now) result starts.new × (length starts.new ≡ most_rows + 1) }
{
    let model = &bytes[..count];
    if wellformed::check(model).is_err() {
        return none();
    }
    let sizes = sizes_of(model);
    find_starts(model, sizes, starts);
    sizes
}

// Finds the index of the model that is held in the first bytes.
#[tactic(auto, using(held::proofs::Becomes::held_fits))]
pub fn find(bytes: &[u8; MOST_BYTES], count: usize, starts: &mut [u16; STARTS]) -> Sizes
    requires { length starts.old ≡ most_rows + 1 }
    ensures { Indexes count result bytes.now starts.new × (length starts.new ≡ most_rows + 1) }
{
    if !holds_model(count) {
        return none();
    }
    find_in(bytes, count, starts)
}

// The index for a question, found where it is needed and has not been found.
pub fn find_if(
    needed: bool,
    sizes: Sizes,
    bytes: &[u8; MOST_BYTES],
    count: usize,
    starts: &mut [u16; STARTS],
) -> Sizes
    requires { Kept count sizes bytes.now starts.old }
    ensures { IfNeeded needed count result bytes.now starts.new × Kept count result bytes.now starts.new }
{
    if !needed || 0 < sizes.states {
        return sizes;
    }
    find(bytes, count, starts)
}
