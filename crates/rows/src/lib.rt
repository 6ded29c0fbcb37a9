// Where each row's records start. Records ascend, so the records of a row are one range.
#![tactic(auto)]

ghost use Rattle.std.specs.Prelude.{◌≡◌, ℕ, ◌+◌, ◌≤◌, ◌<◌, length};
ghost use Rattle.model.specs.Format.{most_rows};
ghost use Rattle.model.specs.Records.{records_of};
ghost use Rattle.model.specs.Rules.{row_of};
ghost use Rattle.model.specs.Clauses.{Sized, StartsAt};
ghost use Rattle.rows.specs.Clauses.{Indexed};

use model::format::MOST_ROWS;
use model::record::{state, symbol};
use model::sizes::{Sizes, records};

// How many numbers say where the rows start and where the last ends.
pub const STARTS: usize = MOST_ROWS + 1;

// The first record from i on that is of row k or a later one, where all before i are of earlier rows.
fn start(model: &[u8], n: Sizes, k: usize, i: usize) -> usize
    requires sized { Sized model.now n.states n.symbols }
    requires passed { (i ≤ records_of model.now) × ((j : ℕ) → j < i → row_of model.now n.symbols j < k) }
    ensures { StartsAt model.now n.symbols k result }
{
    let end = records(model);
    for at in i..end {
        if k <= n.row(state(model, at), symbol(model, at)) {
            return at;
        }
    }
    end
}

// Finds where each row starts, and where the last ends.
pub fn find_starts(model: &[u8], n: Sizes, starts: &mut [u16; STARTS])
    requires { Sized model.now n.states n.symbols × (length starts.old ≡ most_rows + 1) }
    ensures { Indexed model.now n starts.new × (length starts.new ≡ most_rows + 1) }
{
    let rows = n.rows();
    let mut at = 0;
    for k in 0..=rows {
        at = start(model, n, k, at);
        starts[k] = at as u16;
    }
}
