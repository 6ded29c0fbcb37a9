// Lists of numbers, in the order of files or by exit, with a place for each entry that there may be, and 0 from the last number on.

ghost use Rattle.std.specs.Prelude.{◌≡◌, true, ◌↔◌, ℕ, ◌+◌, ◌^◌, ◌≤◌, ◌<◌, get_or};
ghost use Rattle.model.specs.Format.{most_entries};
ghost use Rattle.model.specs.Records.{states_of, symbols_of};
ghost use Rattle.model.specs.Clauses.{Fits};
ghost use Rattle.delivery.specs.Clauses.{HasRecords};
ghost use Rattle.delivery.specs.Numbers.{uppers_of};
ghost use Rattle.live.specs.Clauses.{exit_marks};
ghost use Rattle.verdict.specs.Marks.{live_mark};
ghost use Rattle.held.specs.Held.{listed_by_exit};
ghost use Rattle.held.specs.Clauses.{Values, Marks, HasEntries, exits_to};

use delivery::record::value_at;
use live::exits::mark;
use live::rounds::find_marks;
use model::format::{MOST_ENTRIES, MOST_ROWS};
use model::sizes::{Sizes, sizes_of};
use rows::{STARTS, find_starts};

// Whether the first n numbers are the same.
pub fn same(a: &[u32; MOST_ENTRIES], b: &[u32; MOST_ENTRIES], n: usize) -> bool
    requires { n ≤ most_entries }
    ensures { (result ≡ true) ↔ ((e : ℕ) → e < n → get_or a.now e 0 ≡ get_or b.now e 0) }
{
    a[..n] == b[..n]
}

// The values of the first n records of a block, in their order.
pub(crate) fn values(block: &[u8], n: usize) -> [u32; MOST_ENTRIES]
    requires { HasRecords n block.now × (n ≤ most_entries) }
    ensures { Values block.now n result }
{
    let mut values = [0u32; MOST_ENTRIES];
    for e in 0..n {
        values[e] = value_at(block, e) as u32;
    }
    values
}

// Puts the values of the entries with exit q side by side, behind those of the exits before it.
fn put_exit(block: &[u8], n: Sizes, q: usize, list: &mut [u32; MOST_ENTRIES])
    requires { HasEntries n block.now × (q < n.states) × (list.old ≡ exits_to n block.now q) }
    ensures { list.new ≡ exits_to n block.now (q + 1) }
{
    for row in 0..n.rows() {
        let e = n.entry_in(row, q);
        let at = n.exit_in(row, q);
        list[at] = value_at(block, e) as u32;
    }
}

// The values of a block with a record for each entry, by exit (request A.6).
pub fn values_by_exit(block: &[u8], n: Sizes) -> [u32; MOST_ENTRIES]
    requires { HasEntries n block.now }
    ensures { result ≡ listed_by_exit n.states n.symbols (uppers_of n.states n.symbols block.now) }
{
    let mut list = [0u32; MOST_ENTRIES];
    for q in 0..n.states {
        put_exit(block, n, q, &mut list);
    }
    list
}

// Marks that are kept by rows, by entry number.
fn by_entries(live: &[u8; MOST_ROWS], n: Sizes) -> [u32; MOST_ENTRIES]
    requires { Fits n.states n.symbols }
    ensures { Marks n.states n.symbols (exit_marks n.symbols live.now) result }
{
    let s = n.states;
    let mut marks = [0u32; MOST_ENTRIES];
    for e in 0..n.entries() {
        marks[e] = mark(live, e / s, e % s) as u32;
    }
    marks
}

// The live marks of any bytes, by entry number: 0 everywhere where the model is refused.
pub fn live_marks(model: &[u8]) -> [u32; MOST_ENTRIES]
    ensures { Marks (states_of model.now) (symbols_of model.now) (live_mark model.now) result }
{
    if wellformed::check(model).is_err() {
        return [0u32; MOST_ENTRIES];
    }
    let n = sizes_of(model);
    let mut starts = [0u16; STARTS];
    find_starts(model, n, &mut starts);
    let mut live = [0u8; MOST_ROWS];
    find_marks(model, &starts, n, &mut live);
    by_entries(&live, n)
}
