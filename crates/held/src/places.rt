// A held number by its entry or its row.

ghost use Rattle.std.specs.Prelude.{◌≡◌, get_or};
ghost use Rattle.model.specs.Clauses.{Narrow};
ghost use Rattle.held.specs.Places.{has_row, has_entry, entry_value, row_value, exit_value};

use model::format::MOST_ENTRIES;
use model::sizes::Sizes;

// The sizes that are held, which are narrow whether they fit or not.
pub fn sizes_held(states: u8, symbols: u16) -> Sizes
    ensures { (result.states ≡ states) × (result.symbols ≡ symbols) × Narrow states symbols }
{
    Sizes {
        states: usize::from(states),
        symbols: usize::from(symbols),
    }
}

// The number at a place: 0 beyond the last.
fn number_at(list: &[u32], at: usize) -> u64
    ensures { result ≡ get_or list.now at 0 }
{
    u64::from(list.get(at).copied().unwrap_or(0))
}

// Whether a model of these sizes has the row.
#[tactic(auto, unfolding(crate::specs::Places::has_row))]
pub fn has_row(n: Sizes, p: usize, z: usize) -> bool
    ensures { result ≡ has_row n.states n.symbols p z }
{
    p < n.states && z < n.symbols
}

// Whether it has the entry.
#[tactic(auto, unfolding(crate::specs::Places::has_entry))]
pub fn has_entry(n: Sizes, p: usize, z: usize, q: usize) -> bool
    ensures { result ≡ has_entry n.states n.symbols p z q }
{
    has_row(n, p, z) && q < n.states
}

// Each of the three values is a test and a place: one function for them would need a closure that may be called only where the test holds.

// The held number of a row: 0 where there is no such row.
pub fn row_value(list: &[u32; MOST_ENTRIES], n: Sizes, p: usize, z: usize) -> u64
    requires { Narrow n.states n.symbols }
    ensures { result ≡ row_value n.states n.symbols list.now p z }
{
    if has_row(n, p, z) {
        number_at(list, n.row(p, z))
    } else {
        0
    }
}

// The held number of an entry in a list in the order of files: 0 where there is no such entry.
pub fn entry_value(list: &[u32; MOST_ENTRIES], n: Sizes, p: usize, z: usize, q: usize) -> u64
    requires { Narrow n.states n.symbols }
    ensures { result ≡ entry_value n.states n.symbols list.now p z q }
{
    if has_entry(n, p, z, q) {
        number_at(list, n.entry(p, z, q))
    } else {
        0
    }
}

// The same in a list by exit.
pub fn exit_value(list: &[u32; MOST_ENTRIES], n: Sizes, p: usize, z: usize, q: usize) -> u64
    requires { Narrow n.states n.symbols }
    ensures { result ≡ exit_value n.states n.symbols list.now p z q }
{
    if has_entry(n, p, z, q) {
        number_at(list, n.exit_place(p, z, q))
    } else {
        0
    }
}
