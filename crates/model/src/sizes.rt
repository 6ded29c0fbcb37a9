// How large a model is: its records, states and symbols, and the orders of its rows and entries.

ghost use Rattle.std.specs.Prelude.{◌≡◌, ◌+◌, ◌≤◌, ◌<◌, max};
ghost use Rattle.walks.specs.Order.{rows_in, entries_in, row_at, entry_in, entry_at, exit_place, exit_in};
ghost use Rattle.model.specs.Format.{most_rows, most_entries};
ghost use Rattle.model.specs.Records.{records_of, state_named, symbol_named, states_of, symbols_of};
ghost use Rattle.model.specs.Clauses.{HasRecord, Narrow, Fits, SizesTo};
ghost use Rattle.model.specs.Sizes.{sizes_of};

use super::format::RECORD_BYTES;
use super::record::{state, symbol, target, top, under};

// The numbers of states and symbols. Rows (p, Z) and entries (p, Z, q) are numbered in the order of files; in a list by exit an entry has another place.
#[derive(Clone, Copy)]
pub struct Sizes {
    pub states: usize,
    pub symbols: usize,
}

impl Sizes {
    // The number of rows.
    pub fn rows(self) -> usize
        requires { Fits self.states self.symbols }
        ensures { (result ≡ rows_in self.states self.symbols) × (result ≤ most_rows) }
    {
        self.states * self.symbols
    }

    // The number of entries.
    pub fn entries(self) -> usize
        requires { Fits self.states self.symbols }
        ensures { (result ≡ entries_in self.states self.symbols) × (result ≤ most_entries) }
    {
        self.rows() * self.states
    }

    // The number of a row.
    pub fn row(self, p: usize, z: usize) -> usize
        requires { Narrow self.states self.symbols × (p < self.states) × (z < self.symbols) }
        ensures { (result ≡ row_at self.symbols p z) × (result < rows_in self.states self.symbols) }
    {
        p * self.symbols + z
    }

    // The number of the entry with exit q of a row, by the row's number.
    pub fn entry_in(self, row: usize, q: usize) -> usize
        requires { Narrow self.states self.symbols × (row < rows_in self.states self.symbols) × (q < self.states) }
        ensures { (result ≡ entry_in self.states row q) × (result < entries_in self.states self.symbols) }
    {
        row * self.states + q
    }

    // The number of an entry.
    pub fn entry(self, p: usize, z: usize, q: usize) -> usize
        requires { Narrow self.states self.symbols × (p < self.states) × (z < self.symbols) × (q < self.states) }
        ensures { (result ≡ entry_at self.states self.symbols p z q) × (result < entries_in self.states self.symbols) }
    {
        self.entry_in(self.row(p, z), q)
    }

    // The place of an entry in a list by exit (request A.6).
    pub fn exit_place(self, p: usize, z: usize, q: usize) -> usize
        requires { Narrow self.states self.symbols × (p < self.states) × (z < self.symbols) × (q < self.states) }
        ensures { (result ≡ exit_place self.states self.symbols p z q) × (result < entries_in self.states self.symbols) }
    {
        (q * self.states + p) * self.symbols + z
    }

    // The place of the entry with exit q of a row in a list by exit, by the row's number.
    pub fn exit_in(self, row: usize, q: usize) -> usize
        requires { Fits self.states self.symbols × (row < rows_in self.states self.symbols) × (q < self.states) }
        ensures { (result ≡ exit_in self.states self.symbols row q) × (result < entries_in self.states self.symbols) }
    {
        q * self.rows() + row
    }

    // The sizes of one record more: of the records before record i, these are the sizes.
    pub fn with_record(self, model: &[u8], i: usize) -> Sizes
        requires { HasRecord model.now i × SizesTo model.now i self }
        ensures { SizesTo model.now (i + 1) result }
    {
        Sizes {
            states: self.states.max(state_named(model, i) + 1),
            symbols: self.symbols.max(symbol_named(model, i) + 1),
        }
    }
}

// The sizes of no records: a state and a symbol.
pub fn no_records() -> Sizes
    ensures { (result.states ≡ 1) × (result.symbols ≡ 1) }
{
    Sizes {
        states: 1,
        symbols: 1,
    }
}

// How many whole records the file has.
#[tactic(auto, unfolding(crate::specs::Records::records_of))]
pub fn records(model: &[u8]) -> usize
    ensures { result ≡ records_of model.now }
{
    model.len() / RECORD_BYTES
}

// The greater of two numbers.
pub fn greater(a: usize, b: usize) -> usize
    ensures { result ≡ max a b }
{
    a.max(b)
}

// The greatest state that record i names.
fn state_named(model: &[u8], i: usize) -> usize
    requires { HasRecord model.now i }
    ensures { (result ≡ state_named model.now i) × (result < 65536) }
{
    state(model, i).max(target(model, i))
}

// The greatest symbol that record i names.
fn symbol_named(model: &[u8], i: usize) -> usize
    requires { HasRecord model.now i }
    ensures { (result ≡ symbol_named model.now i) × (result < 65536) }
{
    symbol(model, i).max(top(model, i).max(under(model, i)))
}

// The sizes of any bytes: one more than the greatest state and the greatest symbol that a record names.
pub fn sizes_of(model: &[u8]) -> Sizes
    ensures { (result ≡ sizes_of model.now) × (result.states ≤ 65536) × (result.symbols ≤ 65536) }
{
    let mut sizes = no_records();
    for i in 0..records(model) {
        sizes = sizes.with_record(model, i);
    }
    sizes
}

// s: one more than the greatest state that a record names.
pub fn states(model: &[u8]) -> usize
    ensures { (result ≡ states_of model.now) × (result ≤ 65536) }
{
    sizes_of(model).states
}

// g: one more than the greatest symbol that a record names.
pub fn symbols(model: &[u8]) -> usize
    ensures { (result ≡ symbols_of model.now) × (result ≤ 65536) }
{
    sizes_of(model).symbols
}
