// Exits as the bits of a byte, and the exits that the records of a row give it.

ghost use Rattle.std.specs.Prelude.{◌≡◌, ℕ, ◌^◌, ◌≤◌, ◌<◌, max, get_or};
ghost use Rattle.walks.specs.Sums.{sign, sum_to};
ghost use Rattle.walks.specs.Order.{rows_in};
ghost use Rattle.ppda.specs.Live.{is_live};
ghost use Rattle.model.specs.Format.{most_states, most_rows};
ghost use Rattle.model.specs.Records.{records_of};
ghost use Rattle.model.specs.Clauses.{Sized, Fits};
ghost use Rattle.rows.specs.Clauses.{Indexed};
ghost use Rattle.live.specs.Clauses.{bit_of, mark_product, through_marks, NextExitsOf};

use model::format::MOST_ROWS;
use model::record::{pushes, target, top, under};
use model::sizes::Sizes;
use rows::STARTS;

// The exit q alone.
fn exit(q: usize) -> u8
    requires { q < most_states }
    ensures { result ≡ 2 ^ q }
{
    1u8 << (q as u32)
}

// Whether exit q is among the exits: 1 or 0.
fn bit(exits: u8, q: usize) -> u8
    requires { q < most_states }
    ensures { (result ≡ bit_of exits q) × (result ≤ 1) }
{
    (exits >> (q as u32)) % 2
}

// The exits among either of two.
fn joined(a: u8, b: u8) -> u8
    ensures { (q : ℕ) → bit_of result q ≡ max (bit_of a q) (bit_of b q) }
{
    a | b
}

// The mark of exit q of a row, by its number: 1 or 0.
pub fn mark(live: &[u8; MOST_ROWS], row: usize, q: usize) -> u64
    requires { (row < most_rows) × (q < most_states) }
    ensures { (result ≡ bit_of (get_or live.now row 0) q) × (result ≤ 1) }
{
    u64::from(bit(live[row], q))
}

// Whether a mark says that its entry is live.
#[tactic(auto, unfolding(ppda::specs::Live::is_live))]
pub fn is_live(mark: u64) -> bool
    ensures { result ≡ is_live mark }
{
    0 < mark
}

// The exits of two symbols: those of x after each exit t of the first.
fn exits_of_two(marks: &[u8; MOST_ROWS], n: Sizes, first: u8, x: usize) -> u8
    requires { Fits n.states n.symbols × (x < n.symbols) }
    ensures { (q : ℕ) → bit_of result q ≡ sign (sum_to (mark_product n.symbols marks.now first x q) n.states) }
{
    let mut exits = 0u8;
    for t in 0..n.states {
        if bit(first, t) == 1 {
            exits = joined(exits, marks[n.row(t, x)]);
        }
    }
    exits
}

// The exits that record i gives its row.
fn exits_through(model: &[u8], i: usize, marks: &[u8; MOST_ROWS], n: Sizes) -> u8
    requires { Sized model.now n.states n.symbols × (i < records_of model.now) }
    ensures { (q : ℕ) → bit_of result q ≡ sign (through_marks model.now i n marks.now q) }
{
    let r = target(model, i);
    let l = pushes(model, i);
    if l == 0 {
        return exit(r);
    }
    let first = marks[n.row(r, top(model, i))];
    if l == 1 {
        return first;
    }
    exits_of_two(marks, n, first, under(model, i))
}

// The exits of a row, by its number, after one more round.
#[tactic(auto, using(model::proofs::Accepted::sized_fits))]
pub(crate) fn next_exits(
    model: &[u8],
    starts: &[u16; STARTS],
    marks: &[u8; MOST_ROWS],
    n: Sizes,
    row: usize,
) -> u8
    requires { Indexed model.now n starts.now × (row < rows_in n.states n.symbols) }
    ensures { NextExitsOf model.now n marks.now row result }
{
    let start = usize::from(starts[row]);
    let end = usize::from(starts[row + 1]);
    let mut exits = 0u8;
    for i in start..end {
        exits = joined(exits, exits_through(model, i, marks, n));
    }
    exits
}
