// f at one entry (document 001, Theorem 1), over its row's records only, for the numbers of a block of a delivery.

ghost use Rattle.std.specs.Prelude.{◌≡◌, ◌*◌, ◌^◌, ◌≤◌, ◌<◌};
ghost use Rattle.walks.specs.Sums.{sum_to};
ghost use Rattle.walks.specs.Order.{rows_in, entries_in};
ghost use Rattle.model.specs.Records.{records_of};
ghost use Rattle.model.specs.Clauses.{Sized, Fits};
ghost use Rattle.delivery.specs.Numbers.{uppers_of};
ghost use Rattle.delivery.specs.Clauses.{HasRecords, Chances};
ghost use Rattle.rows.specs.Clauses.{Indexed};
ghost use Rattle.equations.specs.Clauses.{product, through_of, f_of};

use super::sums::{sum_over_row, sum_over_states};
use delivery::format::CHANCE_UNIT;
use delivery::record::value_at;
use model::record::{pushes, target, top, under};
use model::sizes::Sizes;
use rows::STARTS;

// The number of entry (p, z, q).
pub(crate) fn value(block: &[u8], n: Sizes, p: usize, z: usize, q: usize) -> u64
    requires sizes { Fits n.states n.symbols × HasRecords (entries_in n.states n.symbols) block.now }
    requires inside { (p < n.states) × (z < n.symbols) × (q < n.states) }
    ensures { (result ≡ uppers_of n.states n.symbols block.now p z q) × (result < 2 ^ 32) }
{
    value_at(block, n.entry(p, z, q))
}

// The sum, over all states t, of v(r, y, t) × v(t, x, q).
fn through_two(block: &[u8], n: Sizes, r: usize, y: usize, x: usize, q: usize) -> u64
    requires sizes { Fits n.states n.symbols × Chances n block.now }
    requires inside { (r < n.states) × (y < n.symbols) × (x < n.symbols) × (q < n.states) }
    ensures { (result ≡ sum_to (product n.states n.symbols block.now r y x q) n.states) × (result ≤ 2 ^ 45) }
{
    sum_over_states(
        n.states,
        |t| value(block, n, r, y, t) * value(block, n, t, x, q),
    )
}

// What record i contributes to f at an entry with exit q, before its weight.
#[tactic(auto, using(model::proofs::Accepted::sized_fits))]
fn through(model: &[u8], i: usize, block: &[u8], n: Sizes, q: usize) -> u64
    requires sizes { Sized model.now n.states n.symbols × Chances n block.now }
    requires inside { (i < records_of model.now) × (q < n.states) }
    ensures { (result ≡ through_of model.now i n block.now q) × (result ≤ 2 ^ 45) }
{
    let r = target(model, i);
    match pushes(model, i) {
        0 if r == q => CHANCE_UNIT * CHANCE_UNIT,
        0 => 0,
        1 => CHANCE_UNIT * value(block, n, r, top(model, i), q),
        _ => through_two(block, n, r, top(model, i), under(model, i), q),
    }
}

// f at the entry of a row, by its number, with exit q.
pub fn f(model: &[u8], starts: &[u16; STARTS], block: &[u8], n: Sizes, row: usize, q: usize) -> u64
    requires files { Indexed model.now n starts.now × Chances n block.now }
    requires inside { (row < rows_in n.states n.symbols) × (q < n.states) }
    ensures { (result ≡ f_of model.now n block.now row q) × (result ≤ 2 ^ 61) }
{
    sum_over_row(model, starts, n, row, |i| through(model, i, block, n, q))
}
