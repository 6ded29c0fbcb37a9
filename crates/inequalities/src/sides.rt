// The tests 24 and 26: a number against f at its entry, in 1/2^56.

ghost use Rattle.std.specs.Prelude.{◌≡◌, [], ◌∷◌, ◌^◌, ◌≤◌, ◌<◌};
ghost use Rattle.outcome.specs.Tests.{first};
ghost use Rattle.ppda.specs.Units.{most_chance};
ghost use Rattle.walks.specs.Order.{rows_in};
ghost use Rattle.model.specs.Format.{most_entries};
ghost use Rattle.model.specs.Clauses.{Fits};
ghost use Rattle.delivery.specs.Clauses.{Chances};
ghost use Rattle.rows.specs.Clauses.{Indexed};
ghost use Rattle.inequalities.specs.Inequalities.{upper_misses, upper_test, lower_test};
ghost use Rattle.inequalities.specs.Clauses.{side_test, side_from, side_row, side_block};

use super::missed::unless;
use delivery::format::SUM_UNIT;
use delivery::record::value_at;
use equations::chances::f;
use live::exits::{is_live, mark};
use model::format::MOST_ROWS;
use model::sizes::Sizes;
use outcome::{Outcome, Reason};
use rows::STARTS;

// Which side of the equations a number stands on: at least f; above f at a live entry; at most f. Definitions go by it, so that it is no closure.
#[derive(Clone, Copy)]
pub enum Side {
    Upper,
    StrictUpper,
    Lower,
}

// Whether an upper misses its inequality against y: it is below, or, where it has to be strict and the entry is live, not above.
fn misses(strict: bool, live: bool, upper: u64, y: u64) -> bool
    ensures { result ≡ upper_misses strict live upper y }
{
    upper < y || (strict && live && upper <= y)
}

// u against f(u) = y: a missed inequality has the shortfall u − y.
#[tactic(auto, unfolding(crate::specs::Inequalities::upper_test, outcome::specs::Tests::first))]
fn check_upper(strict: bool, live: bool, u: u64, y: u64, place: usize) -> Outcome
    requires { (u ≤ most_chance) × (y ≤ 2 ^ 61) }
    ensures { result ≡ first (upper_test strict live u y place ∷ []) }
{
    let have = u * SUM_UNIT;
    let missed = misses(strict, live, have, y);
    unless(missed, Reason::UpperTooSmall, place, have, y)
}

// l against f(l) = y: a missed inequality has the shortfall y − l.
#[tactic(auto, unfolding(crate::specs::Inequalities::lower_test, outcome::specs::Tests::first))]
fn check_lower(l: u64, y: u64, place: usize) -> Outcome
    requires { (l ≤ most_chance) × (y ≤ 2 ^ 61) }
    ensures { result ≡ first (lower_test l y place ∷ []) }
{
    let need = l * SUM_UNIT;
    unless(y < need, Reason::LowerTooLarge, place, y, need)
}

// One number v that is live or not, and f = y.
fn check_side(side: Side, live: bool, v: u64, y: u64, place: usize) -> Outcome
    requires { (v ≤ most_chance) × (y ≤ 2 ^ 61) }
    ensures { result ≡ first (side_test side live v y place ∷ []) }
{
    match side {
        Side::Upper => check_upper(false, live, v, y, place),
        Side::StrictUpper => check_upper(true, live, v, y, place),
        Side::Lower => check_lower(v, y, place),
    }
}

// The record at which the block of a side starts.
fn first_record(side: Side, n: Sizes) -> usize
    requires { Fits n.states n.symbols }
    ensures { (result ≡ side_from side n.states n.symbols) × (result ≤ most_entries) }
{
    match side {
        Side::Upper | Side::StrictUpper => 0,
        Side::Lower => n.entries(),
    }
}

// The numbers of a row, by its number.
#[tactic(auto, using(crate::proofs::Tests::entries_in_turn), unfolding(delivery::specs::Numbers::uppers_of))]
fn check_row(
    side: Side,
    model: &[u8],
    starts: &[u16; STARTS],
    live: &[u8; MOST_ROWS],
    block: &[u8],
    n: Sizes,
    row: usize,
) -> Outcome
    requires files { Indexed model.now n starts.now × Chances n block.now }
    requires inside { row < rows_in n.states n.symbols }
    ensures { result ≡ first (side_row side model.now n live.now block.now row) }
{
    let from = first_record(side, n);
    for q in 0..n.states {
        let e = n.entry_in(row, q);
        let y = f(model, starts, block, n, row, q);
        let live = is_live(mark(live, row, q));
        check_side(side, live, value_at(block, e), y, from + e)?;
    }
    Ok(())
}

// The numbers of the block of a side, each against f at its entry.
#[tactic(auto, using(crate::proofs::Tests::rows_in_turn))]
pub fn check(
    side: Side,
    model: &[u8],
    starts: &[u16; STARTS],
    live: &[u8; MOST_ROWS],
    block: &[u8],
    n: Sizes,
) -> Outcome
    requires { Indexed model.now n starts.now × Chances n block.now }
    ensures { result ≡ first (side_block side model.now n live.now block.now) }
{
    for k in 0..n.rows() {
        check_row(side, model, starts, live, block, n, k)?;
    }
    Ok(())
}
