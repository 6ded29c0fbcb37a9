// The tests 23 and 25: number by number, with no equation.

ghost use Rattle.std.specs.Prelude.{◌≡◌, ◌≤◌, ◌<◌};
ghost use Rattle.outcome.specs.Tests.{first};
ghost use Rattle.walks.specs.Lists.{each};
ghost use Rattle.walks.specs.Order.{rows_in, entries_in};
ghost use Rattle.model.specs.Format.{most_entries};
ghost use Rattle.model.specs.Clauses.{Fits};
ghost use Rattle.delivery.specs.Clauses.{HasRecords};
ghost use Rattle.inequalities.specs.Clauses.{dead_row, dead_block, below_at};

use delivery::record::value_at;
use live::exits::{is_live, mark};
use model::format::MOST_ROWS;
use model::sizes::Sizes;
use outcome::{Outcome, Reason, refused};

// 23 at a row, by its number: a number that is not live is 0. The block starts at record `from`.
#[tactic(auto, using(crate::proofs::Tests::entries_in_turn), unfolding(crate::specs::Inequalities::dead_test, outcome::specs::Tests::first, delivery::specs::Numbers::uppers_of))]
fn check_dead_row(
    live: &[u8; MOST_ROWS],
    block: &[u8],
    n: Sizes,
    row: usize,
    from: usize,
) -> Outcome
    requires sizes { Fits n.states n.symbols × HasRecords (entries_in n.states n.symbols) block.now }
    requires inside { (row < rows_in n.states n.symbols) × (from ≤ most_entries) }
    ensures { result ≡ first (dead_row n live.now block.now from row) }
{
    for q in 0..n.states {
        let e = n.entry_in(row, q);
        if !is_live(mark(live, row, q)) && value_at(block, e) != 0 {
            return refused(Reason::DeadNotZero, from + e);
        }
    }
    Ok(())
}

// 23: the numbers of a block that are not live are 0. It starts at record `from`.
#[tactic(auto, using(crate::proofs::Tests::rows_in_turn))]
pub fn check_dead(live: &[u8; MOST_ROWS], block: &[u8], n: Sizes, from: usize) -> Outcome
    requires sizes { Fits n.states n.symbols × HasRecords (entries_in n.states n.symbols) block.now }
    requires inside { from ≤ most_entries }
    ensures { result ≡ first (dead_block n live.now block.now from) }
{
    for k in 0..n.rows() {
        check_dead_row(live, block, n, k, from)?;
    }
    Ok(())
}

// 25: of the first n lowers, none is above its upper. The first stands at record `from`.
#[tactic(auto, using(crate::proofs::Tests::turns), unfolding(crate::specs::Inequalities::below_test, outcome::specs::Tests::first))]
pub fn check_below(lowers: &[u8], uppers: &[u8], n: usize, from: usize) -> Outcome
    requires { (n ≤ most_entries) × (from ≤ most_entries) × HasRecords n lowers.now × HasRecords n uppers.now }
    ensures { result ≡ first (each n (below_at lowers.now uppers.now from)) }
{
    for e in 0..n {
        if value_at(uppers, e) < value_at(lowers, e) {
            return refused(Reason::LowerAboveUpper, from + e);
        }
    }
    Ok(())
}
