// The layout of a delivery: the tests 21 and 22, record by record through the blocks.
#![tactic(auto)]

ghost use Rattle.std.specs.Prelude.{◌≡◌, ◌*◌};
ghost use Rattle.outcome.specs.Tests.{first};
ghost use Rattle.walks.specs.Lists.{each};
ghost use Rattle.walks.specs.Order.{rows_in};
ghost use Rattle.model.specs.Clauses.{Fits};
ghost use Rattle.delivery.specs.Clauses.{HasRecord, HasBlock, ShapedFile};
ghost use Rattle.layout.specs.Layout.{record_tests, layout_tests};
ghost use Rattle.layout.specs.Clauses.{record_of_row, row_of_state, state_of_block};

use delivery::record::{in_range, is_due};
use delivery::shape::{Block, Shape, has_lowers, has_means, means_from};
use model::sizes::Sizes;
use outcome::{Outcome, Reason, refused};

// The tests of record i, in their order.
#[tactic(auto, unfolding(crate::specs::Layout::record_tests, outcome::specs::Tests::first))]
fn check_record(delivery: &[u8], i: usize, block: Block, p: usize, z: usize, q: usize) -> Outcome
    requires { HasRecord delivery.now i }
    ensures { result ≡ first (record_tests delivery.now i block p z q) }
{
    if !is_due(delivery, i, block, p, z, q) {
        return refused(Reason::NotDue, i);
    }
    if !in_range(delivery, i, block) {
        return refused(Reason::ValueOutOfRange, i);
    }
    Ok(())
}

// The records of one row of a block, from record `at` on: one for each of the exits. Rows, states and blocks have a function each, so that nothing is divided.
#[tactic(auto, using(crate::proofs::Blocks::turns))]
fn check_row(delivery: &[u8], block: Block, at: usize, exits: usize, p: usize, z: usize) -> Outcome
    requires { HasBlock at exits delivery.now }
    ensures { result ≡ first (each exits (record_of_row delivery.now block at p z)) }
{
    for q in 0..exits {
        check_record(delivery, at + q, block, p, z, q)?;
    }
    Ok(())
}

// The records of state p, from record `at` on.
#[tactic(auto, using(crate::proofs::Blocks::turns))]
fn check_state(
    delivery: &[u8],
    block: Block,
    at: usize,
    exits: usize,
    g: usize,
    p: usize,
) -> Outcome
    requires { HasBlock at (g * exits) delivery.now }
    ensures { result ≡ first (each g (row_of_state delivery.now block at exits p)) }
{
    for z in 0..g {
        check_row(delivery, block, at + z * exits, exits, p, z)?;
    }
    Ok(())
}

// The records of one block, which starts at record `from`.
#[tactic(auto, using(crate::proofs::Blocks::turns))]
fn check_block(delivery: &[u8], block: Block, from: usize, exits: usize, n: Sizes) -> Outcome
    requires { Fits n.states n.symbols × HasBlock from (rows_in n.states n.symbols * exits) delivery.now }
    ensures { result ≡ first (each n.states (state_of_block delivery.now block from exits n.symbols)) }
{
    let g = n.symbols;
    for p in 0..n.states {
        check_state(delivery, block, from + p * g * exits, exits, g, p)?;
    }
    Ok(())
}

// The records of all blocks, in their order.
#[tactic(auto, using(crate::proofs::Blocks::blocks), unfolding(crate::specs::Layout::layout_tests))]
pub fn check(delivery: &[u8], n: Sizes, shape: Shape) -> Outcome
    requires { ShapedFile n shape delivery.now }
    ensures { result ≡ first (layout_tests n.states n.symbols shape delivery.now) }
{
    check_block(delivery, Block::Uppers, 0, n.states, n)?;
    if has_lowers(shape) {
        check_block(delivery, Block::Lowers, n.entries(), n.states, n)?;
    }
    if has_means(shape) {
        check_block(delivery, Block::Means, means_from(n, shape), 1, n)?;
    }
    Ok(())
}
