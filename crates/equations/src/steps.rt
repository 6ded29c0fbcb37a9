// The right side of the mean steps' inequality (document 001, Theorem 8), over a row's records only.

ghost use Rattle.std.specs.Prelude.{◌≡◌, ◌+◌, ◌^◌, ◌≤◌, ◌<◌};
ghost use Rattle.walks.specs.Sums.{sum_to};
ghost use Rattle.walks.specs.Order.{rows_in};
ghost use Rattle.model.specs.Records.{records_of};
ghost use Rattle.model.specs.Clauses.{Sized, Fits};
ghost use Rattle.delivery.specs.Clauses.{rows_of_block, HasRecords, Chances, MeanSteps};
ghost use Rattle.rows.specs.Clauses.{Indexed};
ghost use Rattle.equations.specs.Clauses.{steps_product, steps_added, mean_side_of};

use super::chances::value;
use super::sums::{sum_over_row, sum_over_states};
use delivery::format::{CHANCE_UNIT, STEP_UNIT};
use delivery::record::value_at;
use model::format::WEIGHT_UNIT;
use model::record::{pushes, target, top, under};
use model::sizes::Sizes;
use rows::STARTS;

// One step, in 1/2^44 of a step: what a rule's move costs.
const STEP: u64 = WEIGHT_UNIT * CHANCE_UNIT * STEP_UNIT;

// The mean steps of row (p, z).
fn mean(means: &[u8], n: Sizes, p: usize, z: usize) -> u64
    requires sizes { Fits n.states n.symbols × HasRecords (rows_in n.states n.symbols) means.now }
    requires inside { (p < n.states) × (z < n.symbols) }
    ensures { (result ≡ rows_of_block n.symbols means.now p z) × (result < 2 ^ 32) }
{
    value_at(means, n.row(p, z))
}

// The sum, over all states t, of u(r, y, t) × e(t, x).
fn steps_two(uppers: &[u8], means: &[u8], n: Sizes, r: usize, y: usize, x: usize) -> u64
    requires sizes { Fits n.states n.symbols × Chances n uppers.now × MeanSteps n means.now }
    requires inside { (r < n.states) × (y < n.symbols) × (x < n.symbols) }
    ensures { (result ≡ sum_to (steps_product n.states n.symbols uppers.now means.now r y x) n.states) × (result ≤ 2 ^ 46) }
{
    sum_over_states(
        n.states,
        |t| value(uppers, n, r, y, t) * mean(means, n, t, x),
    )
}

// What record i contributes to its row's right side, before its weight.
#[tactic(auto, using(model::proofs::Accepted::sized_fits))]
fn steps_through(model: &[u8], i: usize, uppers: &[u8], means: &[u8], n: Sizes) -> u64
    requires files { Sized model.now n.states n.symbols × Chances n uppers.now × MeanSteps n means.now }
    requires inside { i < records_of model.now }
    ensures { (result ≡ steps_added model.now i n uppers.now means.now) × (result ≤ 2 ^ 46 + 2 ^ 42) }
{
    let r = target(model, i);
    let y = top(model, i);
    match pushes(model, i) {
        0 => 0,
        1 => CHANCE_UNIT * mean(means, n, r, y),
        _ => CHANCE_UNIT * mean(means, n, r, y)
            + steps_two(uppers, means, n, r, y, under(model, i)),
    }
}

// The right side for a row, by its number, in 1/2^44 of a step.
pub fn mean_side(
    model: &[u8],
    starts: &[u16; STARTS],
    uppers: &[u8],
    means: &[u8],
    n: Sizes,
    row: usize,
) -> u64
    requires files { Indexed model.now n starts.now × Chances n uppers.now × MeanSteps n means.now }
    requires inside { row < rows_in n.states n.symbols }
    ensures { (result ≡ mean_side_of model.now n uppers.now means.now row) × (result < 2 ^ 63) }
{
    STEP + sum_over_row(
        model,
        starts,
        n,
        row,
        |i| steps_through(model, i, uppers, means, n),
    )
}
