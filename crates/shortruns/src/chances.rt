// The chance of one symbol is worked from that of a stacked pair with one step fewer, and the pair's from single symbols with fewer steps left.

ghost use Rattle.std.specs.Prelude.{◌≡◌, ◌*◌, ◌^◌, ◌≤◌, ◌<◌, eqb};
ghost use Rattle.walks.specs.Sums.{bit};
ghost use Rattle.walks.specs.Order.{rows_in};
ghost use Rattle.ppda.specs.Units.{weight_unit};
ghost use Rattle.model.specs.Records.{records_of};
ghost use Rattle.rows.specs.Clauses.{Indexed};
ghost use Rattle.shortruns.specs.Short.{most_steps};
ghost use Rattle.shortruns.specs.Clauses.{row_chance, pair_chance};

use model::format::WEIGHT_UNIT;
use model::record::{pushes, target, top, under, weight};
use model::sizes::Sizes;
use rows::STARTS;

// A chance of 1 within so many steps: 65,536 to their number.
fn certain(steps: usize) -> u64
    requires { steps ≤ most_steps }
    ensures { result ≡ weight_unit ^ steps }
{
    WEIGHT_UNIT.pow(steps as u32)
}

// The chance of having returned through q where no symbol is left in this state: `whole` in q, else 0.
fn returned(state: usize, q: usize, whole: u64) -> u64
    ensures { result ≡ whole * bit (eqb state q) }
{
    if state == q { whole } else { 0 }
}

// The chance of the entry of a row, by its number, with exit q: over the row's records. A record that pushes more symbols than steps are left adds nothing, since each
// symbol takes a step.
#[cycle(chance_chance_of_pair)]
#[tactic(auto, using(model::proofs::Accepted::sized_fits))]
pub fn chance(
    model: &[u8],
    starts: &[u16; STARTS],
    n: Sizes,
    steps: usize,
    row: usize,
    q: usize,
) -> u64
    requires files { Indexed model.now n starts.now }
    requires inside { (steps ≤ most_steps) × (row < rows_in n.states n.symbols) × (q < n.states) }
    ensures { (result ≡ row_chance model.now n.symbols steps row q) × (result ≤ weight_unit ^ steps) }
{
    if steps == 0 {
        return 0;
    }
    let left = steps - 1;
    let whole = certain(left);
    let start = usize::from(starts[row]);
    let end = usize::from(starts[row + 1]);
    let mut sum = 0;
    for i in start..end {
        let pushed = pushes(model, i);
        if left < pushed {
            continue;
        }
        let r = target(model, i);
        let after = match pushed {
            0 => returned(r, q, whole),
            1 => chance(model, starts, n, left, n.row(r, top(model, i)), q),
            _ => chance_of_pair(model, starts, n, left, i, q),
        };
        sum += weight(model, i) * after;
    }
    sum
}

// The chance that the two symbols which record i pushes are gone within so many steps, in state q: over how many steps the first takes, 1 and more, and over the state between. The first
// takes j steps with the chance within j less that within j − 1; the second has the steps that are left.
#[cycle(chance_chance_of_pair)]
fn chance_of_pair(
    model: &[u8],
    starts: &[u16; STARTS],
    n: Sizes,
    steps: usize,
    i: usize,
    q: usize,
) -> u64
    requires files { Indexed model.now n starts.now }
    requires inside { (0 < steps) × (steps ≤ most_steps) × (i < records_of model.now) × (q < n.states) }
    ensures { (result ≡ pair_chance model.now steps i q) × (result ≤ weight_unit ^ steps) }
{
    let s = n.states;
    let first = n.row(target(model, i), top(model, i));
    let x = under(model, i);
    let mut sum = 0;
    for k in s..s * steps {
        let j = k / s;
        let t = k % s;
        let within = chance(model, starts, n, j, first, t);
        let before = chance(model, starts, n, j - 1, first, t);
        sum += (within - WEIGHT_UNIT * before)
            * chance(model, starts, n, steps - j, n.row(t, x), q);
    }
    sum
}
