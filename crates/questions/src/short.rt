// The chance of a very short run, of the model in the first bytes, by its index.

ghost use Rattle.std.specs.Prelude.{◌≡◌, ◌≤◌, length, take};
ghost use Rattle.questions.specs.Questions.{short_chance};
ghost use Rattle.questions.specs.Clauses.{RowsOf};

use held::places::has_entry;
use model::sizes::Sizes;
use rows::STARTS;
use shortruns::chances::chance;
use shortruns::few_steps;

// What is asked of a short run: how many steps, and the entry.
#[derive(Clone, Copy)]
pub struct ShortRun {
    pub steps: usize,
    pub p: usize,
    pub z: usize,
    pub q: usize,
}

// The chance of the entry within so many steps, over 65,536 to their number: 0 where the bytes are no model or have no such entry, or the steps are more than may be asked for.
#[tactic(auto, using(held::proofs::Bounds::entry_exactly, crate::proofs::ShortChances::few_exactly))]
pub(crate) fn short_chance(
    bytes: &[u8],
    count: usize,
    n: Sizes,
    starts: &[u16; STARTS],
    asked: ShortRun,
) -> u64
    requires { (count ≤ length bytes.now) × RowsOf (take count bytes.now) n starts.now }
    ensures { result ≡ short_chance (take count bytes.now) asked.steps asked.p asked.z asked.q }
{
    let ShortRun { steps, p, z, q } = asked;
    if !has_entry(n, p, z, q) || !few_steps(steps) {
        return 0;
    }
    chance(&bytes[..count], starts, n, steps, n.row(p, z), q)
}
