// How far an upper lies above f, in 1/2^56.

ghost use Rattle.std.specs.Prelude.{◌≡◌, ◌<◌};
ghost use Rattle.walks.specs.Order.{rows_in, by_row};
ghost use Rattle.shares.specs.Gap.{gap_at};
ghost use Rattle.shares.specs.Clauses.{Standing};

use delivery::format::SUM_UNIT;
use delivery::record::value_at;
use equations::chances::f;
use model::sizes::Sizes;
use rows::STARTS;

// u − f(u) at the entry of a row, by its number, with exit q.
#[tactic(auto, using(model::proofs::Accepted::sized_fits))]
pub fn gap(
    model: &[u8],
    starts: &[u16; STARTS],
    uppers: &[u8],
    n: Sizes,
    row: usize,
    q: usize,
) -> u64
    requires { Standing model.now n starts.now uppers.now × (row < rows_in n.states n.symbols) × (q < n.states) }
    ensures { result ≡ by_row n.symbols (gap_at model.now n.states n.symbols uppers.now) row q }
{
    let y = f(model, starts, uppers, n, row, q);
    value_at(uppers, n.entry_in(row, q)) * SUM_UNIT - y
}
