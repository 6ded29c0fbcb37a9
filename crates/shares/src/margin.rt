// The margin of a delivery's uppers: the least share over the live entries, in 1/2^20.

ghost use Rattle.std.specs.Prelude.{◌≡◌, ◌≤◌, ◌<◌};
ghost use Rattle.ppda.specs.Units.{most_chance};
ghost use Rattle.walks.specs.Order.{rows_in};
ghost use Rattle.ppda.specs.Margin.{share, share_at};
ghost use Rattle.delivery.specs.Clauses.{Chances};
ghost use Rattle.rows.specs.Clauses.{Indexed};
ghost use Rattle.shares.specs.Clauses.{least_in_row, least_share};

use delivery::format::{CHANCE_UNIT, SUM_UNIT};
use delivery::record::value_at;
use equations::chances::f;
use live::exits::{is_live, mark};
use model::format::MOST_ROWS;
use model::sizes::Sizes;
use rows::STARTS;

// A difference in units of a sum, divided by u times this, is a share in 1/2^20.
const SHARE_UNIT: u64 = SUM_UNIT / CHANCE_UNIT;

// The share (u − y) / u of an upper u and f(u) = y, in 1/2^20, rounded down. An upper that is not above f has the share 0.
fn share(u: u64, y: u64) -> u64
    requires { u ≤ most_chance }
    ensures { result ≡ share u y }
{
    let upper = u * SUM_UNIT;
    if upper <= y {
        return 0;
    }
    (upper - y) / (u * SHARE_UNIT)
}

// An entry's part in the margin, by whether it is live. A dead one leaves the margin as it is.
#[tactic(auto, unfolding(ppda::specs::Margin::share_at))]
fn share_at(live: bool, u: u64, y: u64) -> u64
    requires { u ≤ most_chance }
    ensures { result ≡ share_at live u y }
{
    if live { share(u, y) } else { CHANCE_UNIT }
}

// The least of `least` and the shares of a row, by its number.
#[tactic(auto, using(model::proofs::Accepted::sized_fits))]
fn least_of_row(
    model: &[u8],
    starts: &[u16; STARTS],
    live: &[u8; MOST_ROWS],
    uppers: &[u8],
    n: Sizes,
    row: usize,
    least: u64,
) -> u64
    requires { Indexed model.now n starts.now × Chances n uppers.now × (row < rows_in n.states n.symbols) }
    ensures { result ≡ least_in_row least model.now n live.now uppers.now row }
{
    let mut least = least;
    for q in 0..n.states {
        let u = value_at(uppers, n.entry_in(row, q));
        let y = f(model, starts, uppers, n, row, q);
        least = least.min(share_at(is_live(mark(live, row, q)), u, y));
    }
    least
}

// The margin: the least share over the live entries, and 2^20 where nothing is live.
#[tactic(auto, using(model::proofs::Accepted::sized_fits))]
pub fn margin_of(
    model: &[u8],
    starts: &[u16; STARTS],
    live: &[u8; MOST_ROWS],
    uppers: &[u8],
    n: Sizes,
) -> u64
    requires { Indexed model.now n starts.now × Chances n uppers.now }
    ensures { result ≡ least_share model.now n.states n.symbols live.now uppers.now }
{
    let mut least = CHANCE_UNIT;
    for k in 0..n.rows() {
        least = least_of_row(model, starts, live, uppers, n, k, least);
    }
    least
}
