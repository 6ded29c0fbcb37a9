// The live marks, by rounds of f from zero everywhere.

ghost use Rattle.std.specs.Prelude.{◌≡◌, replicate};
ghost use Rattle.ppda.specs.Live.{alive};
ghost use Rattle.walks.specs.Order.{rows_in};
ghost use Rattle.model.specs.Format.{most_rows};
ghost use Rattle.model.specs.Rules.{rules_of};
ghost use Rattle.rows.specs.Clauses.{Indexed};
ghost use Rattle.live.specs.Clauses.{ExitsOf, RoundTo};

use super::exits::next_exits;
use model::format::MOST_ROWS;
use model::sizes::Sizes;
use rows::STARTS;

// One round: every row by the marks before.
#[tactic(auto, using(model::proofs::Accepted::sized_fits))]
fn round(
    model: &[u8],
    starts: &[u16; STARTS],
    marks: &[u8; MOST_ROWS],
    next: &mut [u8; MOST_ROWS],
    n: Sizes,
)
    requires { Indexed model.now n starts.now }
    ensures { RoundTo model.now n.states n.symbols marks.now (rows_in n.states n.symbols) next.new }
{
    for k in 0..n.rows() {
        next[k] = next_exits(model, starts, marks, n, k);
    }
}

// Finds the live marks, from none: as many rounds as there are entries, or fewer once a round changes nothing.
#[tactic(auto, using(model::proofs::Accepted::sized_fits))]
pub fn find_marks(model: &[u8], starts: &[u16; STARTS], n: Sizes, marks: &mut [u8; MOST_ROWS])
    requires { Indexed model.now n starts.now × (marks.old ≡ replicate most_rows 0) }
    ensures { ExitsOf n.states n.symbols (alive (rules_of model.now) n.states n.symbols) marks.new }
{
    let mut next = [0u8; MOST_ROWS];
    for _left in (0..n.entries()).rev() {
        round(model, starts, marks, &mut next, n);
        if *marks == next {
            return;
        }
        *marks = next;
    }
}
