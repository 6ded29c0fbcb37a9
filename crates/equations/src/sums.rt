// The sums that the equations are made of: over the states, and over the records of a row.

ghost use Rattle.std.specs.Prelude.{ℕ, ◌≡◌, ◌*◌, ◌^◌, ◌+◌, ◌≤◌, ◌<◌};
ghost use Rattle.walks.specs.Sums.{sum_to};
ghost use Rattle.walks.specs.Order.{rows_in};
ghost use Rattle.ppda.specs.Units.{weight_unit};
ghost use Rattle.ppda.specs.Rules.{Push};
ghost use Rattle.model.specs.Format.{most_states};
ghost use Rattle.model.specs.Records.{records_of};
ghost use Rattle.rows.specs.Clauses.{Indexed};
ghost use Rattle.equations.specs.Clauses.{Gives, row_sum};

use model::record::weight;
use model::sizes::Sizes;
use rows::STARTS;

// The sum of what `term` gives at each state.
pub(crate) fn sum_over_states<F: Fn(usize) -> u64>(states: usize, term: F) -> u64
    requires few { states ≤ most_states }
    requires callable { (t : ℕ) → t < states → F.pre term t }
    requires small { (t : ℕ) (r : ℕ) → t < states → F.post term t r → r ≤ 2 ^ 43 }
    ensures { (value : ℕ → ℕ) → ((t : ℕ) (r : ℕ) → t < states → F.post term t r → r ≡ value t) → result ≡ sum_to value states }
{
    let mut sum = 0;
    for t in 0..states {
        sum += term(t);
    }
    sum
}

// What a rule adds to a sum over its row's rules: its weight times what it leads to, with no rounding.
fn weighed(weight: u64, through: u64) -> u64
    requires { weight * through < 2 ^ 63 }
    ensures { result ≡ weight * through }
{
    weight * through
}

// The sum, over the records of a row, of the weight times what `through` gives of the record.
#[tactic(auto, using(model::proofs::Accepted::sized_fits))]
pub(crate) fn sum_over_row<F: Fn(usize) -> u64>(
    model: &[u8],
    starts: &[u16; STARTS],
    n: Sizes,
    row: usize,
    through: F,
) -> u64
    requires files { Indexed model.now n starts.now }
    requires inside { row < rows_in n.states n.symbols }
    requires callable { (i : ℕ) → i < records_of model.now → F.pre through i }
    requires small { (value : ℕ → Push → ℕ) × Gives (F.post through) model.now value (2 ^ 46 + 2 ^ 42) }
    ensures { (value : ℕ → Push → ℕ) (most : ℕ) → Gives (F.post through) model.now value most → (result ≡ row_sum model.now n value row) × (result ≤ most * weight_unit) }
{
    let mut sum = 0;
    for i in usize::from(starts[row])..usize::from(starts[row + 1]) {
        sum += weighed(weight(model, i), through(i));
    }
    sum
}
