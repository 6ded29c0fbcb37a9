// The sums of the weights of the rows. Records ascend, so that those of a row follow each other.

ghost use Rattle.std.specs.Prelude.{◌≡◌, ◌+◌};
ghost use Rattle.outcome.specs.Tests.{first};
ghost use Rattle.model.specs.Rules.{row_sum};
ghost use Rattle.model.specs.Clauses.{StartsAt};
ghost use Rattle.model.specs.Accepted.{RecordsRight, Ascending};
ghost use Rattle.model.specs.Sizes.{sizes_of};
ghost use Rattle.wellformed.specs.Verdict.{rows_tests};

use model::format::WEIGHT_UNIT;
use model::record::{state, symbol, weight};
use model::sizes::{Sizes, records};
use outcome::{Outcome, Reason, refused};

// The sum of a row's weights, and the record after its last.
#[derive(Clone, Copy)]
struct SummedRow {
    sum: u64,
    next: usize,
}

// The sum of row k, which starts at record i.
fn sum_of_row(model: &[u8], n: Sizes, k: usize, i: usize) -> SummedRow
    requires file { RecordsRight model.now × Ascending model.now × (n ≡ sizes_of model.now) }
    requires start { StartsAt model.now n.symbols k i }
    ensures { (result.sum ≡ row_sum model.now n.symbols k)
        × StartsAt model.now n.symbols (k + 1) result.next }
{
    let end = records(model);
    let mut sum = 0;
    for at in i..end {
        if n.row(state(model, at), symbol(model, at)) != k {
            return SummedRow { sum, next: at };
        }
        sum += weight(model, at);
    }
    SummedRow { sum, next: end }
}

// The tests of the rows, in their order.
pub(crate) fn check(model: &[u8], n: Sizes) -> Outcome
    requires { RecordsRight model.now × Ascending model.now × (n ≡ sizes_of model.now) }
    ensures { result ≡ first (rows_tests model.now) }
{
    let rows = n.rows();
    let mut next = 0;
    for k in 0..rows {
        let row = sum_of_row(model, n, k, next);
        if row.sum != WEIGHT_UNIT {
            return refused(Reason::RowSumWrong, k);
        }
        next = row.next;
    }
    Ok(())
}
