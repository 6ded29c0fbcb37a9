// Whether bytes are a model file: the verdict 10 to 15 on any bytes.
#![tactic(auto)]

use model::format::{MOST_BYTES, RECORD_BYTES};
use model::record::key_number;
use model::sizes::{Sizes, no_records, records};
use outcome::{Outcome, Reason, Refusal, refused};

mod record; // record.rt: the tests of one record
mod row_sums; // row_sums.rt: the sums of the rows

ghost use Rattle.std.specs.Prelude.{◌≡◌, ◌≤◌, ◌*◌, length, IfOk, IfErr, Err};
ghost use Rattle.outcome.specs.Outcomes.{Accepted};
ghost use Rattle.outcome.specs.Tests.{first};
ghost use Rattle.walks.specs.Lists.{each};
ghost use Rattle.model.specs.Format.{record_bytes};
ghost use Rattle.model.specs.Clauses.{SizesTo};
ghost use Rattle.wellformed.specs.Verdict.{whole_records, record_tests, model_verdict};

// Whether a file of n bytes has 1 to 1,024 whole records. (Crate counter has this of its own format, by its own definition.)
#[tactic(auto, using(std::proofs::lemmas::Bool::Decides::nat_tests), unfolding(crate::specs::Verdict::whole_records))]
fn whole_records(n: usize) -> bool
    ensures { result ≡ whole_records n }
{
    0 < n && n % RECORD_BYTES == 0 && n <= MOST_BYTES
}

// The tests of each record, in their order, and the sizes of all of them where none fails, in one pass: a record's number is formed once, for its test and
// for the next one's.
fn check_records(model: &[u8], records: usize) -> Result<Sizes, Refusal>
    requires { record_bytes * records ≤ length model.now }
    ensures refused { IfErr result (λ why. first (each records (record_tests model.now)) ≡ Err why) }
    ensures sized { IfOk result (λ n. (first (each records (record_tests model.now)) ≡ Accepted) × SizesTo model.now records n) }
{
    let mut before = 0;
    let mut sizes = no_records();
    for i in 0..records {
        record::check(model, i)?;
        let number = key_number(model, i);
        if !record::ascends(i, before, number) {
            return refused(Reason::NotAscending, i);
        }
        before = number;
        sizes = sizes.with_record(model, i);
    }
    Ok(sizes)
}

// The verdict on any bytes as a model file.
pub fn check(model: &[u8]) -> Outcome
    ensures { result ≡ model_verdict model.now }
{
    if !whole_records(model.len()) {
        return refused(Reason::ModelLength, 0);
    }
    let sizes = check_records(model, records(model))?;
    row_sums::check(model, sizes)
}
