// Counter files (request A.2): whether bytes are one, the model that it makes, and its filing.
#![tactic(auto)]

pub mod filings; // filings.rt: the filings, on a register by value and on a lent one
pub mod format; // format.rt: the format's numbers and the limits
mod make; // make.rt: the model that a counter file makes
mod record; // record.rt: one record's numbers, and its tests
mod sums; // sums.rt: the sums of the states

ghost use Rattle.std.specs.Prelude.{◌≡◌};
ghost use Rattle.outcome.specs.Tests.{first};
ghost use Rattle.walks.specs.Lists.{each};
ghost use Rattle.counter.specs.Records.{moves_in};
ghost use Rattle.counter.specs.Verdict.{whole_moves, move_tests, counter_verdict};

use format::{MOST_BYTES, RECORD_BYTES};
use outcome::{Outcome, Reason, refused};
use record::moves;

// Whether a file of n bytes has 1 to 192 whole records.
#[tactic(auto, using(std::proofs::lemmas::Bool::Decides::nat_tests), unfolding(crate::specs::Verdict::whole_moves))]
fn whole_moves(n: usize) -> bool
    ensures { result ≡ whole_moves n }
{
    0 < n && n % RECORD_BYTES == 0 && n <= MOST_BYTES
}

// The tests of the records, in their order.
#[tactic(auto, using(crate::proofs::Verdict::turns), unfolding(crate::specs::Records::moves_in))]
fn check_moves(file: &[u8]) -> Outcome
    ensures { result ≡ first (each (moves_in file.now) (move_tests file.now)) }
{
    for i in 0..moves(file) {
        record::check(file, i)?;
    }
    Ok(())
}

// The verdict on any bytes as a counter file.
#[tactic(auto, using(crate::proofs::Verdict::parts))]
pub fn check(file: &[u8]) -> Outcome
    ensures { result ≡ counter_verdict file.now }
{
    if !whole_moves(file.len()) {
        return refused(Reason::CounterLength, 0);
    }
    check_moves(file)?;
    sums::check(file)
}
