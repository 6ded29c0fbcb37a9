// One record of a counter file: its numbers, by the names of specs/Records.antt, and its tests.

ghost use Rattle.std.specs.Prelude.{◌≡◌, ◌+◌, ◌<◌, ◌^◌};
ghost use Rattle.outcome.specs.Tests.{first};
ghost use Rattle.wellformed.specs.Verdict.{above};
ghost use Rattle.counter.specs.Format.{record_bytes};
ghost use Rattle.counter.specs.Records.{moves_in, byte_in, from_at, to_at, shift_at, weight_in, move_key};
ghost use Rattle.counter.specs.Verdict.{move_in_range, move_ascends, move_tests};
ghost use Rattle.counter.specs.Clauses.{HasMove};

use super::format::{
    FROM_BYTE, MOST_SHIFT, RECORD_BYTES, SHIFT_BYTE, TO_BYTE, WEIGHT_BYTE, ZERO_BYTE,
};
use model::format::{MOST_STATES, WEIGHT_UNIT};
use outcome::{Outcome, Reason, refused};

// How many whole records, and so moves, the file has.
#[tactic(auto, unfolding(crate::specs::Records::moves_in))]
pub(crate) fn moves(file: &[u8]) -> usize
    ensures { result ≡ moves_in file.now }
{
    file.len() / RECORD_BYTES
}

// Byte k of record i.
#[tactic(auto, unfolding(crate::specs::Records::byte_in))]
fn byte_in(file: &[u8], i: usize, k: usize) -> usize
    requires { HasMove file.now i × (k < record_bytes) }
    ensures { (result ≡ byte_in file.now i k) × (result < 256) }
{
    words::byte(file, RECORD_BYTES * i + k)
}

// u: the state that record i is for.
pub(crate) fn from(file: &[u8], i: usize) -> usize
    requires { HasMove file.now i }
    ensures { (result ≡ from_at file.now i) × (result < 256) }
{
    byte_in(file, i, FROM_BYTE)
}

// v: the state that it goes to.
pub(crate) fn to(file: &[u8], i: usize) -> usize
    requires { HasMove file.now i }
    ensures { (result ≡ to_at file.now i) × (result < 256) }
{
    byte_in(file, i, TO_BYTE)
}

// d: 0 for one down, 1 for level, 2 for one up.
pub(crate) fn shift(file: &[u8], i: usize) -> usize
    requires { HasMove file.now i }
    ensures { (result ≡ shift_at file.now i) × (result < 256) }
{
    byte_in(file, i, SHIFT_BYTE)
}

// The weight of record i.
#[tactic(auto, unfolding(crate::specs::Records::weight_in))]
pub(crate) fn weight(file: &[u8], i: usize) -> u64
    requires { HasMove file.now i }
    ensures { (result ≡ weight_in file.now i) × (result < 2 ^ 32) }
{
    words::word(file, RECORD_BYTES * i + WEIGHT_BYTE)
}

// Whether the states and d of record i are in range, its fourth byte is 0 and its weight is from 1 to 65,536.
#[tactic(auto, using(std::proofs::lemmas::Bool::Decides::nat_tests), unfolding(crate::specs::Verdict::move_in_range))]
fn in_range(file: &[u8], i: usize) -> bool
    requires { HasMove file.now i }
    ensures { result ≡ move_in_range file.now i }
{
    from(file, i) < MOST_STATES
        && to(file, i) < MOST_STATES
        && shift(file, i) <= MOST_SHIFT
        && byte_in(file, i, ZERO_BYTE) == 0
        && (1..=WEIGHT_UNIT).contains(&weight(file, i))
}

// (u, v, d) of record i, by which records ascend.
fn key(file: &[u8], i: usize) -> (usize, usize, usize)
    requires { HasMove file.now i }
    ensures { (result.0 ≡ from_at file.now i) × (result.1 ≡ to_at file.now i) × (result.2 ≡ shift_at file.now i) }
{
    (from(file, i), to(file, i), shift(file, i))
}

// Whether record i + 1 lies above record i by (u, v, d).
fn lies_above(file: &[u8], i: usize) -> bool
    requires { HasMove file.now (i + 1) }
    ensures { result ≡ above (move_key file.now (i + 1)) (move_key file.now i) }
{
    key(file, i) < key(file, i + 1)
}

// Whether record i lies above the record before it, if there is one.
#[tactic(auto, using(crate::proofs::Verdict::ascends_first, crate::proofs::Verdict::ascends_after))]
fn ascends(file: &[u8], i: usize) -> bool
    requires { HasMove file.now i }
    ensures { result ≡ move_ascends file.now i }
{
    i == 0 || lies_above(file, i - 1)
}

// The test of record i.
#[tactic(auto, using(std::proofs::lemmas::Bool::Decides::nat_tests), unfolding(crate::specs::Verdict::move_tests, outcome::specs::Tests::first))]
pub(crate) fn check(file: &[u8], i: usize) -> Outcome
    requires { HasMove file.now i }
    ensures { result ≡ first (move_tests file.now i) }
{
    if in_range(file, i) && ascends(file, i) {
        Ok(())
    } else {
        refused(Reason::CounterRecord, i)
    }
}
