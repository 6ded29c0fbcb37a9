// One record of a delivery: its numbers, by the names of specs/Records.antt, and whether it is the one due.

ghost use Rattle.std.specs.Prelude.{◌≡◌, ◌<◌, ◌^◌};
ghost use Rattle.delivery.specs.Format.{record_bytes};
ghost use Rattle.delivery.specs.Records.{byte_of, kind_at, state_at, symbol_at, exit_at, value_at, kind_of, least_of, most_of, is_due, in_range};
ghost use Rattle.delivery.specs.Clauses.{HasRecord};

use super::format::{
    EXIT_BYTE, KIND_BYTE, LEAST_MEAN, LOWER_KIND, MEAN_KIND, MOST_CHANCE, MOST_MEAN, RECORD_BYTES,
    STATE_BYTE, SYMBOL_BYTE, UPPER_KIND, VALUE_BYTE,
};
use super::shape::Block;

// Byte k of record i.
#[tactic(auto, unfolding(crate::specs::Records::byte_of))]
fn byte_of(delivery: &[u8], i: usize, k: usize) -> usize
    requires { HasRecord delivery.now i × (k < record_bytes) }
    ensures { (result ≡ byte_of delivery.now i k) × (result < 65536) }
{
    words::byte(delivery, RECORD_BYTES * i + k)
}

// The kind of record i. Each number has a function of its own, as each has its definition; what they share is `byte_of`.
pub(crate) fn kind_at(delivery: &[u8], i: usize) -> usize
    requires { HasRecord delivery.now i }
    ensures { (result ≡ kind_at delivery.now i) × (result < 65536) }
{
    byte_of(delivery, i, KIND_BYTE)
}

// Its state.
fn state_at(delivery: &[u8], i: usize) -> usize
    requires { HasRecord delivery.now i }
    ensures { (result ≡ state_at delivery.now i) × (result < 65536) }
{
    byte_of(delivery, i, STATE_BYTE)
}

// Its symbol.
fn symbol_at(delivery: &[u8], i: usize) -> usize
    requires { HasRecord delivery.now i }
    ensures { (result ≡ symbol_at delivery.now i) × (result < 65536) }
{
    byte_of(delivery, i, SYMBOL_BYTE)
}

// Its exit.
fn exit_at(delivery: &[u8], i: usize) -> usize
    requires { HasRecord delivery.now i }
    ensures { (result ≡ exit_at delivery.now i) × (result < 65536) }
{
    byte_of(delivery, i, EXIT_BYTE)
}

// Its value.
#[tactic(auto, unfolding(crate::specs::Records::value_at))]
pub fn value_at(delivery: &[u8], i: usize) -> u64
    requires { HasRecord delivery.now i }
    ensures { (result ≡ value_at delivery.now i) × (result < 2 ^ 32) }
{
    words::word(delivery, RECORD_BYTES * i + VALUE_BYTE)
}

// The kind of a block's records.
pub(crate) fn kind(block: Block) -> usize
    ensures { result ≡ kind_of block }
{
    match block {
        Block::Uppers => UPPER_KIND,
        Block::Lowers => LOWER_KIND,
        Block::Means => MEAN_KIND,
    }
}

// The least value of a block.
fn least(block: Block) -> u64
    ensures { result ≡ least_of block }
{
    match block {
        Block::Uppers | Block::Lowers => 0,
        Block::Means => LEAST_MEAN,
    }
}

// The greatest value of a block.
fn most(block: Block) -> u64
    ensures { result ≡ most_of block }
{
    match block {
        Block::Uppers | Block::Lowers => MOST_CHANCE,
        Block::Means => MOST_MEAN,
    }
}

// Whether record i has the kind, p, Z and q due there.
#[tactic(auto, unfolding(crate::specs::Records::is_due))]
pub fn is_due(delivery: &[u8], i: usize, block: Block, p: usize, z: usize, q: usize) -> bool
    requires { HasRecord delivery.now i }
    ensures { result ≡ is_due delivery.now i block p z q }
{
    kind_at(delivery, i) == kind(block)
        && state_at(delivery, i) == p
        && symbol_at(delivery, i) == z
        && exit_at(delivery, i) == q
}

// Whether the value of record i is in the block's range.
#[tactic(auto, unfolding(crate::specs::Records::in_range))]
pub fn in_range(delivery: &[u8], i: usize, block: Block) -> bool
    requires { HasRecord delivery.now i }
    ensures { result ≡ in_range delivery.now i block }
{
    (least(block)..=most(block)).contains(&value_at(delivery, i))
}
