// One record of a model file: its numbers, by the names of specs/Records.antt.

ghost use Rattle.std.specs.Prelude.{◌≡◌, ◌<◌, ◌^◌};
ghost use Rattle.model.specs.Format.{record_bytes};
ghost use Rattle.model.specs.Records.{field, state, symbol, target, pushes, top, under, weight, key};
ghost use Rattle.model.specs.Numbers.{key_number};
ghost use Rattle.model.specs.Clauses.{HasRecord};

use super::format::{
    KEY_BASE, PUSHES_BYTE, RECORD_BYTES, STATE_BYTE, SYMBOL_BYTE, TARGET_BYTE, TOP_BYTE,
    UNDER_BYTE, WEIGHT_BYTE,
};

// Byte k of record i.
#[tactic(auto, unfolding(crate::specs::Records::field))]
fn field(model: &[u8], i: usize, k: usize) -> usize
    requires { HasRecord model.now i × (k < record_bytes) }
    ensures { (result ≡ field model.now i k) × (result < 65536) }
{
    words::byte(model, RECORD_BYTES * i + k)
}

// The one-byte fields, each under its own name. What they share is `field`.

// The state that record i is for.
pub fn state(model: &[u8], i: usize) -> usize
    requires { HasRecord model.now i }
    ensures { (result ≡ state model.now i) × (result < 65536) }
{
    field(model, i, STATE_BYTE)
}

// The symbol that it is for.
pub fn symbol(model: &[u8], i: usize) -> usize
    requires { HasRecord model.now i }
    ensures { (result ≡ symbol model.now i) × (result < 65536) }
{
    field(model, i, SYMBOL_BYTE)
}

// The state that it goes to.
pub fn target(model: &[u8], i: usize) -> usize
    requires { HasRecord model.now i }
    ensures { (result ≡ target model.now i) × (result < 65536) }
{
    field(model, i, TARGET_BYTE)
}

// How many symbols it pushes.
pub fn pushes(model: &[u8], i: usize) -> usize
    requires { HasRecord model.now i }
    ensures { (result ≡ pushes model.now i) × (result < 65536) }
{
    field(model, i, PUSHES_BYTE)
}

// The new top.
pub fn top(model: &[u8], i: usize) -> usize
    requires { HasRecord model.now i }
    ensures { (result ≡ top model.now i) × (result < 65536) }
{
    field(model, i, TOP_BYTE)
}

// The symbol under it.
pub fn under(model: &[u8], i: usize) -> usize
    requires { HasRecord model.now i }
    ensures { (result ≡ under model.now i) × (result < 65536) }
{
    field(model, i, UNDER_BYTE)
}

// The weight of record i.
#[tactic(auto, unfolding(crate::specs::Records::weight))]
pub fn weight(model: &[u8], i: usize) -> u64
    requires { HasRecord model.now i }
    ensures { (result ≡ weight model.now i) × (result < 2 ^ 32) }
{
    words::word(model, RECORD_BYTES * i + WEIGHT_BYTE)
}

// The number of record i, by which records are compared (request A.4): what it says but its weight as digits, p first.
pub fn key_number(model: &[u8], i: usize) -> u64
    requires { HasRecord model.now i }
    ensures { result ≡ key_number (key model.now i) }
{
    let p = state(model, i) as u64;
    let z = symbol(model, i) as u64;
    let q = target(model, i) as u64;
    let l = pushes(model, i) as u64;
    let y = top(model, i) as u64;
    let x = under(model, i) as u64;
    ((((p * KEY_BASE + z) * KEY_BASE + q) * KEY_BASE + l) * KEY_BASE + y) * KEY_BASE + x
}
