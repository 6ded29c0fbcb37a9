// The filings of a counter file: on a register by value, and on a lent one, which stores only what was accepted.

ghost use Rattle.std.specs.Prelude.{◌≡◌};
ghost use Rattle.counter.specs.Filing.{counter_outcome, file_counter};

use super::check;
use super::make::{MADE_BYTES, make};
use lent::filings::is_stored;
use outcome::{Outcome, Reason, refused};
use register::{Filed, Register};

// The outcome of filing a counter file: the register's own reason comes before any file is read.
#[tactic(auto, unfolding(crate::specs::Filing::counter_outcome))]
fn counter_outcome(register: Register, file: &[u8]) -> Outcome
    ensures { result ≡ counter_outcome register file.now }
{
    if register.has_model() {
        return refused(Reason::ModelHeld, 0);
    }
    check(file)
}

// Files a counter file: the register then holds the model that it makes; a refused one leaves it as it is.
#[tactic(auto, using(crate::proofs::Filing::filing))]
pub fn file_counter(register: Register, file: &[u8]) -> Filed
    ensures { result ≡ file_counter register file.now }
{
    if let Err(why) = counter_outcome(register, file) {
        return Filed {
            register,
            outcome: Err(why),
        };
    }
    let mut made = [0u8; MADE_BYTES];
    let n = make(file, &mut made);
    register.file_model(&made[..n])
}

// Files a counter file in the lent register.
pub fn file_counter_in(held: &mut Register, file: &[u8]) -> Outcome
    ensures { (held.new ≡ (file_counter held.old file.now).register)
        × (result ≡ (file_counter held.old file.now).outcome) }
{
    let filed = file_counter(*held, file);
    if is_stored(filed.outcome) {
        *held = filed.register;
    }
    filed.outcome
}
