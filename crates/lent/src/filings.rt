// The filings and the merge on a lent register: each calls the one by value and stores the register that it gives only if it was accepted. A refused
// one writes to no lent memory (proofs/Untouched.antt).

ghost use Rattle.std.specs.Prelude.{not, ◌≡◌};
ghost use Rattle.outcome.specs.Outcomes.{is_refused};
ghost use Rattle.register.specs.Filing.{file_model, file_delivery};
ghost use Rattle.register.specs.Merging.{merge_delivery};

use calls::Receipt;
use outcome::{Outcome, Refusal};
use register::Register;

// Whether a filing is stored, by its answer.
pub fn is_stored<T: Drop>(answer: Result<T, Refusal>) -> bool
    ensures { result ≡ not (is_refused answer) }
{
    answer.is_ok()
}

// The filings are alike but for their types. Each has code of its own, of which it is proved that a refused one stores nothing.

// Files a model in the lent register.
pub fn file_model(held: &mut Register, file: &[u8]) -> Outcome
    ensures { (held.new ≡ (file_model held.old file.now).register)
        × (result ≡ (file_model held.old file.now).outcome) }
{
    let filed = held.file_model(file);
    if is_stored(filed.outcome) {
        *held = filed.register;
    }
    filed.outcome
}

// Files a delivery for the model of the lent register.
pub fn file_delivery(held: &mut Register, file: &[u8]) -> Receipt
    ensures { (held.new ≡ (file_delivery held.old file.now).register)
        × (result ≡ (file_delivery held.old file.now).receipt) }
{
    let received = held.file_delivery(file);
    if is_stored(received.receipt) {
        *held = received.register;
    }
    received.receipt
}

// Merges the held delivery of the lent register with a second one.
pub fn merge_delivery(held: &mut Register, file: &[u8]) -> Receipt
    ensures { (held.new ≡ (merge_delivery held.old file.now).register)
        × (result ≡ (merge_delivery held.old file.now).receipt) }
{
    let received = held.merge_delivery(file);
    if is_stored(received.receipt) {
        *held = received.register;
    }
    received.receipt
}
