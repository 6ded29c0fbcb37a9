// What a filing is answered: the register's own reason, which comes before any file is read, or the verdict on the file; and the mark of an
// accepted delivery.
#![tactic(auto)]

ghost use Rattle.std.specs.Prelude.{◌≡◌};
ghost use Rattle.model.specs.Clauses.{Fits};
ghost use Rattle.filing.specs.Outcomes.{model_outcome, delivery_outcome, merge_reason, merge_outcome};
ghost use Rattle.filing.specs.Known.{same_numbers, mark_by};

use calls::Mark;
use delivery::shape::Shape;
use held::lists::same;
use held::{HeldModel, Numbers, holds_model, is_held, is_held_as};
use model::sizes::Sizes;
use outcome::{Outcome, Reason, refused};

// The outcome of filing a model where one of this length is held, or none.
#[tactic(auto, unfolding(crate::specs::Outcomes::model_outcome))]
pub fn model_outcome(length: usize, file: &[u8]) -> Outcome
    ensures { result ≡ model_outcome length file.now }
{
    if holds_model(length) {
        return refused(Reason::ModelHeld, 0);
    }
    wellformed::check(file)
}

// The outcome of filing a delivery for the held model.
#[tactic(auto, using(held::proofs::Becomes::held_fits), unfolding(crate::specs::Outcomes::delivery_outcome, crate::specs::Outcomes::file_of))]
pub fn delivery_outcome(held: HeldModel, file: &[u8]) -> Outcome
    ensures { result ≡ delivery_outcome held file.now }
{
    if !holds_model(held.length) {
        return refused(Reason::NoModel, 0);
    }
    certificate::check(&held.bytes[..held.length], file)
}

// The register's own reason to refuse a merge, by whether a model and a delivery are held: none where both are.
fn merge_reason(model: bool, delivery: bool) -> Outcome
    ensures { result ≡ merge_reason model delivery }
{
    if !model {
        return refused(Reason::NoModel, 0);
    }
    if !delivery {
        return refused(Reason::NoDelivery, 0);
    }
    Ok(())
}

// The outcome of merging the held delivery with a second one.
#[tactic(auto, unfolding(crate::specs::Outcomes::merge_outcome, crate::specs::Outcomes::delivery_outcome))]
pub fn merge_outcome(held: HeldModel, delivery: Option<Shape>, file: &[u8]) -> Outcome
    ensures { result ≡ merge_outcome held delivery file.now }
{
    merge_reason(holds_model(held.length), is_held(delivery))?;
    delivery_outcome(held, file)
}

// Whether two deliveries have the same numbers: uppers and lowers of the entries, mean steps of the rows.
#[tactic(auto, using(crate::proofs::Known::same_exactly), unfolding(crate::specs::Known::same_numbers))]
fn same_numbers(n: Sizes, former: Numbers, numbers: Numbers) -> bool
    requires { Fits n.states n.symbols }
    ensures { result ≡ same_numbers n.states n.symbols former numbers }
{
    let v = n.entries();
    same(&former.uppers, &numbers.uppers, v)
        && same(&former.lowers, &numbers.lowers, v)
        && same(&former.means, &numbers.means, n.rows())
}

// The mark of a delivery of this shape with these numbers, by what was held before it.
#[tactic(auto, unfolding(crate::specs::Known::mark_by))]
pub fn mark_by(
    n: Sizes,
    held: Option<Shape>,
    former: Numbers,
    shape: Shape,
    numbers: Numbers,
) -> Mark
    requires { Fits n.states n.symbols }
    ensures { result ≡ mark_by n.states n.symbols held former shape numbers }
{
    if is_held_as(held, shape) && same_numbers(n, former, numbers) {
        Mark::Known
    } else {
        Mark::New
    }
}
