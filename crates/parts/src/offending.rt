// The record that a refusal names, as a part of whichever file it lies in.

ghost use Rattle.std.specs.Prelude.{◌≡◌};
ghost use Rattle.parts.specs.Parts.{names_rule, names_bound, names_model, offending_part, LyingIn};

use super::record::{Kind, is_whole, record_at};

// A number and no reason: the answer is promised for every number.

// Whether the reason's place is a record of the model.
fn names_rule(number: u32) -> bool
    ensures { result ≡ names_rule number }
{
    (11 <= number) & (number <= 14)
}

// Whether it is a record of the delivery.
fn names_bound(number: u32) -> bool
    ensures { result ≡ names_bound number }
{
    (21 <= number) & (number <= 27)
}

// Whether the reason is the model's as a whole.
fn names_model(number: u32) -> bool
    ensures { result ≡ names_model number }
{
    (number == 10) | (number == 15)
}

// The offending record of a refusal's number and place: 11 to 14 name a record of the model, 21 to 27 one of the delivery. For 10 and 15 it is the
// empty part at the start of the model; for every other number, and where the record is not whole, the empty part at the start of the delivery.
pub fn offending<'a>(model: &'a [u8], delivery: &'a [u8], number: u32, place: usize) -> &'a [u8]
    ensures { LyingIn (offending_part number place model.now delivery.now)
        model.entry.ref_ptr.0 model.entry.ref_ptr.1 model.now
        delivery.entry.ref_ptr.0 delivery.entry.ref_ptr.1 delivery.now
        result.ref_ptr.0 result.ref_ptr.1 result.now }
{
    if names_model(number) {
        return &model[..0];
    }
    if names_rule(number) {
        if is_whole(model, Kind::Model, place) {
            return record_at(model, Kind::Model, place);
        }
        return &delivery[..0];
    }
    if names_bound(number) {
        return record_at(delivery, Kind::Delivery, place);
    }
    &delivery[..0]
}
