// The register, a value: it holds at most one model and one delivery, takes filings and answers questions. A refused call leaves it as it is.
#![tactic(auto)]

ghost use Rattle.std.specs.Prelude.{◌≡◌, Err};
ghost use Rattle.model.specs.Clauses.{Fits};
ghost use Rattle.register.specs.Filing.{cleared, file_model, turned_away, holding_sized, file_delivery};
ghost use Rattle.register.specs.Merging.{has_delivery, merge_delivery};
ghost use Rattle.register.specs.Questions.{has_model, shown_of, lists_of, view_of, upper_in, lower_in, mean_in, margin_in, live_in, within_in};

use calls::{Answer, Receipt};
use delivery::shape::Shape;
use filing::{delivery_outcome, mark_by, merge_outcome, model_outcome};
use held::filing::{model_of, numbers_of, shape_for};
use held::{HeldModel, Numbers, holds_model, is_held, no_model, no_numbers, shape_held};
use merging::{merged_numbers, merged_shape};
use model::format::MOST_ENTRIES;
use model::sizes::{Sizes, sizes_of};
use outcome::{Outcome, Refusal};
use questions::short::ShortRun;
use questions::{LISTS, Shown, View, index};
use rows::STARTS;

// At most one model and one delivery: the held delivery's shape, and its numbers beside it.
#[derive(Clone, Copy)]
pub struct Register {
    model: HeldModel,
    delivery: Option<Shape>,
    numbers: Numbers,
}

// What filing a model gives: the register after it, and the outcome.
#[derive(Clone, Copy)]
pub struct Filed {
    pub register: Register,
    pub outcome: Outcome,
}

// What filing a delivery gives, or merging one: the register after it, and the mark of an accepted delivery.
#[derive(Clone, Copy)]
pub struct Received {
    pub register: Register,
    pub receipt: Receipt,
}

// A refused delivery, filed or merged, leaves the register as it is.
fn delivery_refused(register: Register, why: Refusal) -> Received
    ensures { result ≡ turned_away register (Err why) }
{
    Received {
        register,
        receipt: Err(why),
    }
}

impl Register {
    // A register that holds nothing.
    #[tactic(auto, unfolding(crate::specs::Filing::cleared))]
    pub fn empty() -> Register
        ensures { result ≡ cleared }
    {
        Register {
            model: no_model(),
            delivery: None,
            numbers: no_numbers(),
        }
    }

    // The register after clearing, which is allowed when it is empty.
    pub fn clear(self) -> Register
        ensures { result ≡ cleared }
    {
        Register::empty()
    }

    // Files a model. A refused one leaves the register as it is.
    #[tactic(auto, using(filing::proofs::Outcomes::model_passed), unfolding(crate::specs::Filing::file_model, crate::specs::Filing::with_model))]
    pub fn file_model(self, file: &[u8]) -> Filed
        ensures { result ≡ file_model self file.now }
    {
        if let Err(why) = model_outcome(self.model.length, file) {
            return Filed {
                register: self,
                outcome: Err(why),
            };
        }
        Filed {
            register: Register {
                model: model_of(file),
                delivery: None,
                numbers: no_numbers(),
            },
            outcome: Ok(()),
        }
    }

    // The register with an accepted delivery's shape and numbers for its model, and the mark, by what is held.
    fn holding(&self, n: Sizes, shape: Shape, numbers: &Numbers) -> Received
        requires { Fits n.states n.symbols }
        ensures { result ≡ holding_sized self.now n.states n.symbols shape numbers.now }
    {
        let mark = mark_by(n, self.delivery, self.numbers, shape, *numbers);
        Received {
            register: Register {
                model: self.model,
                delivery: Some(shape),
                numbers: *numbers,
            },
            receipt: Ok(mark),
        }
    }

    // Files a delivery for the held model.
    #[tactic(auto, using(held::proofs::Becomes::held_fits), unfolding(filing::specs::Outcomes::delivery_outcome, crate::specs::Filing::file_delivery, crate::specs::Filing::shape_for, filing::specs::Outcomes::file_of))]
    pub fn file_delivery(self, file: &[u8]) -> Received
        ensures { result ≡ file_delivery self file.now }
    {
        if let Err(why) = delivery_outcome(self.model, file) {
            return delivery_refused(self, why);
        }
        let model = &self.model.bytes[..self.model.length];
        let n = sizes_of(model);
        let shape = shape_for(file, n);
        let numbers = numbers_of(model, file, n, shape);
        self.holding(n, shape, &numbers)
    }

    // Merges the held delivery with a second one for the held model. The mark compares what is made with the delivery that was held.
    #[tactic(auto, using(filing::proofs::Outcomes::merge_passed, held::proofs::Becomes::held_fits), unfolding(crate::specs::Merging::merge_delivery, crate::specs::Filing::shape_for, filing::specs::Outcomes::file_of))]
    pub fn merge_delivery(self, file: &[u8]) -> Received
        ensures { result ≡ merge_delivery self file.now }
    {
        if let Err(why) = merge_outcome(self.model, self.delivery, file) {
            return delivery_refused(self, why);
        }
        let model = &self.model.bytes[..self.model.length];
        let n = sizes_of(model);
        let first = shape_held(self.delivery);
        let second = shape_for(file, n);
        let merged = merged_numbers(model, n, first, self.numbers, second, file);
        self.holding(n, merged_shape(first, second), &merged)
    }

    // Whether a model is held, on which the register's own reasons for a filing go.
    #[tactic(auto, unfolding(crate::specs::Questions::has_model))]
    pub fn has_model(self) -> bool
        ensures { result ≡ has_model self }
    {
        holds_model(self.model.length)
    }

    // Whether a delivery is held, on which a merge goes too.
    #[tactic(auto, unfolding(crate::specs::Merging::has_delivery))]
    pub fn has_delivery(self) -> bool
        ensures { result ≡ has_delivery self }
    {
        is_held(self.delivery)
    }

    // What is held but for the lists of numbers.
    fn shown(self) -> Shown
        ensures { result ≡ shown_of self }
    {
        Shown {
            length: self.model.length,
            states: self.model.states,
            symbols: self.model.symbols,
            delivery: self.delivery,
            margin: self.numbers.margin,
        }
    }

    // The upper of an entry. Each question copies its own list out of the register: where it lends a part of it, the whole register is copied at the call.
    #[tactic(auto, unfolding(crate::specs::Questions::upper_in))]
    pub fn upper(self, p: usize, z: usize, q: usize) -> Answer
        ensures { result ≡ upper_in self p z q }
    {
        let list = self.numbers.uppers;
        questions::upper(self.shown(), &list, p, z, q)
    }

    // The lower of an entry.
    #[tactic(auto, unfolding(crate::specs::Questions::lower_in))]
    pub fn lower(self, p: usize, z: usize, q: usize) -> Answer
        ensures { result ≡ lower_in self p z q }
    {
        let list = self.numbers.lowers;
        questions::lower(self.shown(), &list, p, z, q)
    }

    // The mean steps of a row.
    #[tactic(auto, unfolding(crate::specs::Questions::mean_in))]
    pub fn mean_steps(self, p: usize, z: usize) -> Answer
        ensures { result ≡ mean_in self p z }
    {
        let list = self.numbers.means;
        questions::mean_steps(self.shown(), &list, p, z)
    }

    // The margin.
    #[tactic(auto, unfolding(crate::specs::Questions::margin_in))]
    pub fn margin(self) -> Answer
        ensures { result ≡ margin_in self }
    {
        questions::margin(self.shown())
    }

    // The live mark of an entry, which needs a model only.
    #[tactic(auto, unfolding(crate::specs::Questions::live_in))]
    pub fn live(self, p: usize, z: usize, q: usize) -> Answer
        ensures { result ≡ live_in self p z q }
    {
        let list = self.model.live;
        questions::live(self.shown(), &list, p, z, q)
    }

    // The chance of an entry within so many steps, which needs a model only.
    #[tactic(auto, unfolding(crate::specs::Questions::within_in))]
    pub fn within(self, steps: usize, p: usize, z: usize, q: usize) -> Answer
        ensures { result ≡ within_in self steps p z q }
    {
        let bytes = self.model.bytes;
        let mut starts = [0u16; STARTS];
        let sizes = index::find(&bytes, self.model.length, &mut starts);
        let asked = ShortRun { steps, p, z, q };
        questions::within(self.shown(), sizes, &bytes, &starts, asked)
    }

    // What questions are answered from, beside the lists of numbers.
    pub fn view(self) -> View
        ensures { result ≡ view_of self }
    {
        let bytes = self.model.bytes;
        View {
            shown: self.shown(),
            bytes,
        }
    }

    // Its lists of numbers: live marks and mean steps in the order of files, uppers and lowers by exit (request A.6).
    pub fn lists(self) -> [[u32; MOST_ENTRIES]; LISTS]
        ensures { result ≡ lists_of self }
    {
        let marks = self.model.live;
        let uppers = self.numbers.uppers;
        let lowers = self.numbers.lowers;
        let means = self.numbers.means;
        [marks, uppers, lowers, means]
    }
}
