// The questions, answered from what is held: a few small values, and the one list of numbers that is asked, or the model's bytes with their index. Nothing is copied.
#![tactic(auto)]

use calls::{Answer, Question, answered, answered_or};
use delivery::shape::Shape;
use held::places::{entry_value, exit_value, has_entry, has_row, row_value, sizes_held};
use held::{holds_model, is_held, lowers_stand, means_stand};
use model::format::{MOST_BYTES, MOST_ENTRIES};
use model::sizes::Sizes;
use outcome::Reason;
use rows::STARTS;
use short::{ShortRun, short_chance};
use shortruns::few_steps;

pub mod index; // index.rt: what is found once of a held model
pub mod short; // short.rt: the chance of a very short run

ghost use Rattle.std.specs.Prelude.{◌≡◌};
ghost use Rattle.calls.specs.Answers.{answered};
ghost use Rattle.held.specs.Held.{holds_model, is_held};
ghost use Rattle.questions.specs.Questions.{upper_answer, lower_answer, mean_answer, margin_answer, live_answer, within_answer, answer_from};
ghost use Rattle.questions.specs.Clauses.{is_short, Indexes, IfNeeded};

// What is held, but for the lists of numbers: the length of the model's file, 0 where none is held, its sizes, the delivery's shape and its margin.
#[derive(Clone, Copy)]
pub struct Shown {
    pub length: usize,
    pub states: u8,
    pub symbols: u16,
    pub delivery: Option<Shape>,
    pub margin: u64,
}

// The lists of numbers, by their places: live marks and mean steps in the order of files, uppers and lowers by exit (request A.6).
pub const MARKS: usize = 0;

pub const UPPERS: usize = 1;

pub const LOWERS: usize = 2;

pub const MEANS: usize = 3;

pub const LISTS: usize = 4;

// What questions are answered from, beside the lists of numbers: what is held, and the model's bytes.
#[derive(Clone, Copy)]
pub struct View {
    pub shown: Shown,
    pub bytes: [u8; MOST_BYTES],
}

// The answer to a question on the held delivery, by whether the place is the model's and whether the block stands, and its number there.
fn of_delivery(held: Shown, inside: bool, block: bool, value: u64) -> Answer
    ensures { result ≡ answered (holds_model held.length) (is_held held.delivery) inside block value }
{
    answered(
        holds_model(held.length),
        is_held(held.delivery),
        inside,
        block,
        value,
    )
}

// The upper of an entry.
pub fn upper(held: Shown, uppers: &[u32; MOST_ENTRIES], p: usize, z: usize, q: usize) -> Answer
    ensures { result ≡ upper_answer held uppers.now p z q }
{
    let n = sizes_held(held.states, held.symbols);
    let value = exit_value(uppers, n, p, z, q);
    of_delivery(held, has_entry(n, p, z, q), true, value)
}

// The lower of an entry.
pub fn lower(held: Shown, lowers: &[u32; MOST_ENTRIES], p: usize, z: usize, q: usize) -> Answer
    ensures { result ≡ lower_answer held lowers.now p z q }
{
    let n = sizes_held(held.states, held.symbols);
    let stand = lowers_stand(held.delivery);
    let value = exit_value(lowers, n, p, z, q);
    of_delivery(held, has_entry(n, p, z, q), stand, value)
}

// The mean steps of a row.
pub fn mean_steps(held: Shown, means: &[u32; MOST_ENTRIES], p: usize, z: usize) -> Answer
    ensures { result ≡ mean_answer held means.now p z }
{
    let n = sizes_held(held.states, held.symbols);
    let stand = means_stand(held.delivery);
    let value = row_value(means, n, p, z);
    of_delivery(held, has_row(n, p, z), stand, value)
}

// The margin.
pub fn margin(held: Shown) -> Answer
    ensures { result ≡ margin_answer held }
{
    of_delivery(held, true, lowers_stand(held.delivery), held.margin)
}

// The live mark of an entry, which needs a model only.
pub fn live(held: Shown, marks: &[u32; MOST_ENTRIES], p: usize, z: usize, q: usize) -> Answer
    ensures { result ≡ live_answer held marks.now p z q }
{
    let n = sizes_held(held.states, held.symbols);
    let value = entry_value(marks, n, p, z, q);
    answered(
        holds_model(held.length),
        true,
        has_entry(n, p, z, q),
        true,
        value,
    )
}

// The chance of an entry within so many steps, which needs a model only, by the model's bytes and their index. It is worked out only where it is shown.
#[tactic(auto, using(held::proofs::Becomes::held_fits))]
pub fn within(
    held: Shown,
    sizes: Sizes,
    bytes: &[u8; MOST_BYTES],
    starts: &[u16; STARTS],
    asked: ShortRun,
) -> Answer
    requires { Indexes held.length sizes bytes.now starts.now }
    ensures { result ≡ within_answer held bytes.now asked.steps asked.p asked.z asked.q }
{
    let n = sizes_held(held.states, held.symbols);
    let model = holds_model(held.length);
    let inside = has_entry(n, asked.p, asked.z, asked.q);
    let few = few_steps(asked.steps);
    let value = if model && inside && few {
        short_chance(bytes, held.length, sizes, starts, asked)
    } else {
        0
    };
    answered_or(model, true, inside, few, Reason::TooManySteps, value)
}

// Whether a question is on a short run, and so needs the index of the model's bytes.
pub fn is_short(question: Question) -> bool
    ensures { result ≡ is_short question }
{
    matches!(question, Question::Within { .. })
}

// Any question, from what is held, the model's bytes with their index, and the lists of numbers.
pub fn answer(
    held: Shown,
    sizes: Sizes,
    bytes: &[u8; MOST_BYTES],
    starts: &[u16; STARTS],
    lists: &[[u32; MOST_ENTRIES]; LISTS],
    question: Question,
) -> Answer
    requires { IfNeeded (is_short question) held.length sizes bytes.now starts.now }
    ensures { result ≡ answer_from held bytes.now lists.now question }
{
    match question {
        Question::Upper { p, z, q } => upper(held, &lists[UPPERS], p, z, q),
        Question::Lower { p, z, q } => lower(held, &lists[LOWERS], p, z, q),
        Question::MeanSteps { p, z } => mean_steps(held, &lists[MEANS], p, z),
        Question::Margin => margin(held),
        Question::Live { p, z, q } => live(held, &lists[MARKS], p, z, q),
        Question::Within { steps, p, z, q } => {
            let asked = ShortRun { steps, p, z, q };
            within(held, sizes, bytes, starts, asked)
        }
    }
}
