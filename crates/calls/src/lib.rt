// What the calls on a register answer, and in which order the reasons of a question come.
#![tactic(auto)]

ghost use Rattle.std.specs.Prelude.{◌≡◌};
ghost use Rattle.calls.specs.Answers.{answered_or, answered};

use outcome::{Reason, Refusal, refused};

// The mark of an accepted delivery.
#[derive(Clone, Copy)]
pub enum Mark {
    Known,
    New,
}

// What filing a delivery, or merging it, answers: its mark, or a refusal.
pub type Receipt = Result<Mark, Refusal>;

// A question: on an entry, on a row, or on the whole; and on an entry's chance within so many steps.
#[derive(Clone, Copy)]
pub enum Question {
    Upper {
        p: usize,
        z: usize,
        q: usize,
    },
    Lower {
        p: usize,
        z: usize,
        q: usize,
    },
    MeanSteps {
        p: usize,
        z: usize,
    },
    Margin,
    Live {
        p: usize,
        z: usize,
        q: usize,
    },
    Within {
        steps: usize,
        p: usize,
        z: usize,
        q: usize,
    },
}

// The answer to a question: a number, or a refusal.
pub type Answer = Result<u64, Refusal>;

// The answer to a question: the first reason that applies, by whether a model is held, whether a delivery is held, whether the states and
// symbols are the model's and whether the question's own last test passes, which has its own reason; or the number.
pub fn answered_or(
    model: bool,
    delivery: bool,
    inside: bool,
    last: bool,
    reason: Reason,
    value: u64,
) -> Answer
    ensures { result ≡ answered_or model delivery inside last reason value }
{
    if !model {
        return refused(Reason::NoModel, 0);
    }
    if !delivery {
        return refused(Reason::NoDelivery, 0);
    }
    if !inside {
        return refused(Reason::NotOfModel, 0);
    }
    if !last {
        return refused(reason, 0);
    }
    Ok(value)
}

// The same for a question whose last test is whether the block stands.
pub fn answered(model: bool, delivery: bool, inside: bool, block: bool, value: u64) -> Answer
    ensures { result ≡ answered model delivery inside block value }
{
    answered_or(model, delivery, inside, block, Reason::NoBlock, value)
}
