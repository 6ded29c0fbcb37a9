// The one answer of every check: accepted, or refused with a reason, a place and a shortfall.
#![tactic(auto)]

ghost use Rattle.std.specs.Prelude.{◌≡◌, pos};
ghost use Rattle.outcome.specs.Outcomes.{Refused};
ghost use Rattle.outcome.specs.Reasons.{number_of};
ghost use Rattle.outcome.specs.Differences.{difference};

// Why a file is refused, or a call on the register. The number of each is `number_of` of specs/Reasons.antt.
#[derive(Clone, Copy)]
pub enum Reason {
    ModelLength,
    OutOfRange,
    UnusedNotZero,
    WeightOutOfRange,
    NotAscending,
    RowSumWrong,
    NoShape,
    NotDue,
    ValueOutOfRange,
    DeadNotZero,
    UpperTooSmall,
    LowerAboveUpper,
    LowerTooLarge,
    MeanTooSmall,
    NoModel,
    ModelHeld,
    NoDelivery,
    NotOfModel,
    NoBlock,
    TooManySteps,
    CounterLength,
    CounterRecord,
    CounterSum,
}

impl From<Reason> for u32 {
    ghost from_gives = { λ reason n. n ≡ number_of reason };

    fn from(reason: Reason) -> u32 {
        match reason {
            Reason::ModelLength => 10,
            Reason::OutOfRange => 11,
            Reason::UnusedNotZero => 12,
            Reason::WeightOutOfRange => 13,
            Reason::NotAscending => 14,
            Reason::RowSumWrong => 15,
            Reason::NoShape => 20,
            Reason::NotDue => 21,
            Reason::ValueOutOfRange => 22,
            Reason::DeadNotZero => 23,
            Reason::UpperTooSmall => 24,
            Reason::LowerAboveUpper => 25,
            Reason::LowerTooLarge => 26,
            Reason::MeanTooSmall => 27,
            Reason::NoModel => 40,
            Reason::ModelHeld => 41,
            Reason::NoDelivery => 42,
            Reason::NotOfModel => 44,
            Reason::NoBlock => 43,
            Reason::TooManySteps => 45,
            Reason::CounterLength => 46,
            Reason::CounterRecord => 47,
            Reason::CounterSum => 48,
        }
    }
}

// Why, where, and by how much: the first failing test's reason, place and shortfall.
#[derive(Clone, Copy)]
pub struct Refusal {
    pub reason: Reason,
    pub place: usize,
    pub shortfall: i64,
}

// What a check answers: accepted, or refused.
pub type Outcome = Result<(), Refusal>;

// A refusal that is no missed inequality: its shortfall is 0.
pub fn refused<T>(reason: Reason, place: usize) -> Result<T, Refusal>
    ensures { result ≡ Refused reason place (pos 0) }
{
    Err(Refusal {
        reason,
        place,
        shortfall: 0,
    })
}

// The signed difference of two exact sums, held to the range of an i64.
pub fn difference(have: u64, need: u64) -> i64
    ensures { result ≡ difference have need }
{
    if need <= have {
        0i64.saturating_add_unsigned(have - need)
    } else {
        0i64.saturating_sub_unsigned(need - have)
    }
}
