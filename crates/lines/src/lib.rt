// The lines of a report, each put at `at`, and what they show of a register's answers.
#![tactic(auto)]

ghost use Rattle.std.specs.Prelude.{◌≡◌, ◌∷◌, ◌+◌, ◌≤◌, length};
ghost use Rattle.outcome.specs.Reasons.{number_of};
ghost use Rattle.text.specs.Clauses.{Put};
ghost use Rattle.calls.specs.Answers.{answer_reply};
ghost use Rattle.lines.specs.Clauses.{table_room, margin_room, refused_room, chance_room, steps_room, chance_text};
ghost use Rattle.lines.specs.Lines.{shown, says_live, table_line, margin_line, steps_by, refused_line};

use calls::Answer;
use live::exits::is_live;
use outcome::Refusal;
use text::{put, put_byte, put_field, put_fields, put_signed};

// The most bytes of a line: its word, its fields, each a space and at most 20 digits, and its end.
pub const TABLE_ROOM: usize = 5 + 4 * 21 + 1;

pub const MARGIN_ROOM: usize = 6 + 21 + 1;

pub const CHANCE_ROOM: usize = 6 + 6 * 21 + 1;

pub const STEPS_ROOM: usize = 5 + 3 * 21 + 1;

// What a register answers on an entry, and its u − f(u).
#[derive(Clone, Copy)]
pub struct Chance {
    pub p: usize,
    pub z: usize,
    pub q: usize,
    pub live: bool,
    pub lower: Answer,
    pub upper: Answer,
    pub gap: u64,
}

// Whether an answer on a live mark says that the entry is live.
pub fn says_live(answer: Answer) -> bool
    ensures { result ≡ says_live (answer_reply answer) }
{
    answer.is_ok_and(is_live)
}

// Puts a space and the number of an answer, or `-` for a refusal.
fn put_answer(out: &mut [u8], at: usize, answer: Answer) -> usize
    requires { at + 21 ≤ length out.old }
    ensures { Put out.old out.new at result (32 ∷ shown (answer_reply answer)) × (result ≤ at + 21) }
{
    match answer {
        Ok(n) => put_field(out, at, n),
        Err(_) => put(out, at, b" -"),
    }
}

// The sizes of a model: states, symbols, records and live entries.
pub fn put_table(out: &mut [u8], at: usize, s: usize, g: usize, n: usize, alive: usize) -> usize
    requires { at + table_room ≤ length out.old }
    ensures { Put out.old out.new at result (table_line s g n alive) × (result ≤ at + table_room) }
{
    let at = put_fields(
        out,
        at,
        b"table",
        &[s as u64, g as u64, n as u64, alive as u64],
    );
    put_byte(out, at, b'\n')
}

// The margin.
pub fn put_margin(out: &mut [u8], at: usize, margin: Answer) -> usize
    requires { at + margin_room ≤ length out.old }
    ensures { Put out.old out.new at result (margin_line (answer_reply margin)) × (result ≤ at + margin_room) }
{
    let at = put(out, at, b"margin");
    let at = put_answer(out, at, margin);
    put_byte(out, at, b'\n')
}

// A refusal by its number, its place and its shortfall.
pub fn put_refused(out: &mut [u8], at: usize, number: u32, place: usize, shortfall: i64) -> usize
    requires { at + refused_room ≤ length out.old }
    ensures { Put out.old out.new at result (refused_line number place shortfall) × (result ≤ at + refused_room) }
{
    let at = put_fields(out, at, b"refused", &[u64::from(number), place as u64]);
    let at = put_signed(out, at, shortfall);
    put_byte(out, at, b'\n')
}

// A refusal.
pub fn put_refusal(out: &mut [u8], at: usize, why: Refusal) -> usize
    requires { at + refused_room ≤ length out.old }
    ensures { Put out.old out.new at result (refused_line (number_of why.reason) why.place why.shortfall)
        × (result ≤ at + refused_room) }
{
    put_refused(out, at, u32::from(why.reason), why.place, why.shortfall)
}

// The line of an entry: its lower, its upper and u − f(u); or nothing where it is not live.
pub fn put_chance(out: &mut [u8], at: usize, chance: Chance) -> usize
    requires { at + chance_room ≤ length out.old }
    ensures { Put out.old out.new at result (chance_text chance) × (result ≤ at + chance_room) }
{
    if !chance.live {
        return at;
    }
    let at = put_fields(
        out,
        at,
        b"chance",
        &[chance.p as u64, chance.z as u64, chance.q as u64],
    );
    let at = put_answer(out, at, chance.lower);
    let at = put_answer(out, at, chance.upper);
    let at = put_field(out, at, chance.gap);
    put_byte(out, at, b'\n')
}

// The line of a row: its mean steps, or nothing where the answer is a refusal.
pub fn put_steps(out: &mut [u8], at: usize, p: usize, z: usize, mean: Answer) -> usize
    requires { at + steps_room ≤ length out.old }
    ensures { Put out.old out.new at result (steps_by p z (answer_reply mean)) × (result ≤ at + steps_room) }
{
    let Ok(steps) = mean else {
        return at;
    };
    let at = put_fields(out, at, b"steps", &[p as u64, z as u64, steps]);
    put_byte(out, at, b'\n')
}
