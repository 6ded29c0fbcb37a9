// What is printed of a model file and a delivery file: the two are filed in an empty register, which is then asked.
#![tactic(auto)]

use alive::live_entries;
use chances::put_chances;
use gaps::gaps_of;
use lines::{CHANCE_ROOM, MARGIN_ROOM, STEPS_ROOM, TABLE_ROOM, put_margin, put_refusal, put_table};
use model::format::{MOST_ENTRIES, MOST_ROWS};
use model::sizes::{Sizes, records, sizes_of};
use outcome::Refusal;
use register::Register;
use steps::put_means;

mod chances; // chances.rt: the lines of the live entries
mod alive; // alive.rt: how many entries are live
pub mod self_test; // self_test.rt: the self-test on model W
mod steps; // steps.rt: the lines of the rows' mean steps

ghost use Rattle.std.specs.Prelude.{◌≡◌, length};
ghost use Rattle.outcome.specs.Outcomes.{Accepted};
ghost use Rattle.verdict.specs.Verdict.{verdict};
ghost use Rattle.history.specs.Run.{reply_of};
ghost use Rattle.model.specs.Clauses.{Fits};
ghost use Rattle.report.specs.Printed.{accepted_lines, printed};
ghost use Rattle.report.specs.Clauses.{room, HoldsText, lines_with, HoldsModel, line_of};

// The bytes of a buffer: no report has more lines, nor longer ones.
const ROOM: usize = TABLE_ROOM + MARGIN_ROOM + MOST_ENTRIES * CHANCE_ROOM + MOST_ROWS * STEPS_ROOM;

// What is to be printed: the first `length` bytes.
#[derive(Clone, Copy)]
pub struct Printout {
    pub bytes: [u8; ROOM],
    pub length: usize,
}

// An empty buffer.
fn blank() -> [u8; ROOM]
    ensures { length result ≡ room }
{
    [0u8; ROOM]
}

// The line of a refusal.
fn refusal(why: Refusal) -> Printout
    ensures { HoldsText result (line_of why) }
{
    let mut bytes = blank();
    let length = put_refusal(&mut bytes, 0, why);
    Printout { bytes, length }
}

// What a register shows, where u − f(u) of the entries and the model's sizes are at hand.
fn shown_with(register: Register, rules: usize, gaps: &[u64; MOST_ENTRIES], n: Sizes) -> Printout
    requires { Fits n.states n.symbols }
    ensures { HoldsText result (lines_with register rules gaps.now n) }
{
    let mut bytes = blank();
    let live = live_entries(register, n);
    let at = put_table(&mut bytes, 0, n.states, n.symbols, rules, live);
    let at = put_margin(&mut bytes, at, register.margin());
    let at = put_chances(&mut bytes, at, register, gaps, n);
    let length = put_means(&mut bytes, at, register, n);
    Printout { bytes, length }
}

// What a register that holds the two files shows.
fn shown(register: Register, model: &[u8], delivery: &[u8]) -> Printout
    requires { verdict model.now delivery.now ≡ Accepted }
    ensures { HoldsText result (accepted_lines (reply_of register) model.now delivery.now) }
{
    let gaps = gaps_of(model, delivery);
    let n = sizes_of(model);
    shown_with(register, records(model), &gaps, n)
}

// What is printed of any delivery, where a register holds the model.
fn delivered(holding: Register, model: &[u8], delivery: &[u8]) -> Printout
    requires { HoldsModel holding model.now }
    ensures { HoldsText result (printed model.now delivery.now) }
{
    let received = holding.file_delivery(delivery);
    match received.receipt {
        Ok(_) => shown(received.register, model, delivery),
        Err(why) => refusal(why),
    }
}

// What is printed of any two files.
pub fn of_files(model: &[u8], delivery: &[u8]) -> Printout
    ensures { HoldsText result (printed model.now delivery.now) }
{
    let filed = Register::empty().file_model(model);
    match filed.outcome {
        Ok(()) => delivered(filed.register, model, delivery),
        Err(why) => refusal(why),
    }
}
