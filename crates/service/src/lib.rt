// A desk: a register that takes its calls from lines of text. Input comes in pieces of any size, and lines go across pieces.
#![tactic(auto)]

ghost use Rattle.std.specs.Prelude.{◌≡◌, true};
ghost use Rattle.io.specs.Counts.{IsPrefixLen};
ghost use Rattle.script.specs.Script.{reads_file};
ghost use Rattle.script.specs.Serving.{at_start};
ghost use Rattle.service.specs.Service.{state_of, Took};
ghost use Rattle.service.specs.Clauses.{name_from, Performed, kept_count, kept_line, served_of};

use questions::index::{find_if, none};
use register::Register;
use replies::{REPLY_ROOM, put_response};
use rows::STARTS;
use said::{Change, Said, said_by};
use script::{Responded, answer, asks_short, change, may_change, reads_file};
use std::rt::Files;

// The bytes that are kept of a line: one more than a line that says a call may have.
const KEPT: usize = 301;

// A register, and what has come of the line that has not ended: its first bytes.
#[derive(Clone, Copy)]
pub struct Desk {
    register: Register,
    line: [u8; KEPT],
    kept: usize,
}

// What serving a piece of input gives: the desk after it, how many bytes of the piece it took, and how many bytes it printed.
#[derive(Clone, Copy)]
pub struct Served {
    pub desk: Desk,
    pub taken: usize,
    pub printed: usize,
}

// A desk whose register holds nothing, at the start of a line.
pub fn opened() -> Desk
    ensures { state_of result ≡ at_start }
{
    Desk {
        register: Register::empty(),
        line: [0u8; KEPT],
        kept: 0,
    }
}

// Where the name of a file stands in the line of a change: after its word and a space.
fn name_from(change: Change) -> usize
    ensures { result ≡ name_from change }
{
    match change {
        Change::Clear => 0,
        Change::Model => 6,
        Change::Counter => 8,
        Change::Delivery => 9,
        Change::Merge => 6,
    }
}

// Reads the file that a line names, as much as `file` holds. Nobody may ask for it before the register's own reasons: whether a model and a delivery are held.
fn fetch(
    rt: &(impl Files + Eprint),
    model: bool,
    delivery: bool,
    said: Said,
    line: &[u8],
    file: &mut [u8],
) -> usize
    requires { reads_file model delivery said ≡ true }
    ensures { IsPrefixLen result file.new }
{
    let Said::Change(change) = said else {
        return 0;
    };
    let from = name_from(change);
    if line.len() < from {
        return 0;
    }
    files::read(rt, &line[from..], file)
}

// Makes the change that a line asks for. Its file is read only if the register has no reason of its own to refuse it, and one byte more of it than any
// delivery, model or counter file has that can pass, so that a longer file is refused by its number.
fn perform(rt: &(impl Files + Eprint), register: Register, said: Said, line: &[u8]) -> Responded
    ensures { Performed register said result }
{
    let model = register.has_model();
    let delivery = register.has_delivery();
    if !reads_file(model, delivery, said) {
        return change(register, said, b"");
    }
    let mut file = [0u8; delivery::format::MOST_BYTES + 1];
    let n = fetch(rt, model, delivery, said, line, &mut file);
    change(register, said, &file[..n])
}

// Keeps a byte of a line, if there is a place for it, and answers how many are kept.
fn keep_byte(line: &mut [u8; KEPT], kept: usize, byte: u8) -> usize
    ensures { (result ≡ kept_count kept) × (line.new ≡ kept_line line.old kept byte) }
{
    if kept < KEPT {
        line[kept] = byte;
        return kept + 1;
    }
    kept
}

// What serving gives, from its parts.
fn finished(
    register: Register,
    line: [u8; KEPT],
    kept: usize,
    taken: usize,
    printed: usize,
) -> Served
    ensures { result ≡ served_of register line kept taken printed }
{
    let desk = Desk {
        register,
        line,
        kept,
    };
    Served {
        desk,
        taken,
        printed,
    }
}

// Takes a piece of input, as much of it as there is surely room for the replies to, and prints these from the start of `out` on. Questions are answered
// from a view v of the register and its lists of numbers, which are taken anew after each change; what short runs need of the model is found when one is first asked for in the piece or after a change.
pub fn serve(rt: &(impl Files + Eprint), desk: Desk, piece: &[u8], out: &mut [u8]) -> Served
    ensures { Took desk piece.now out.old out.new result }
{
    let taken = piece.len().min(out.len() / REPLY_ROOM);
    let mut register = desk.register;
    let mut v = register.view();
    let mut lists = register.lists();
    let mut sizes = none();
    let mut starts = [0u16; STARTS];
    let mut line = desk.line;
    let mut kept = desk.kept.min(KEPT);
    let mut at = 0;
    for i in 0..taken {
        let byte = piece[i];
        if byte != b'\n' {
            kept = keep_byte(&mut line, kept, byte);
            continue;
        }
        let said = said_by(&line[..kept]);
        if may_change(said) {
            let changed = perform(rt, register, said, &line[..kept]);
            kept = 0;
            register = changed.register;
            v = register.view();
            lists = register.lists();
            sizes = none();
            at = put_response(out, at, changed.response);
            continue;
        }
        kept = 0;
        let short = asks_short(said);
        sizes = find_if(short, sizes, &v.bytes, v.shown.length, &mut starts);
        let response = answer(v.shown, sizes, &v.bytes, &starts, &lists, said);
        at = put_response(out, at, response);
    }
    finished(register, line, kept, taken, at)
}
