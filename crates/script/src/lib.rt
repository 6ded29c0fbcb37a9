// What a register responds to a line of a script.
#![tactic(auto)]

ghost use Rattle.std.specs.Prelude.{◌≡◌};
ghost use Rattle.questions.specs.Clauses.{IfNeeded};
ghost use Rattle.register.specs.Filing.{cleared};
ghost use Rattle.replies.specs.declared.Response.TheVariants.{Silence, Cleared};
ghost use Rattle.said.specs.declared.Change.TheVariants.{Model, Counter, Delivery, Merge};
ghost use Rattle.script.specs.Script.{change_reads, reads_file};
ghost use Rattle.script.specs.Clauses.{may_change, asks_short, answered_from, responded, filed_as, received_as, change_made, changed_by};

use model::format::{MOST_BYTES, MOST_ENTRIES};
use model::sizes::Sizes;
use questions::{LISTS, Shown};
use register::{Filed, Received, Register};
use replies::Response;
use rows::STARTS;
use said::{Change, Said};

// The register after a line, and the response.
#[derive(Clone, Copy)]
pub struct Responded {
    pub register: Register,
    pub response: Response,
}

// Whether a line may change the register.
pub fn may_change(said: Said) -> bool
    ensures { result ≡ may_change said }
{
    matches!(said, Said::Change(_))
}

// Whether the file of a change is read, by whether a model and a delivery are held: the register's own reasons come first.
fn change_reads(model: bool, delivery: bool, change: Change) -> bool
    ensures { result ≡ change_reads model delivery change }
{
    match change {
        Change::Clear => false,
        Change::Model => !model,
        Change::Counter => !model,
        Change::Delivery => model,
        Change::Merge => model && delivery,
    }
}

// Whether a line's file is read.
pub fn reads_file(model: bool, delivery: bool, said: Said) -> bool
    ensures { result ≡ reads_file model delivery said }
{
    match said {
        Said::Change(change) => change_reads(model, delivery, change),
        _ => false,
    }
}

// Whether a line asks for a short run, so that it needs the index of the model's bytes.
pub fn asks_short(said: Said) -> bool
    ensures { result ≡ asks_short said }
{
    match said {
        Said::Question(question) => questions::is_short(question),
        _ => false,
    }
}

// The response to a line that changes nothing, from what is held, the model's bytes with their index, and the lists of numbers.
pub fn answer<'a>(
    held: Shown,
    sizes: Sizes,
    bytes: &'a [u8; MOST_BYTES],
    starts: &'a [u16; STARTS],
    lists: &'a [[u32; MOST_ENTRIES]; LISTS],
    said: Said,
) -> Response
    requires { IfNeeded (asks_short said) held.length sizes bytes.now starts.now }
    ensures { result ≡ answered_from held bytes.now lists.now said }
{
    match said {
        Said::Unclear => Response::Unclear,
        Said::Nothing | Said::Change(_) => Response::Silence,
        Said::Question(question) => {
            Response::Answered(questions::answer(held, sizes, bytes, starts, lists, question))
        }
    }
}

// The filing of a model, by itself or by a counter file.
impl From<Filed> for Responded {
    ghost from_gives = { λ given x. x ≡ filed_as given };

    fn from(given: Filed) -> Responded {
        Responded {
            register: given.register,
            response: Response::Filed(given.outcome),
        }
    }
}

// The filing of a delivery, or a merge.
impl From<Received> for Responded {
    ghost from_gives = { λ given x. x ≡ received_as given };

    fn from(given: Received) -> Responded {
        Responded {
            register: given.register,
            response: Response::Received(given.receipt),
        }
    }
}

// Clears.
fn clear(register: Register) -> Responded
    ensures { result ≡ responded cleared Cleared }
{
    Responded {
        register: register.clear(),
        response: Response::Cleared,
    }
}

// Files a model.
fn file_model(register: Register, file: &[u8]) -> Responded
    ensures { result ≡ change_made register Model file.now }
{
    register.file_model(file).into()
}

// Files a counter file.
fn file_counter(register: Register, file: &[u8]) -> Responded
    ensures { result ≡ change_made register Counter file.now }
{
    counter::filings::file_counter(register, file).into()
}

// Files a delivery.
fn file_delivery(register: Register, file: &[u8]) -> Responded
    ensures { result ≡ change_made register Delivery file.now }
{
    register.file_delivery(file).into()
}

// Merges a delivery with the held one.
fn merge_delivery(register: Register, file: &[u8]) -> Responded
    ensures { result ≡ change_made register Merge file.now }
{
    register.merge_delivery(file).into()
}

// Makes a change, where the file that is named has these bytes. Each has a function of its own, since a function clears room for all that it may hold at its start.
fn make(register: Register, change: Change, file: &[u8]) -> Responded
    ensures { result ≡ change_made register change file.now }
{
    match change {
        Change::Clear => clear(register),
        Change::Model => file_model(register, file),
        Change::Counter => file_counter(register, file),
        Change::Delivery => file_delivery(register, file),
        Change::Merge => merge_delivery(register, file),
    }
}

// What a line that may change the register makes of it, where the file that it names has these bytes.
pub fn change(register: Register, said: Said, file: &[u8]) -> Responded
    ensures { result ≡ changed_by register said file.now }
{
    match said {
        Said::Change(change) => make(register, change, file),
        _ => Responded {
            register,
            response: Response::Silence,
        },
    }
}
