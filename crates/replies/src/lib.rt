// The responses of a desk, and their lines, each put at `at`.
#![tactic(auto)]

ghost use Rattle.std.specs.Prelude.{◌+◌, ◌≤◌, length};
ghost use Rattle.text.specs.Clauses.{Put};
ghost use Rattle.calls.specs.Calls.{value};
ghost use Rattle.replies.specs.Replies.{reply_line};
ghost use Rattle.replies.specs.Clauses.{reply_room, text_of};

use calls::{Answer, Mark, Receipt};
use lines::put_refusal;
use outcome::Outcome;
use text::{put, put_byte, put_field};

// The most bytes of a reply: those of a refusal, its word, two numbers and a signed one, each after a space, and its end.
pub const REPLY_ROOM: usize = 7 + 2 * 21 + 22 + 1;

// What a desk responds to a line: nothing, that it says no call, or what the register answers.
#[derive(Clone, Copy)]
pub enum Response {
    Silence,
    Unclear,
    Cleared,
    Filed(Outcome),
    Received(Receipt),
    Answered(Answer),
}

// The line of a number.
fn put_value(out: &mut [u8], at: usize, n: u64) -> usize
    requires { at + reply_room ≤ length out.old }
    ensures { Put out.old out.new at result (reply_line (value n)) × (result ≤ at + reply_room) }
{
    let at = put(out, at, b"value");
    let at = put_field(out, at, n);
    put_byte(out, at, b'\n')
}

// The line of a response, if it has one.
pub fn put_response(out: &mut [u8], at: usize, response: Response) -> usize
    requires { at + reply_room ≤ length out.old }
    ensures { Put out.old out.new at result (text_of response) × (result ≤ at + reply_room) }
{
    match response {
        Response::Silence => at,
        Response::Unclear => put(out, at, b"unclear\n"),
        Response::Cleared => put(out, at, b"cleared\n"),
        Response::Filed(Ok(())) => put(out, at, b"accepted\n"),
        Response::Received(Ok(Mark::Known)) => put(out, at, b"known\n"),
        Response::Received(Ok(Mark::New)) => put(out, at, b"new\n"),
        Response::Answered(Ok(n)) => put_value(out, at, n),
        Response::Filed(Err(why)) | Response::Received(Err(why)) | Response::Answered(Err(why)) => {
            put_refusal(out, at, why)
        }
    }
}
