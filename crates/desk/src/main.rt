// The desk: calls come in as lines on standard input, replies go out as lines on standard output. The replies to all lines that one read brought
// are written together, before the next read. The self-test comes before anything else; should it fail, nothing is read or replied.
#![tactic(auto)]

ghost use Rattle.std.specs.Prelude.{◌≡◌, ◌*◌, ◌≤◌, length};
ghost use Rattle.replies.specs.Clauses.{reply_room};
ghost use Rattle.desk.specs.Clauses.{room_bytes, TookAll, Replied, RepliedSome};

use service::{Desk, Served, opened, serve};
use std::io::Read;
use std::rt::Files;

// The most bytes that are read at once, and room for the replies to as many lines.
const PIECE: usize = 16_384;

const ROOM: usize = PIECE * replies::REPLY_ROOM;

// What follows a turn: another one, the end of the input, or nothing, since reading or writing failed.
#[derive(Clone, Copy)]
enum Next {
    Turn,
    End,
    Stop,
}

// What a turn leaves.
#[derive(Clone, Copy)]
struct Turn {
    desk: Desk,
    next: Next,
}

// An empty buffer for replies.
fn blank() -> [u8; ROOM]
    ensures { length result ≡ room_bytes }
{
    [0u8; ROOM]
}

// Says why the desk stops, on standard error. Where that fails, nobody could be told.
fn complain(rt: &impl Eprint, why: &str) {
    let _ = eprintln!(rt; "{why}");
}

// Writes replies, or says that this failed.
fn write_replies(rt: &(impl Print + Eprint), replies: &[u8]) -> bool {
    let is_written = rt.write_all(replies).is_ok();
    if !is_written {
        complain(rt, "desk: output not written");
    }
    is_written
}

// Serves a whole piece: there is room for the replies to all its lines.
fn serve_all(rt: &(impl Files + Eprint), desk: Desk, piece: &[u8], out: &mut [u8]) -> Served
    requires { length piece.now * reply_room ≤ length out.old }
    ensures { TookAll desk piece.now out.new result }
{
    serve(rt, desk, piece, out)
}

// Serves a piece and writes the replies.
fn reply_to(rt: &(impl Files + Print + Eprint), desk: Desk, piece: &[u8], out: &mut [u8]) -> Turn
    requires { length piece.now * reply_room ≤ length out.old }
    ensures { Replied desk piece.now result }
{
    let served = serve_all(rt, desk, piece, out);
    let is_written = write_replies(rt, &out[..served.printed]);
    Turn {
        desk: served.desk,
        next: if is_written { Next::Turn } else { Next::Stop },
    }
}

// Reads once and replies to the lines that this brought.
fn take_turn(
    rt: &(impl Files + Print + Eprint),
    input: &mut impl Read,
    desk: Desk,
    out: &mut [u8],
) -> Turn
    requires { room_bytes ≤ length out.old }
    ensures { RepliedSome desk result }
{
    let mut piece = [0u8; PIECE];
    match input.read(&mut piece) {
        Ok(0) => Turn {
            desk,
            next: Next::End,
        },
        Ok(n) => reply_to(rt, desk, &piece[..n], out),
        Err(_) => {
            complain(rt, "desk: input not read");
            Turn {
                desk,
                next: Next::Stop,
            }
        }
    }
}

// Takes turns to the end of the input, where the last line may lack its end. A proved loop has to end, so there are as many turns
// as no input uses up.
fn attend(rt: &(impl Files + Print + Eprint), input: &mut impl Read, out: &mut [u8])
    requires { room_bytes ≤ length out.old }
{
    let mut desk = opened();
    for _ in 0..u64::MAX {
        let turn = take_turn(rt, input, desk, out);
        desk = turn.desk;
        match turn.next {
            Next::Turn => {}
            Next::End => {
                reply_to(rt, desk, b"\n", out);
                return;
            }
            Next::Stop => return,
        }
    }
}

fn main(rt: HostRuntime) {
    let filings = report::self_test::file_w();
    if !report::self_test::passed(filings) {
        complain(&rt, "desk: the self-test failed");
        return;
    }
    let mut out = blank();
    attend(&rt, &mut rt.stdin(), &mut out);
}
