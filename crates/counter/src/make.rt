// The model that an accepted counter file makes: each record becomes the rule (u, 0) → v that pushes d symbols 0.

ghost use Rattle.std.specs.Prelude.{◌≡◌, ◌+◌, ◌*◌, ◌≤◌, length};
ghost use Rattle.words.specs.Clauses.{written};
ghost use Rattle.model.specs.Format as model;
ghost use Rattle.counter.specs.Accepted.{MovesRight};
ghost use Rattle.counter.specs.Clauses.{HasMove, record_made, made_bytes, Makes};

use super::format::MOST_RECORDS;
use super::record::{from, moves, shift, to, weight};
use model::format::{PUSHES_BYTE, STATE_BYTE, SYMBOL_BYTE, TARGET_BYTE, TOP_BYTE, UNDER_BYTE};
use words::put_word;

// The bytes of the longest model that is made.
pub(crate) const MADE_BYTES: usize = model::format::RECORD_BYTES * MOST_RECORDS;

// Puts the model record that record i makes in its place.
fn put_rule(file: &[u8], i: usize, out: &mut [u8])
    requires { HasMove file.now i × (model.record_bytes * (i + 1) ≤ length out.old) }
    ensures { out.new ≡ written out.old (model.record_bytes * i) (record_made file.now i) }
{
    let at = model::format::RECORD_BYTES * i;
    out[at + STATE_BYTE] = from(file, i) as u8;
    out[at + SYMBOL_BYTE] = 0;
    out[at + TARGET_BYTE] = to(file, i) as u8;
    out[at + PUSHES_BYTE] = shift(file, i) as u8;
    out[at + TOP_BYTE] = 0;
    out[at + UNDER_BYTE] = 0;
    put_word(out, at + model::format::WEIGHT_BYTE, weight(file, i) as u32);
}

// Makes the model at the start of `out`, and answers how many bytes it has.
pub(crate) fn make(file: &[u8], out: &mut [u8]) -> usize
    requires { MovesRight file.now × (made_bytes ≤ length out.old) }
    ensures { Makes file.now out.new result }
{
    let n = moves(file);
    for i in 0..n {
        put_rule(file, i, out);
    }
    model::format::RECORD_BYTES * n
}
