// A walker over the records of a file: the file together with the number of the next record. The work is done by the functions of record.rt on
// a slice and a number.

ghost use Rattle.std.specs.Prelude.{◌≡◌};
ghost use Rattle.parts.specs.Parts.{record_part, next_after, Lying};

use super::record::{Kind, next_after, record_at};

// A file and the number of its next record.
#[derive(Clone, Copy)]
pub struct Walker<'a> {
    pub file: &'a [u8],
    pub next: usize,
}

// A walker at the first record.
pub fn walk<'a>(file: &'a [u8]) -> Walker<'a>
    ensures { (result.file ≡ file.entry) × (result.next ≡ 0) }
{
    Walker { file, next: 0 }
}

// The record that is next, or the empty part at the start of the file where there is none.
pub fn current<'a>(w: Walker<'a>, kind: Kind) -> &'a [u8]
    ensures { Lying w.entry.file.ref_ptr.0 w.entry.file.ref_ptr.1 w.entry.file.now
        (record_part kind w.entry.file.now w.entry.next)
        result.ref_ptr.0 result.ref_ptr.1 result.now }
{
    record_at(w.file, kind, w.next)
}

// The walker one record further; at the end it stays.
pub fn moved<'a>(w: Walker<'a>, kind: Kind) -> Walker<'a>
    ensures { (result.file ≡ w.entry.file) × (result.next ≡ next_after kind w.entry.file.now w.entry.next) }
{
    Walker {
        file: w.file,
        next: next_after(w.file, kind, w.next),
    }
}

// The first record of a file, for callers that hold no walker.
pub fn first_record<'a>(file: &'a [u8], kind: Kind) -> &'a [u8]
    ensures { Lying file.entry.ref_ptr.0 file.entry.ref_ptr.1 file.now (record_part kind file.now 0)
        result.ref_ptr.0 result.ref_ptr.1 result.now }
{
    current(walk(file), kind)
}
