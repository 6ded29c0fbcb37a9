// A record as a part of its file.

ghost use Rattle.std.specs.Prelude.{◌≡◌};
ghost use Rattle.parts.specs.Parts.{size_of, is_whole, record_part, next_after, Lying};

// The two kinds of files.
#[derive(Clone, Copy)]
pub enum Kind {
    Model,
    Delivery,
}

// The bytes of a record.
pub fn size_of(kind: Kind) -> usize
    ensures { result ≡ size_of kind }
{
    match kind {
        Kind::Model => model::format::RECORD_BYTES,
        Kind::Delivery => delivery::format::RECORD_BYTES,
    }
}

// Whether record i is whole in the file.
pub fn is_whole(file: &[u8], kind: Kind, i: usize) -> bool
    ensures { result ≡ is_whole kind file.now i }
{
    i < file.len() / size_of(kind)
}

// Record i, or the empty part at the start of the file where it is not whole.
pub fn record_at(file: &[u8], kind: Kind, i: usize) -> &[u8]
    ensures { Lying file.entry.ref_ptr.0 file.entry.ref_ptr.1 file.now (record_part kind file.now i)
        result.ref_ptr.0 result.ref_ptr.1 result.now }
{
    if is_whole(file, kind, i) {
        let size = size_of(kind);
        let start = size * i;
        let end = start + size;
        return &file[start..end];
    }
    &file[..0]
}

// The number of the record after record i, or i where record i is not whole.
pub fn next_after(file: &[u8], kind: Kind, i: usize) -> usize
    ensures { result ≡ next_after kind file.now i }
{
    if is_whole(file, kind, i) { i + 1 } else { i }
}
