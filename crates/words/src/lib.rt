// Numbers in a file: a byte, and four bytes with the low byte first, read and written.
#![tactic(auto)]

ghost use Rattle.std.specs.Prelude.{◌≡◌, ◌+◌, ◌<◌, ◌^◌, length, get_or};
ghost use Rattle.words.specs.Words.{word_at, four_bytes};
ghost use Rattle.words.specs.Clauses.{written};

// The byte at `at`.
pub fn byte(file: &[u8], at: usize) -> usize
    requires { at < length file.now }
    ensures { (result ≡ get_or file.now at 0) × (result < 256) }
{
    usize::from(file[at])
}

// The number in the four bytes from `at` on.
#[tactic(auto, unfolding(crate::specs::Words::word_at))]
pub fn word(file: &[u8], at: usize) -> u64
    requires { at + 3 < length file.now }
    ensures { (result ≡ word_at file.now at) × (result < 2 ^ 32) }
{
    let bytes = [file[at], file[at + 1], file[at + 2], file[at + 3]];
    u64::from(u32::from_le_bytes(bytes))
}

// The number put into the four places from `at` on.
pub fn put_word(out: &mut [u8], at: usize, n: u32)
    requires { at + 3 < length out.old }
    ensures { out.new ≡ written out.old at (four_bytes n) }
{
    out[at..at + 4].copy_from_slice(&n.to_le_bytes());
}
