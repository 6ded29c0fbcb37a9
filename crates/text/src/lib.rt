// Text in a buffer of any length: each function puts its text at `at`, leaves what stands before it, and answers where it ends.
#![tactic(auto)]

ghost use Rattle.std.specs.Prelude.{[], ◌∷◌, ◌++◌, ◌+◌, ◌≤◌, ◌<◌, length};
ghost use Rattle.text.specs.Decimal.{decimal, signed};
ghost use Rattle.text.specs.Clauses.{spaced, Put, fields_room};

// Puts one byte.
pub fn put_byte(out: &mut [u8], at: usize, byte: u8) -> usize
    requires { at < length out.old }
    ensures { Put out.old out.new at result (byte ∷ []) }
{
    out[at] = byte;
    at + 1
}

// Puts bytes.
pub fn put(out: &mut [u8], at: usize, text: &[u8]) -> usize
    requires { at + length text.now ≤ length out.old }
    ensures { Put out.old out.new at result text.now }
{
    let end = at + text.len();
    out[at..end].copy_from_slice(text);
    end
}

// Puts a number in decimal.
pub fn put_number(out: &mut [u8], at: usize, n: u64) -> usize
    requires { at + 20 ≤ length out.old }
    ensures { Put out.old out.new at result (decimal n) × (result ≤ at + 20) }
{
    let mut digits = [0u8; 20];
    let k = io::decimal(n, &mut digits);
    put(out, at, &digits[..k])
}

// Puts a space and a number.
pub fn put_field(out: &mut [u8], at: usize, n: u64) -> usize
    requires { at + 21 ≤ length out.old }
    ensures { Put out.old out.new at result (32 ∷ decimal n) × (result ≤ at + 21) }
{
    let at = put_byte(out, at, b' ');
    put_number(out, at, n)
}

// Puts a space and a signed number.
pub fn put_signed(out: &mut [u8], at: usize, k: i64) -> usize
    requires { at + 22 ≤ length out.old }
    ensures { Put out.old out.new at result (32 ∷ signed k) × (result ≤ at + 22) }
{
    if 0 <= k {
        return put_field(out, at, k.unsigned_abs());
    }
    let at = put_byte(out, at, b' ');
    let at = put_byte(out, at, b'-');
    put_number(out, at, k.unsigned_abs())
}

// Puts a word and numbers, each after a space.
pub fn put_fields(out: &mut [u8], at: usize, word: &[u8], numbers: &[u64]) -> usize
    requires { at + fields_room word.now numbers.now ≤ length out.old }
    ensures put { Put out.old out.new at result (word.now ++ spaced numbers.now) }
    ensures upper_bound { result ≤ at + fields_room word.now numbers.now }
{
    let mut at = put(out, at, word);
    for n in numbers {
        at = put_field(out, at, *n);
    }
    at
}
