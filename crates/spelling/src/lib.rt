// Where words end and what they spell.
#![tactic(auto)]

pub mod arguments; // arguments.rt: the words after the first

ghost use Rattle.std.specs.Prelude.{◌≡◌, ◌+◌, ◌-◌, ◌*◌, ◌^◌, ◌≤◌, ◌<◌, length, true};
ghost use Rattle.spelling.specs.Spelling.{same, is_plain, is_digit};
ghost use Rattle.spelling.specs.Clauses.{word_end, number_as};

// The most bytes of a line that says a call, and of a number.
pub const MOST_BYTES: usize = 300;

const MOST_DIGITS: usize = 9;

// Whether a line is short enough and has no control byte.
pub fn is_plain(line: &[u8]) -> bool
    ensures { result ≡ is_plain line.now }
{
    line.len() <= MOST_BYTES && line.iter().all(|byte| !byte.is_ascii_control())
}

// Where the first word ends: at a space, or at the end of the text.
pub fn word_end(text: &[u8]) -> usize
    ensures { (result ≡ word_end text.now) × (result ≤ length text.now) }
{
    text.iter()
        .position(|byte| *byte == b' ')
        .unwrap_or(text.len())
}

// Whether two words are the same.
pub fn is_word(word: &[u8], name: &[u8]) -> bool
    ensures { result ≡ same word.now name.now }
{
    word == name
}

// The number that digits say with one digit more.
fn with_digit(n: usize, digit: u8) -> usize
    requires { (n < 10 ^ 9) × (is_digit digit ≡ true) }
    ensures { result ≡ n * 10 + (digit - 48) }
{
    n * 10 + usize::from(digit - b'0')
}

// The number that a word is: 1 to 9 decimal digits.
pub fn number_of(word: &[u8]) -> Option<usize>
    ensures { result ≡ number_as word.now }
{
    if !(1..=MOST_DIGITS).contains(&word.len()) {
        return None;
    }
    let mut n = 0;
    for digit in word {
        if !digit.is_ascii_digit() {
            return None;
        }
        n = with_digit(n, *digit);
    }
    Some(n)
}
