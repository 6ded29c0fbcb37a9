// The words after the first: a file's name, or numbers. They stand in the rest of the line, which is empty, or a space and the words.

ghost use Rattle.std.specs.Prelude.{◌≡◌, option_map};
ghost use Rattle.spelling.specs.Spelling.{is_file};
ghost use Rattle.spelling.specs.Clauses.{arguments_in, first_number, numbers_of};

use super::{number_of, word_end};

// The most bytes of a file's name.
const MOST_NAME: usize = 255;

// Whether the rest is one word that can name a file.
pub fn is_file(rest: &[u8]) -> bool
    ensures { result ≡ is_file (arguments_in rest.now) }
{
    let Some((_, name)) = rest.split_first() else {
        return false;
    };
    (1..=MOST_NAME).contains(&name.len()) && word_end(name) == name.len()
}

// The number that the first word of a rest is, and the rest after it.
fn next_number(rest: &[u8]) -> Option<(usize, &[u8])>
    ensures { option_map (λ found. (found.0, arguments_in found.1.now)) result
        ≡ first_number (arguments_in rest.now) }
{
    let (_, text) = rest.split_first()?;
    let (word, left) = text.split_at(word_end(text));
    Some((number_of(word)?, left))
}

// The numbers that the words are, where they are N numbers.
pub fn numbers_in<const N: usize>(rest: &[u8]) -> Option<[usize; N]>
    ensures { result ≡ numbers_of N (arguments_in rest.now) }
{
    let mut numbers = [0; N];
    let mut left = rest;
    for number in numbers.iter_mut() {
        (*number, left) = next_number(left)?;
    }
    left.is_empty().then_some(numbers)
}
