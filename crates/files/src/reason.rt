// Why a file cannot be read, in the system's words.

use std::fmt::Display;
use std::io::{Cursor, Write};
use std::{fmt, io};

// Room for the words of any error, with its number.
const ROOM: usize = 320;

// What stands between the system's words and the number of an error.
const NUMBER: &str = " (os error ";

// An error that is printed without its number.
#[derive(Clone, Copy)]
pub(crate) struct Reason(pub(crate) io::Error);

// The words in `text`, up to its number or its end. An error whose words are no text has none.
fn words(text: &[u8]) -> &str {
    let text = str::from_utf8(text).unwrap_or("");
    match text.split_once(NUMBER) {
        Some((words, _)) => words,
        None => text,
    }
}

impl Display for Reason {
    fn fmt<W: fmt::Write>(&self, f: &mut fmt::Formatter<W>) -> fmt::Result {
        let mut text = Cursor::new([0u8; ROOM]);
        if write!(text, "{}", self.0).is_err() {
            return Err(fmt::Error);
        }
        let end = (text.position() as usize).min(ROOM);
        f.write_str(words(&text.get_ref()[..end]))
    }
}
