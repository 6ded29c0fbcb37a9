// What a line of a script says: a call, no call, or nothing that wants a reply.
#![tactic(auto)]

ghost use Rattle.std.specs.Prelude.{◌≡◌, ℕ};
ghost use Rattle.spelling.specs.Clauses.{arguments_in};
ghost use Rattle.calls.specs.declared.Question.{Question};
ghost use Rattle.said.specs.Said.{said_by, is_silent, by_word, alone, on_file, on_row, on_entry, on_steps};

use calls::Question;
use spelling::arguments::{is_file, numbers_in};
use spelling::{is_plain, is_word, word_end};

// A call that may change the register. The file that a filing or a merge names is the second word of its line.
#[derive(Clone, Copy)]
pub enum Change {
    Clear,
    Model,
    Counter,
    Delivery,
    Merge,
}

// What a line says: nothing that wants a reply, no call, or a call.
#[derive(Clone, Copy)]
pub enum Said {
    Nothing,
    Unclear,
    Change(Change),
    Question(Question),
}

// Whether a line gets no reply: it is empty, or starts with `#`.
fn is_silent(line: &[u8]) -> bool
    ensures { result ≡ is_silent line.now }
{
    line.first().is_none_or(|byte| *byte == b'#')
}

// A call that is one word.
fn alone(rest: &[u8], call: Said) -> Said
    ensures { result ≡ alone call (arguments_in rest.now) }
{
    if rest.is_empty() { call } else { Said::Unclear }
}

// A call that names a file.
fn on_file(rest: &[u8], call: Said) -> Said
    ensures { result ≡ on_file call (arguments_in rest.now) }
{
    if is_file(rest) { call } else { Said::Unclear }
}

// A question of an entry, by its three numbers.
fn on_entry<F: FnOnce(usize, usize, usize) -> Question>(rest: &[u8], ask: F) -> Said
    requires { F.IsAlwaysCallable ask }
    ensures { (call : ℕ → ℕ → ℕ → Question)
        → ((p z q : ℕ) (a : Question) → F.post ask p z q a → a ≡ call p z q)
        → result ≡ on_entry call (arguments_in rest.now) }
{
    match numbers_in::<3>(rest) {
        Some(numbers) => {
            let [p, z, q] = numbers;
            Said::Question(ask(p, z, q))
        }
        None => Said::Unclear,
    }
}

// The mean steps of a row.
fn steps(rest: &[u8]) -> Said
    ensures { result ≡ on_row Question.MeanSteps (arguments_in rest.now) }
{
    match numbers_in::<2>(rest) {
        Some(numbers) => {
            let [p, z] = numbers;
            Said::Question(Question::MeanSteps { p, z })
        }
        None => Said::Unclear,
    }
}

// The chance of an entry within so many steps.
fn within(rest: &[u8]) -> Said
    ensures { result ≡ on_steps Question.Within (arguments_in rest.now) }
{
    match numbers_in::<4>(rest) {
        Some(numbers) => {
            let [steps, p, z, q] = numbers;
            Said::Question(Question::Within { steps, p, z, q })
        }
        None => Said::Unclear,
    }
}

// The call that a first word and the rest of the line say: the rest is empty, or a space and the other words.
fn by_word(word: &[u8], rest: &[u8]) -> Said
    ensures { result ≡ by_word word.now (arguments_in rest.now) }
{
    // A chain of tests: of a byte string's pattern a proof learns no more than the length.
    if is_word(word, b"clear") {
        alone(rest, Said::Change(Change::Clear))
    } else if is_word(word, b"model") {
        on_file(rest, Said::Change(Change::Model))
    } else if is_word(word, b"counter") {
        on_file(rest, Said::Change(Change::Counter))
    } else if is_word(word, b"delivery") {
        on_file(rest, Said::Change(Change::Delivery))
    } else if is_word(word, b"merge") {
        on_file(rest, Said::Change(Change::Merge))
    } else if is_word(word, b"upper") {
        on_entry(rest, |p, z, q| Question::Upper { p, z, q })
    } else if is_word(word, b"lower") {
        on_entry(rest, |p, z, q| Question::Lower { p, z, q })
    } else if is_word(word, b"steps") {
        steps(rest)
    } else if is_word(word, b"margin") {
        alone(rest, Said::Question(Question::Margin))
    } else if is_word(word, b"live") {
        on_entry(rest, |p, z, q| Question::Live { p, z, q })
    } else if is_word(word, b"within") {
        within(rest)
    } else {
        Said::Unclear
    }
}

// What a line, without its end, says.
pub fn said_by(line: &[u8]) -> Said
    ensures { result ≡ said_by line.now }
{
    if is_silent(line) {
        return Said::Nothing;
    }
    if !is_plain(line) {
        return Said::Unclear;
    }
    let end = word_end(line);
    by_word(&line[..end], &line[end..])
}
