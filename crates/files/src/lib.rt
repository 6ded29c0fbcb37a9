// Files by name, for the programs. What cannot be read counts as empty, and is told on standard error unless it is missing.
#![tactic(auto)]

mod kind; // kind.rt: which kind of file a name stands for
mod reason; // reason.rt: why a file cannot be read

ghost use Rattle.std.specs.Prelude.{◌≤◌, ◌+◌, length, IfOk};
ghost use Rattle.io.specs.Counts.{IsPrefixLen};
ghost use Rattle.files.specs.Read.{ReportOnSome};

use reason::Reason;
use report::Printout;
use std::fmt::Display;
use std::io::{ErrorKind, Read};
use std::rt::Files;
use std::{fs, io};

// One read into `out` from a place on: how many bytes came.
fn read_on(file: &mut impl Read, out: &mut [u8], done: usize) -> io::Result<usize>
    requires { done ≤ length out.old }
    ensures { IfOk result (λ more. done + more ≤ length out.new) }
{
    file.read(&mut out[done..])
}

// Tells on standard error of a file that is not read. Where that fails, nobody could be told.
fn tell(rt: &impl Eprint, path: &str, why: impl Display + Drop) {
    let _ = eprintln!(rt; "{path}: {why}");
}

// Reads on until `out` is full or the file ends, by as many bytes as each read brings, and answers how many. Where a
// read fails, standard error says why, and nothing counts that was read before.
fn fill(rt: &impl Eprint, path: &str, file: &mut impl Read, out: &mut [u8]) -> usize
    ensures { IsPrefixLen result out.new }
{
    let mut done = 0;
    while done < out.len() {
        match read_on(file, out, done) {
            Ok(0) => return done,
            Ok(more) => done += more,
            Err(error) => {
                tell(rt, path, Reason(error));
                return 0;
            }
        }
    }
    done
}

// Tells on standard error why a file was not opened, unless there is none.
fn warn_unless_missing(rt: &impl Eprint, path: &str, error: io::Error) {
    match error.kind() {
        ErrorKind::NotFound => {}
        ErrorKind::NotADirectory => {}
        _ => tell(rt, path, Reason(error)),
    }
}

// Reads the start of a file whose name is text into `out`, as `read` does.
fn read_named(rt: &(impl Files + Eprint), path: &str, out: &mut [u8]) -> usize
    ensures { IsPrefixLen result out.new }
{
    if kind::is_pipe(rt, path) {
        tell(rt, path, "a pipe, not opened");
        return 0;
    }
    match fs::open(rt, path) {
        Ok(mut file) => fill(rt, path, &mut file, out),
        Err(error) => {
            warn_unless_missing(rt, path, error);
            0
        }
    }
}

// Reads the start of a file into `out`, as much as it holds, and answers how many bytes. A file that is missing counts as empty, in silence. So
// does one that cannot be opened or read whole, a named pipe, which is not opened since that could wait for ever, and a name that is no text in
// UTF-8, which names no file that can be opened, each with a line on standard error.
pub fn read(rt: &(impl Files + Eprint), path: &[u8], out: &mut [u8]) -> usize
    ensures { IsPrefixLen result out.new }
{
    match str::from_utf8(path) {
        Ok(path) => read_named(rt, path, out),
        Err(_) => {
            let _ = eprintln!(rt;
                "{}: a name that is not UTF-8, not opened",
                path.escape_ascii()
            );
            0
        }
    }
}

// The report on a model file and a delivery file. One byte more than any accepted file has is read, so that a longer file is refused by its number.
pub fn report_on(rt: &(impl Files + Eprint), model_path: &[u8], delivery_path: &[u8]) -> Printout
    ensures { ReportOnSome result }
{
    let mut model = [0u8; model::format::MOST_BYTES + 1];
    let m = read(rt, model_path, &mut model);
    let mut delivery = [0u8; delivery::format::MOST_BYTES + 1];
    let d = read(rt, delivery_path, &mut delivery);
    report::of_files(&model[..m], &delivery[..d])
}
