// Runs the stored cases: for each number, the report on the files NNN.tab and NNN.cer of the working folder.
#![tactic(auto)]

use std::rt::Files;

// How many cases are stored.
const CASES: u32 = 77;

// The last digit of n, in ASCII. (A name that needs no memory is made of its bytes.)
fn digit(n: u32) -> u8 {
    48 + (n % 10) as u8
}

// Prints the report on the files of a case, below its heading. What cannot be written is lost.
fn run_case(rt: &(impl Files + Print + Eprint), n: u32) {
    let a = digit(n / 100);
    let b = digit(n / 10);
    let c = digit(n);
    let heading = [b'c', b'a', b's', b'e', b' ', a, b, c, b'\n'];
    let _ = rt.write_all(&heading);
    let tab = [a, b, c, b'.', b't', b'a', b'b'];
    let cer = [a, b, c, b'.', b'c', b'e', b'r'];
    let printout = files::report_on(rt, &tab, &cer);
    let length = printout.length;
    let _ = rt.write_all(&printout.bytes[..length]);
}

fn main(rt: HostRuntime) {
    for n in 0..CASES {
        run_case(&rt, n);
    }
}
