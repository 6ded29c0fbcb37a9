// Prints what a register shows of model.tab and bounds.cer in the working folder, or why it refuses them, in one write. A missing file counts as
// empty. The self-test comes before any file and prints nothing; should it fail, nothing is read or printed.
#![tactic(auto)]

fn main(rt: HostRuntime) {
    let filings = report::self_test::file_w();
    if !report::self_test::passed(filings) {
        return;
    }
    let printout = files::report_on(&rt, b"model.tab", b"bounds.cer");
    let length = printout.length;
    // What cannot be written is lost, and ends nothing that goes on.
    let _ = rt.write_all(&printout.bytes[..length]);
}
