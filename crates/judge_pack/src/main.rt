// Reads a card and behind it a pack from standard input, and writes the report on them to standard output. Where it can't be read the program
// says so on standard error and writes no report.
#![tactic(auto)]

use console::{INPUT, REPORT, ReportOn, Tool};

fn main(rt: HostRuntime) {
    let mut errors = rt.stderr();
    let mut bytes = console::room::<INPUT>();
    let read = console::read_input(&mut rt.stdin(), &mut errors, Tool::Judge, &mut bytes);
    let Some(n) = read else {
        return;
    };
    let report = ReportOn(&bytes[..n]);
    let mut room = console::room::<REPORT>();
    console::write_answer(&mut rt.stdout(), &mut errors, &report, &mut room);
}
