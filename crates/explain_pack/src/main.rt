// Reads a card and behind it a pack from standard input, and writes why the pack is refused to standard output. Where it can't be read
// the program says so on standard error and writes nothing else.
#![tactic(auto)]

use console::{EXPLANATION, ExplanationOf, INPUT, Tool};

fn main(rt: HostRuntime) {
    let mut errors = rt.stderr();
    let mut bytes = console::room::<INPUT>();
    let read = console::read_input(&mut rt.stdin(), &mut errors, Tool::Explain, &mut bytes);
    let Some(n) = read else {
        return;
    };
    let explanation = ExplanationOf(&bytes[..n]);
    let mut room = console::room::<EXPLANATION>();
    console::write_answer(&mut rt.stdout(), &mut errors, &explanation, &mut room);
}
