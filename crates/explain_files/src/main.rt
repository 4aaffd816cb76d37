// explain_files CARD PACK: writes why the pack's file is refused by the card's to standard output. Where a file can't be read it says so
// on standard error and writes nothing else.
#![tactic(auto)]

use console::{CARD, EXPLANATION, ExplanationOfFiles, PACK, Tool};

fn main(rt: HostRuntime) {
    let mut errors = rt.stderr();
    if !console::is_given(&rt, 2) || console::is_given(&rt, 3) {
        let _ = errors.write_all(b"usage: explain_files CARD PACK\n");
        return;
    }
    let mut card = console::room::<CARD>();
    let Some(n) = console::read_argument(&rt, &mut errors, Tool::Explain, 1, &mut card) else {
        return;
    };
    let mut pack = console::room::<PACK>();
    let Some(m) = console::read_argument(&rt, &mut errors, Tool::Explain, 2, &mut pack) else {
        return;
    };
    let explanation = ExplanationOfFiles {
        card: &card[..n],
        pack: &pack[..m],
    };
    let mut room = console::room::<EXPLANATION>();
    console::write_answer(&mut rt.stdout(), &mut errors, &explanation, &mut room);
}
