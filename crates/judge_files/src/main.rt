// judge_files CARD PACK: judges a pack's file by a card's and writes the report to standard output. Where a file can't be read it says so on
// standard error and writes no report.
#![tactic(auto)]

use console::{CARD, PACK, REPORT, ReportOnFiles, Tool};

fn main(rt: HostRuntime) {
    let mut errors = rt.stderr();
    if !console::is_given(&rt, 2) || console::is_given(&rt, 3) {
        let _ = errors.write_all(b"usage: judge_files CARD PACK\n");
        return;
    }
    let mut card = console::room::<CARD>();
    let Some(n) = console::read_argument(&rt, &mut errors, Tool::Judge, 1, &mut card) else {
        return;
    };
    let mut pack = console::room::<PACK>();
    let Some(m) = console::read_argument(&rt, &mut errors, Tool::Judge, 2, &mut pack) else {
        return;
    };
    let report = ReportOnFiles {
        card: &card[..n],
        pack: &pack[..m],
    };
    let mut room = console::room::<REPORT>();
    console::write_answer(&mut rt.stdout(), &mut errors, &report, &mut room);
}
