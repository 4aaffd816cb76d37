// Prints reports, one for each kind of verdict, to be compared with those worked out by hand.
#![tactic(auto)]

use card::Build;
use checks::{Place, Refusal, Verdict};
use report::TooSmall;
use std::io;
use units::{Quadwords, Slots};

// Prints a report through a buffer that may be longer than it, or too short.
fn print(
    output: &impl Print,
    build: Option<Build>,
    verdict: Verdict,
    out: &mut [u8],
) -> io::Result<()> {
    match report::write_report(build, verdict, out) {
        Ok(n) => output.write_all(&out[..n]),
        Err(TooSmall) => output.print("too small\n"),
    }
}

fn main(rt: HostRuntime) -> io::Result<()> {
    let output = rt.stdout();
    let production = Some(Build::Production);
    let debug = Some(Build::Debug);
    let mut out = [0u8; 128];
    print(&output, production, Ok(()), &mut out)?;
    print(&output, debug, Ok(()), &mut out)?;
    let not_granted = Refusal {
        rule: 15,
        place: Place::Quadword(Quadwords(40)),
        slot: Slots(3),
    };
    print(&output, debug, Err(not_granted), &mut out)?;
    let card_line = Refusal::of_place(1, Place::Line(7));
    print(&output, production, Err(card_line), &mut out)?;
    let no_end = Refusal::of_place(3, Place::Whole);
    print(&output, production, Err(no_end), &mut out)?;
    // The largest numbers, in a buffer that just holds them and in one that lacks a byte.
    let last = 0xffff_ffff_ffff_ffff;
    let largest = Refusal {
        rule: 22,
        place: Place::Quadword(Quadwords(last)),
        slot: Slots(last),
    };
    let mut enough = [0u8; 92];
    print(&output, production, Err(largest), &mut enough)?;
    let mut short = [0u8; 91];
    print(&output, production, Err(largest), &mut short)
}
