// A card and a pack as bytes, one behind the other or each by itself, and the answer to them.
//
// The pack's words are read off the bytes once, into room of this crate's own, and judged there: a caller lends nothing but the
// buffer for the report.
#![tactic(auto)]

ghost use Rattle.std.specs.Prelude.{◌≡◌, ◌++◌, ℕ, ◌/◌, ◌≤◌, length, take};
ghost use Rattle.card.specs.Made.{test_of, InRange};
ghost use Rattle.report.specs.Buffer.{Length, written_of, buffer_after};
ghost use Rattle.checks.specs.Verdict.{refusal};
ghost use Rattle.judge.specs.Judge.{judgement};
ghost use Rattle.input.specs.Words.{words_in};
ghost use Rattle.input.specs.Input.{right_length, pack_verdict, judged_by, without_card, judged_of, judged_of_files, AllLines, report_on, report_of, report_of_files};
ghost use Rattle.input.specs.Released.{ReleaseTold, FilesTold};
ghost use Rattle.checks.specs.declared.Place.TheVariants.{Line};

mod words;

use card::{BadLine, Build, Card};
use checks::{Place, Refusal, Verdict};
use report::TooSmall;
use units::Quadwords;
pub use words::{load, store, word_of};

// What the report is made of: the card's build, where the card was read, and the verdict.
#[derive(Clone, Copy, Debug, PartialEq, Eq)]
pub struct Judged {
    pub build: Option<Build>,
    pub verdict: Verdict,
}

impl Judged {
    // Writes the report to the start of `out`; where it does not fit, `out` stays as it was.
    fn report(self, out: &mut [u8]) -> Result<usize, TooSmall>
        ensures value { result ≡ written_of (report_on self) out.old }
        ensures out_after { out.new ≡ buffer_after (report_on self) out.old }
    {
        report::write_report(self.build, self.verdict, out)
    }
}

// Judges an input.
pub fn judge_input(input: &[u8]) -> Judged
    ensures { result ≡ judged_of input.now }
{
    match card::read_card(input) {
        Ok((card, taken)) => judged_by(card, &input[taken..]),
        Err(line) => without_card(line),
    }
}

// Judges a card's file and a pack's. Bytes behind the card's last line are refused as a line more; for a file of all its lines and
// nothing else the answer is that to the two files one behind the other. (One match for both functions would have to ask which it is.)
pub fn judge_files(text: &[u8], pack: &[u8]) -> Judged
    ensures value { result ≡ judged_of_files text.now pack.now }
    ensures value_2 { AllLines text.now → result ≡ judged_of (text.now ++ pack.now) }
{
    match card::read_card(text) {
        Ok((card, taken)) if taken == text.len() => judged_by(card, pack),
        Ok(_) => without_card(BadLine(card::LINES + 1)),
        Err(line) => without_card(line),
    }
}

// Judges an input and writes the report to the start of `out`; where it does not fit, `out` stays as it was. The bytes written say
// release=yes exactly if the input is a production card and a pack that the judge accepts, and then every walk of the pack is safe.
pub fn report_input(input: &[u8], out: &mut [u8]) -> Result<usize, TooSmall>
    ensures value { result ≡ written_of (report_of input.now) out.old }
    ensures out_after { out.new ≡ buffer_after (report_of input.now) out.old }
    ensures by_index { (n : ℕ) → result ≡ Length n → ReleaseTold input.now (take n out.new) }
{
    judge_input(input).report(out)
}

// Judges a card's file and a pack's and writes the report to the start of `out`; where it does not fit, `out` stays as it was. The bytes
// written say release=yes exactly if the one file is a production card and the other a pack that the judge accepts, and then every walk
// of the pack is safe.
pub fn report_files(text: &[u8], pack: &[u8], out: &mut [u8]) -> Result<usize, TooSmall>
    ensures value { result ≡ written_of (report_of_files text.now pack.now) out.old }
    ensures out_after { out.new ≡ buffer_after (report_of_files text.now pack.now) out.old }
    ensures by_index { (n : ℕ) → result ≡ Length n → FilesTold text.now pack.now (take n out.new) }
    ensures pack_value { AllLines text.now → report_of_files text.now pack.now ≡ report_of (text.now ++ pack.now) }
{
    judge_files(text, pack).report(out)
}

// The verdict on a pack in bytes. The card may have any figures: a line out of range is told before the pack's length.
pub fn verdict_on(card: Card, pack: &[u8]) -> Verdict
    ensures { result ≡ pack_verdict card pack.now }
{
    match card::check_card(card) {
        Ok(()) => verdict_in_range(card, pack),
        Err(line) => Err(bad_line(line)),
    }
}

// The same by a card whose figures are in range, as those of a card that was read are.
fn verdict_in_range(card: Card, pack: &[u8]) -> Verdict
    requires { test_of card ≡ InRange }
    ensures { result ≡ pack_verdict card pack.now }
{
    if !is_right_length(card.quads, pack.len()) {
        return Err(Refusal::of_place(2, Place::Whole));
    }
    judge_words(card, pack)
}

// What is answered by a card that was read, whose figures are in range.
fn judged_by(card: Card, pack: &[u8]) -> Judged
    requires { test_of card ≡ InRange }
    ensures { result ≡ judged_by card pack.now }
{
    Judged {
        build: Some(card.build),
        verdict: verdict_in_range(card, pack),
    }
}

fn without_card(line: BadLine) -> Judged
    ensures { result ≡ without_card line.0 }
{
    Judged {
        build: None,
        verdict: Err(bad_line(line)),
    }
}

// Rule 1. No From can stand here, as both types are other crates'.
fn bad_line(line: BadLine) -> Refusal
    ensures { result ≡ refusal 1 (Line line.0) 0 }
{
    Refusal::of_place(1, Place::Line(line.0))
}

// By division, since 8 times any quads may be more than a number holds.
fn is_right_length(quads: Quadwords, bytes: usize) -> bool
    ensures { result ≡ right_length quads bytes }
{
    bytes % 8 == 0 && bytes / 8 == quads.0
}

// Most packs are short, and to clear room for a long one would cost more than to judge them.
fn judge_words(card: Card, pack: &[u8]) -> Verdict
    requires { length pack.now / 4 ≤ 16384 }
    ensures { result ≡ judgement card (words_in pack.now) }
{
    match pack.len() / 4 {
        0..=128 => judge_in::<128>(card, pack),
        129..=1024 => judge_in::<1024>(card, pack),
        _ => judge_in::<16384>(card, pack),
    }
}

// In room for so many words.
fn judge_in<const ROOM: usize>(card: Card, pack: &[u8]) -> Verdict
    requires few { length pack.now / 4 ≤ ROOM }
    requires room { ROOM ≤ 16384 }
    ensures { result ≡ judgement card (words_in pack.now) }
{
    let mut room = [0u32; ROOM];
    let n = words::load(pack, &mut room);
    judge::judge(card, &room[..n])
}
