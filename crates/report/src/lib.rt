// The judge's report, an explanation of its verdict, and settings: lines NAME=value as bytes in a lent buffer. Where they do not fit, the
// buffer stays as it was.
#![tactic(auto)]

mod decimal;
mod explanation;
mod lines;
mod settings;

ghost use Rattle.std.specs.Prelude.{◌≡◌};
ghost use Rattle.report.specs.Report.{shown_build, build_text, released, yes_or_no, report_bytes};
ghost use Rattle.report.specs.Buffer.{written_of, buffer_after};

use card::Build;
use checks::Verdict;
pub use explanation::write_explanation;
use lines::Value::{Number, Word};
use lines::write_lines;
pub use settings::write_settings;

// The buffer is too small for what was to be written.
#[derive(Clone, Copy, Debug, PartialEq, Eq)]
pub struct TooSmall;

// Writes the report to the start of `out`, and answers how many bytes it has; where it does not fit, `out` stays as it was. The build is
// what is known of the card's build line.
pub fn write_report(
    build: Option<Build>,
    verdict: Verdict,
    out: &mut [u8],
) -> Result<usize, TooSmall>
    ensures value { result ≡ written_of (report_bytes build verdict) out.old }
    ensures out_after { out.new ≡ buffer_after (report_bytes build verdict) out.old }
{
    let lines = [
        ("build=", Word(build_word(shown_build(build, verdict)))),
        ("verdict=", Number(checks::verdict_number(verdict) as usize)),
        ("place=", Number(checks::verdict_place(verdict))),
        ("slot=", Number(checks::verdict_slot(verdict))),
        ("release=", Word(yes_or_no(is_released(build, verdict)))),
    ];
    write_lines(&lines, out)
}

// A card with a line at fault has no build to go by.
fn shown_build(build: Option<Build>, verdict: Verdict) -> Option<Build>
    ensures { result ≡ shown_build build verdict }
{
    if checks::verdict_number(verdict) == 1 {
        None
    } else {
        build
    }
}

fn build_word(build: Option<Build>) -> &'static str
    ensures { result.now ≡ build_text build }
{
    match build {
        Some(build) => build.word(),
        None => "unknown",
    }
}

fn yes_or_no(yes: bool) -> &'static str
    ensures { result.now ≡ yes_or_no yes }
{
    if yes { "yes" } else { "no" }
}

// Whether the report says release=yes.
pub fn is_released(build: Option<Build>, verdict: Verdict) -> bool
    ensures { result ≡ released build verdict }
{
    match build {
        Some(Build::Production) => verdict.is_ok(),
        Some(Build::Debug) => false,
        None => false,
    }
}
