// An explanation's lines: what is at fault, for a reader.
ghost use Rattle.std.specs.Prelude.{◌≡◌, Err};
ghost use Rattle.ascii.specs.Ascii.{ascii};
ghost use Rattle.report.specs.Explanation.{rule_word, found_text, limit_text, explanation_bytes};
ghost use Rattle.report.specs.Buffer.{written_of, buffer_after};
ghost use Rattle.report.specs.Code.{value_text};

use crate::TooSmall;
use crate::lines::Value::{Number, Word};
use crate::lines::{Value, write_lines};
use checks::{Explanation, NotGranted, Refusal};

// Writes the explanation to the start of `out`, and answers how many bytes it has; where it does not fit, `out` stays as it was.
pub fn write_explanation(explanation: Explanation, out: &mut [u8]) -> Result<usize, TooSmall>
    ensures value { result ≡ written_of (explanation_bytes explanation) out.old }
    ensures out_after { out.new ≡ buffer_after (explanation_bytes explanation) out.old }
{
    match explanation.verdict {
        Ok(()) => write_lines(&[("verdict=", Number(0))], out),
        Err(refusal) => write_refusal(refusal, explanation.fault, out),
    }
}

fn write_refusal(
    refusal: Refusal,
    fault: Option<NotGranted>,
    out: &mut [u8],
) -> Result<usize, TooSmall>
    ensures value { result ≡ written_of (explanation_bytes (record { verdict = Err refusal; fault = fault })) out.old }
    ensures out_after { out.new ≡ buffer_after (explanation_bytes (record { verdict = Err refusal; fault = fault })) out.old }
{
    let (found, limit) = numbers_of(fault);
    let lines = [
        ("verdict=", Number(refusal.rule as usize)),
        ("place=", Number(usize::from(refusal.place))),
        ("slot=", Number(refusal.slot.0)),
        ("rule=", Word(rule_word(refusal.rule))),
        ("found=", found),
        ("limit=", limit),
    ];
    write_lines(&lines, out)
}

// What the lines found and limit show.
fn numbers_of(fault: Option<NotGranted>) -> (Value, Value)
    ensures found { value_text result.0 ≡ found_text fault }
    ensures limit { value_text result.1 ≡ limit_text fault }
{
    match fault {
        Some(at) => (Number(at.found), Number(at.limit)),
        None => (Word("-"), Word("-")),
    }
}

// The rule's word. 20 and 21 are the encoder's, and no pack is refused with them.
fn rule_word(rule: u8) -> &'static str
    ensures { result.now ≡ ascii (rule_word rule) }
{
    match rule {
        1 => "card-line",
        2 => "length",
        3 => "no-end",
        4 => "cf-number",
        5 => "cf-field",
        6 => "clause-range",
        7 => "export",
        8 => "fetch-word",
        9 => "fetch-register",
        10 => "group-shape",
        11 => "alu-number",
        12 => "alu-field",
        13 => "alu-unit",
        14 => "alu-issue",
        15 => "not-granted",
        16 => "stack-frames",
        17 => "stack-left",
        18 => "target",
        19 => "stacks-differ",
        22 => "clause-layout",
        _ => "unknown",
    }
}
