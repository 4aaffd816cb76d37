// Why a pack is refused, by value: the judge's verdict, and for rules 9 and 15 the number found and the limit.
//
// The judge is asked first and nothing is judged twice: of a refused pack two control-flow words and two of an instruction are read again.
#![tactic(auto)]

ghost use Rattle.std.specs.Prelude.{◌≡◌};
ghost use Rattle.input.specs.Words.{words_in};
ghost use Rattle.input.specs.Input.{bad_line};
ghost use Rattle.report.specs.Buffer.{written_of, buffer_after};
ghost use Rattle.explain.specs.Explain as define;
ghost use Rattle.explain.specs.Lines.{lines_of_input, lines_of_files};
ghost use Rattle.explain.specs.Truth.{Explains, ExplainsBytes, ExplainsInput, ExplainsFiles};

use card::{BadLine, Card};
use checks::{Explanation, Place, Refusal, Verdict};
use instruction::{InBytes, InWords, Pack};
use report::TooSmall;

mod instruction;

// Explains the verdict on a pack by a card. What it names is true: the second promise says so without the code.
pub fn explain(card: Card, words: &[u32]) -> Explanation
    ensures value { result ≡ define.explanation card words.now }
    ensures explains { Explains card words.now result }
{
    explained(card, &InWords(words), judge::judge(card, words))
}

// The same of a card in bytes. What stands behind its seventh line is not looked at.
pub fn explain_bytes(bytes: &[u8], words: &[u32]) -> Explanation
    ensures value { result ≡ define.explanation_of_bytes bytes.now words.now }
    ensures explains_bytes { ExplainsBytes bytes.now words.now result }
{
    match card::read_card(bytes) {
        Ok((card, _)) => explain(card, words),
        Err(line) => bad_line(line),
    }
}

// The same of a whole input, a card and behind it a pack.
pub fn explain_input(input: &[u8]) -> Explanation
    ensures value { result ≡ define.explanation_of input.now }
    ensures explains_input { ExplainsInput input.now result }
{
    let verdict = input::judge_input(input).verdict;
    match card::read_card(input) {
        Ok((card, taken)) => explained(card, &InBytes(&input[taken..]), verdict),
        Err(_) => plain(verdict),
    }
}

// The same of a card's file and a pack's. (Where card and pack lie is all that the two say, so that one of both would be no shorter.)
pub fn explain_files(text: &[u8], pack: &[u8]) -> Explanation
    ensures value { result ≡ define.explanation_of_files text.now pack.now }
    ensures explains_files { ExplainsFiles text.now pack.now result }
{
    let verdict = input::judge_files(text, pack).verdict;
    match card::read_card(text) {
        Ok((card, _)) => explained(card, &InBytes(pack), verdict),
        Err(_) => plain(verdict),
    }
}

// Explains an input and writes the lines to the start of `out`; where they do not fit, `out` stays as it was.
#[tactic(auto, unfolding(crate::specs::Lines::lines_of_input))]
pub fn write_input_explanation(input: &[u8], out: &mut [u8]) -> Result<usize, TooSmall>
    ensures value { result ≡ written_of (lines_of_input input.now) out.old }
    ensures out_after { out.new ≡ buffer_after (lines_of_input input.now) out.old }
{
    report::write_explanation(explain_input(input), out)
}

// The same for a card's file and a pack's. (Each is one line: a closure in their place would be no plainer.)
#[tactic(auto, unfolding(crate::specs::Lines::lines_of_files))]
pub fn write_files_explanation(text: &[u8], pack: &[u8], out: &mut [u8]) -> Result<usize, TooSmall>
    ensures value { result ≡ written_of (lines_of_files text.now pack.now) out.old }
    ensures out_after { out.new ≡ buffer_after (lines_of_files text.now pack.now) out.old }
{
    report::write_explanation(explain_files(text, pack), out)
}

// A verdict on a pack, by the card.
fn explained<P: Pack>(card: Card, pack: &P, verdict: Verdict) -> Explanation
    ensures { result ≡ define.explained card (P.words pack.now) verdict }
{
    Explanation {
        verdict,
        fault: instruction::fault_of(card, pack, verdict),
    }
}

// A verdict that has no numbers.
fn plain(verdict: Verdict) -> Explanation
    ensures { result ≡ define.plain verdict }
{
    Explanation {
        verdict,
        fault: None,
    }
}

fn bad_line(line: BadLine) -> Explanation
    ensures { result ≡ define.plain (bad_line line.0) }
{
    plain(Err(Refusal::of_place(1, Place::Line(line.0))))
}
