// What the programs answer to what they read, on standard output.
ghost use Rattle.std.specs.Prelude.{◌≡◌, ℕ, List, IsTrue};
ghost use Rattle.std.specs.Io.KnownBytes.{Appends, Keeps};
ghost use Rattle.report.specs.Buffer.{written_of, buffer_after};
ghost use Rattle.input.specs.Input.{report_of, report_of_files};
ghost use Rattle.explain.specs.Lines.{lines_of_input, lines_of_files};
ghost use Rattle.console.specs.Output.{fitting};

use crate::files::{Tool, tell};
use report::TooSmall;
use std::io::Write;

// What is answered: its bytes; and who says, and how, that they could not be written.
pub trait Answer {
    const TOOL: Tool;

    const LOST: &'static str;

    ghost bytes: { Self → List ℕ };

    // Makes them in the lent room; where it is too small for them it stays as it was.
    fn make(&self, room: &mut [u8]) -> Result<usize, TooSmall>
        ensures value { result ≡ written_of (bytes self.now) room.old }
        ensures room_after { room.new ≡ buffer_after (bytes self.now) room.old };
}

// The report on an input.
#[derive(Clone, Copy)]
pub struct ReportOn<'a>(pub &'a [u8]);

// The report on a card's file and a pack's.
#[derive(Clone, Copy)]
pub struct ReportOnFiles<'a> {
    pub card: &'a [u8],
    pub pack: &'a [u8],
}

// The explanation of what is answered to an input.
#[derive(Clone, Copy)]
pub struct ExplanationOf<'a>(pub &'a [u8]);

// And to a card's file and a pack's.
#[derive(Clone, Copy)]
pub struct ExplanationOfFiles<'a> {
    pub card: &'a [u8],
    pub pack: &'a [u8],
}

impl Answer for ReportOn<'_> {
    const TOOL: Tool = Tool::Judge;

    const LOST: &'static str = "the report was not written";

    ghost bytes = { λ it. report_of it.0.now };

    fn make(&self, room: &mut [u8]) -> Result<usize, TooSmall> {
        input::report_input(self.0, room)
    }
}

impl Answer for ReportOnFiles<'_> {
    const TOOL: Tool = Tool::Judge;

    const LOST: &'static str = "the report was not written";

    ghost bytes = { λ it. report_of_files it.card.now it.pack.now };

    fn make(&self, room: &mut [u8]) -> Result<usize, TooSmall> {
        input::report_files(self.card, self.pack, room)
    }
}

impl Answer for ExplanationOf<'_> {
    const TOOL: Tool = Tool::Explain;

    const LOST: &'static str = "the explanation was not written";

    ghost bytes = { λ it. lines_of_input it.0.now };

    fn make(&self, room: &mut [u8]) -> Result<usize, TooSmall> {
        explain::write_input_explanation(self.0, room)
    }
}

impl Answer for ExplanationOfFiles<'_> {
    const TOOL: Tool = Tool::Explain;

    const LOST: &'static str = "the explanation was not written";

    ghost bytes = { λ it. lines_of_files it.card.now it.pack.now };

    fn make(&self, room: &mut [u8]) -> Result<usize, TooSmall> {
        explain::write_files_explanation(self.card, self.pack, room)
    }
}

// Writes an answer, made in the lent room; nothing where the room is too small. Answers false where it could not be written, which is
// told then.
pub fn write_answer<A: Answer, O: Write, E: Write>(
    output: &mut O,
    errors: &mut E,
    answer: &A,
    room: &mut [u8],
) -> bool
    ensures made { room.new ≡ buffer_after (A.bytes answer.now) room.old }
    ensures written { IsTrue result → Appends (O.contents output.old) (O.contents output.new) (fitting (A.bytes answer.now) room.old) }
    ensures silent { IsTrue result → Keeps (E.contents errors.old) (E.contents errors.new) }
{
    let Ok(n) = answer.make(room) else {
        return true;
    };
    match output.write_all(&room[..n]) {
        Ok(()) => true,
        Err(reason) => {
            tell(errors, A::TOOL, A::LOST.as_bytes(), reason);
            false
        }
    }
}
