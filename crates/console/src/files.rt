// Standard input, and files by the arguments that name them. What can't be read is told on standard error, and never taken for the end of a file.
ghost use Rattle.std.specs.Prelude.{◌≡◌, ◌<◌, ◌≤◌, Some, None, IfOk, IfSome, OnErr, MatchResult, length, take};
ghost use Rattle.std.specs.Counts.{IsPrefixLen};
ghost use Rattle.std.specs.Io.KnownBytes.{Consumes, IsAtEnd};
ghost use Rattle.console.specs.Tools.{tool_name};
ghost use Rattle.console.specs.Files.{GaveSome, ReadFrom, IsSilent};

use std::env::FillError;
use std::fmt::InlineText;
use std::io::{Error, ErrorKind, Read, Write};
use std::rt::{Env, Files};
use std::{fmt, fs, io, str};

// The program that reads, as its messages name it.
#[derive(Clone, Copy)]
pub enum Tool {
    Judge,
    Explain,
    Fetch,
}

impl fmt::Display for Tool {
    ghost output = { λ tool. Some (tool_name tool) };

    fn fmt<W: fmt::Write>(&self, f: &mut fmt::Formatter<W>) -> fmt::Result {
        f.write_str(match self {
            Tool::Judge => "judge",
            Tool::Explain => "explain",
            Tool::Fetch => "fetch",
        })
    }
}

// Reads standard input until it ends or the room is full, and answers how many bytes then stand in the room. What fails is told. A count and not
// the part of the room: `ReadFrom` says what the room holds after a failure, too, which no clause can of a slice that is lent on.
pub fn read_input<R: Read, E: Write>(
    input: &mut R,
    errors: &mut E,
    tool: Tool,
    room: &mut [u8],
) -> Option<usize>
    ensures within { IfSome result (λ n. IsPrefixLen n room.new) }
    ensures bytes { ReadFrom (R.remaining input.old) (R.remaining input.new) result room.new }
    ensures silent { IsSilent result (E.contents errors.old) (E.contents errors.new) }
{
    let read = read_all(input, room);
    or_told(errors, tool, b"standard input", read)
}

// Reads the file that argument i names, until it ends or the room is full, and answers how many bytes then stand in the room. What fails is told.
pub fn read_argument<E: Write>(
    rt: &(impl Env + Files),
    errors: &mut E,
    tool: Tool,
    i: usize,
    room: &mut [u8],
) -> Option<usize>
    ensures within { IfSome result (λ n. IsPrefixLen n room.new) }
    ensures silent { IsSilent result (E.contents errors.old) (E.contents errors.new) }
{
    let mut path = [0u8; 4096];
    let name = rt.arg(i, &mut path).map_err(reason_of);
    let n = or_told(errors, tool, b"an argument", name)?;
    let read = read_file(rt, &path[..n], room);
    or_told(errors, tool, &path[..n], read)
}

// Whether there is an argument i. Argument 0 is the program's name. Which there are is for the system to say: std promises nothing of it that a clause
// here could rest on.
pub fn is_given(rt: &impl Env, i: usize) -> bool {
    !matches!(rt.arg(i, &mut []), Err(FillError::NotPresent))
}

// A name that is not UTF-8 can't be opened.
fn read_file(files: &impl Files, path: &[u8], room: &mut [u8]) -> io::Result<usize>
    ensures { IfOk result (λ n. n ≤ length room.new) }
{
    let Ok(path) = str::from_utf8(path) else {
        return Err(Error::new(ErrorKind::InvalidFilename, "not UTF-8"));
    };
    let mut file = fs::open(files, path)?;
    read_all(&mut file, room)
}

// Reads until the file ends or the room is full, and answers how many bytes stand in the room. A turn reads as many as the file gives, so the
// count is the file's to move, and no iterator's.
pub fn read_all<R: Read>(file: &mut R, room: &mut [u8]) -> io::Result<usize>
    ensures within { IfOk result (λ n. n ≤ length room.new) }
    ensures bytes { IfOk result (λ n. Consumes (R.remaining file.old) (R.remaining file.new) (take n room.new)) }
    ensures end { IfOk result (λ n. n < length room.new → IsAtEnd (R.remaining file.new)) }
    ensures err { OnErr result (GaveSome (R.remaining file.old) (R.remaining file.new) room.new) }
{
    let mut done = 0;
    while done < room.len() {
        let more = file.read(&mut room[done..])?;
        if more == 0 {
            break;
        }
        done += more;
    }
    Ok(done)
}

// Why an argument is not had, as the system would name it. Both types are std's, so that no From can stand here.
fn reason_of(error: FillError) -> Error {
    match error {
        FillError::NotPresent => Error::from_raw_os_error(EINVAL),
        FillError::TooLong => Error::from_raw_os_error(ENAMETOOLONG),
    }
}

// The system's numbers.
const EINVAL: i32 = 22;

const ENAMETOOLONG: i32 = 36;

// How many bytes were read; what failed is told, and gives none.
fn or_told<E: Write>(
    errors: &mut E,
    tool: Tool,
    what: &[u8],
    read: io::Result<usize>,
) -> Option<usize>
    ensures value { MatchResult read (λ n. result ≡ Some n) (λ _. result ≡ None) }
    ensures silent { IsSilent result (E.contents errors.old) (E.contents errors.new) }
{
    match read {
        Ok(n) => Some(n),
        Err(reason) => {
            tell(errors, tool, what, reason);
            None
        }
    }
}

// Writes a line to standard error: what failed, and the system's reason. What of it can't be written is lost, and the rest is written all the same:
// a macro for the line would end at its first part that fails.
pub(crate) fn tell(errors: &mut impl Write, tool: Tool, what: &[u8], reason: Error) {
    let text = InlineText::<120>::of(reason);
    let _ = write!(errors, "{tool}");
    say(errors, b": ");
    say(errors, what);
    say(errors, b": ");
    say(errors, without_number(text.as_str()).as_bytes());
    say(errors, b"\n");
}

fn say(errors: &mut impl Write, text: &[u8]) {
    let _ = errors.write_all(text);
}

// The system's own words: std puts its number of the error behind them.
fn without_number(reason: &str) -> &str {
    match reason.split_once(" (os error ") {
        Some((words, _)) => words,
        None => reason,
    }
}
