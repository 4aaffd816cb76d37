// Lines NAME=value, put one behind the other into a buffer.
ghost use Rattle.std.specs.Prelude.{◌≡◌, ◌+◌, ◌-◌, ◌≤◌, leb, length, Some, None, if◌then◌else◌};
ghost use Rattle.report.specs.Report.{joined};
ghost use Rattle.report.specs.Buffer.{written_of, buffer_after};
ghost use Rattle.report.specs.Code.{Appended, text_line, value_text, text_lines};

use crate::TooSmall;
use crate::decimal::Decimal;

// What stands behind a key.
#[derive(Clone, Copy)]
pub(crate) enum Value {
    Word(&'static str),
    Number(usize),
}

// A key with its equals sign, and what stands behind it.
pub(crate) type Line = (&'static str, Value);

// Writes lines to the start of `out`, and answers how many bytes they have; where they do not fit, `out` stays as it was.
pub(crate) fn write_lines(lines: &[Line], out: &mut [u8]) -> Result<usize, TooSmall>
    ensures value { result ≡ written_of (joined (text_lines lines.now)) out.old }
    ensures out_after { out.new ≡ buffer_after (joined (text_lines lines.now)) out.old }
{
    if !have_room(lines, out.len()) {
        return Err(TooSmall);
    }
    Ok(put_lines(lines, out))
}

// Whether the lines are at most `room` bytes.
fn have_room(lines: &[Line], room: usize) -> bool
    ensures { result ≡ leb (length (joined (text_lines lines.now))) room }
{
    let mut left = room;
    for (key, value) in lines {
        let Some(behind) = room_behind(left, key.as_bytes(), *value) else {
            return false;
        };
        left = behind;
    }
    true
}

// Puts the lines to the start of `out`, and answers where they end.
fn put_lines(lines: &[Line], out: &mut [u8]) -> usize
    requires { length (joined (text_lines lines.now)) ≤ length out.old }
    ensures { Appended 0 (joined (text_lines lines.now)) out.old out.new result }
{
    let mut at = 0;
    for (key, value) in lines {
        at = put_line(out, at, key.as_bytes(), *value);
    }
    at
}

// What is left of `room` behind a line, if that has room there. Its parts are taken off one by one, so that no sum can grow too large.
pub(crate) fn room_behind(room: usize, key: &[u8], value: Value) -> Option<usize>
    ensures { let line = length (text_line key.now (value_text value)) in result ≡ (if leb line room then Some (room - line) else None) }
{
    room.checked_sub(key.len())?
        .checked_sub(length(value))?
        .checked_sub(1)
}

fn length(value: Value) -> usize
    ensures { result ≡ length (value_text value) }
{
    match value {
        Value::Word(word) => word.len(),
        Value::Number(n) => Decimal::of(n).as_bytes().len(),
    }
}

// Puts a line at `at`, and answers where it ends.
pub(crate) fn put_line(out: &mut [u8], at: usize, key: &[u8], value: Value) -> usize
    requires { at + length (text_line key.now (value_text value)) ≤ length out.old }
    ensures { Appended at (text_line key.now (value_text value)) out.old out.new result }
{
    let at_value = put(out, at, key);
    let at_feed = put_value(out, at_value, value);
    put(out, at_feed, b"\n")
}

fn put_value(out: &mut [u8], at: usize, value: Value) -> usize
    requires { at + length (value_text value) ≤ length out.old }
    ensures { Appended at (value_text value) out.old out.new result }
{
    match value {
        Value::Word(word) => put(out, at, word.as_bytes()),
        Value::Number(n) => put(out, at, Decimal::of(n).as_bytes()),
    }
}

// Puts `bytes` into `out` from `at` on, and answers where they end. `out` and `at` stay two parameters: each contract of a struct that held the
// lent buffer would have to say besides what becomes of the loan.
fn put(out: &mut [u8], at: usize, bytes: &[u8]) -> usize
    requires { at + length bytes.now ≤ length out.old }
    ensures { Appended at bytes.now out.old out.new result }
{
    let end = at + bytes.len();
    out[at..end].copy_from_slice(bytes);
    end
}
