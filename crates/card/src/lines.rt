// A line key=value at the beginning of bytes. Each function answers what the line says and what stands behind it, so that no line is told
// where it starts; or the number of the line, where it is not exactly right.
ghost use Rattle.std.specs.Prelude.{◌≡◌, ◌==◌, ◌+◌, MatchResult, Some, None, true, position, take};
ghost use Rattle.ascii.specs.Code.{feedless};
ghost use Rattle.card.specs.Text.{line_feed, found, behind_first, value_at, number_in, from◌to◌};
ghost use Rattle.card.specs.Card.{bad_line};
ghost use Rattle.card.specs.Code.{short};

use crate::limits::Limits;
use crate::{BadLine, read_number};

// The longest value of a line that is right, in bytes: "production" and 4294967295 have so many. A line feed is not looked for behind that, so that
// bytes that are no card are refused as soon, however many they are.
const LONGEST: usize = 10;

// The value behind `key`, unless it is longer than any that is right. (It is taken in where the key is known, and so are those below and
// `read_number`: handed on from call to call, a card takes half as long again.)
#[inline(always)]
pub(crate) fn value<'a>(
    bytes: &'a [u8],
    line: usize,
    key: &[u8],
) -> Result<(&'a [u8], &'a [u8]), BadLine>
    requires { feedless key.now ≡ true }
    ensures { let said = value_at 1 key.now bytes.now in
        MatchResult result (λ x. (said ≡ Some x.0.now) × (x.1.now ≡ behind_first bytes.now)) (λ e. (short said ≡ None) × (e ≡ bad_line line)) }
{
    let behind = bytes.strip_prefix(key).ok_or(BadLine(line))?;
    let end = line_feed(behind).ok_or(BadLine(line))?;
    Ok((&behind[..end], &behind[end + 1..]))
}

// Where the first line feed stands, behind a value that is not too long.
#[inline(always)]
fn line_feed(bytes: &[u8]) -> Option<usize>
    ensures { result ≡ position (λ b. b == line_feed) (take (LONGEST + 1) bytes.now) }
{
    bytes.iter().take(LONGEST + 1).position(|b| *b == b'\n')
}

// The number behind `key`, within limits.
#[inline(always)]
pub(crate) fn number<'a>(
    bytes: &'a [u8],
    line: usize,
    key: &[u8],
    limits: Limits,
) -> Result<(u32, &'a [u8]), BadLine>
    requires { feedless key.now ≡ true }
    ensures { let said = found (value_at 1 key.now bytes.now) (number_in (from limits.low to limits.high)) in
        MatchResult result (λ x. (said ≡ Some x.0) × (x.1.now ≡ behind_first bytes.now)) (λ e. (said ≡ None) × (e ≡ bad_line line)) }
{
    let (text, rest) = value(bytes, line, key)?;
    let n = read_number(text).ok_or(BadLine(line))?;
    if !limits.allow(n as usize) {
        return Err(BadLine(line));
    }
    Ok((n, rest))
}
