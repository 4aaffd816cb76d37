// Settings: lines NAME=number for keys and numbers that a caller gives. Each is made where it is put, as no memory holds any number of them,
// so that the two loops stand here besides those of lines.rt.
ghost use Rattle.std.specs.Prelude.{◌≡◌, ◌≤◌, leb, length};
ghost use Rattle.report.specs.Settings.{keys_lent, settings_text};
ghost use Rattle.report.specs.Buffer.{written_of, buffer_after};
ghost use Rattle.report.specs.Code.{Appended};

use crate::TooSmall;
use crate::lines::{Value, put_line, room_behind};

// Writes a line for each of the keys and values to the start of `out`, as many as there are of both, and answers how many bytes they
// have; where they do not fit, `out` stays as it was. Each key ends with its equals sign.
pub fn write_settings(keys: &[&[u8]], values: &[u32], out: &mut [u8]) -> Result<usize, TooSmall>
    ensures value { result ≡ written_of (settings_text (keys_lent keys.now) values.now) out.old }
    ensures out_after { out.new ≡ buffer_after (settings_text (keys_lent keys.now) values.now) out.old }
{
    if !have_room(keys, values, out.len()) {
        return Err(TooSmall);
    }
    Ok(put_settings(keys, values, out))
}

// Whether the lines are at most `room` bytes.
fn have_room(keys: &[&[u8]], values: &[u32], room: usize) -> bool
    ensures { result ≡ leb (length (settings_text (keys_lent keys.now) values.now)) room }
{
    let mut left = room;
    for (key, value) in keys.iter().zip(values) {
        let Some(behind) = room_behind(left, key, Value::Number(*value as usize)) else {
            return false;
        };
        left = behind;
    }
    true
}

// Puts the lines to the start of `out`, and answers where they end.
fn put_settings(keys: &[&[u8]], values: &[u32], out: &mut [u8]) -> usize
    requires { length (settings_text (keys_lent keys.now) values.now) ≤ length out.old }
    ensures { Appended 0 (settings_text (keys_lent keys.now) values.now) out.old out.new result }
{
    let mut at = 0;
    for (key, value) in keys.iter().zip(values) {
        at = put_line(out, at, key, Value::Number(*value as usize));
    }
    at
}
