// Rows of a fetch's values: read from words, written as text, and changed by settings.
ghost use Rattle.std.specs.Prelude.{◌≡◌, ◌<◌, length, position};
ghost use Rattle.std.specs.List.{before_first, after_first};
ghost use Rattle.report.specs.Settings.{keys_lent};
ghost use Rattle.report.specs.Buffer.{written_of, buffer_after};
ghost use Rattle.fetch_codec.specs.Buffer.{decode_of};
ghost use Rattle.codec_for_c.specs.FetchValues.{fetch_in};
ghost use Rattle.fetch_text.specs.Text.{keys_of, text_of};
ghost use Rattle.fetch_text.specs.Edit.{ends_line};
ghost use Rattle.fetch_text.specs.Code.{Holds, RowRead, NumberPut, SettingPut, AllPut};

use crate::{EditError, Fault, keys};
use bits::fits;
use codec_for_c::Row;
use fetch_codec::Clause;
use formats::fields;
use microcode::DecodeError;
use report::TooSmall;
use units::Words;

// The row of the fetch at `start`.
pub(crate) fn read_row(clause: Clause, words: &[u32], start: Words) -> Result<Row, DecodeError>
    ensures { RowRead (decode_of clause words.now start) result }
{
    let mut row = [0; 32];
    codec_for_c::decode_fetch_row(words, start, clause, &mut row)?;
    Ok(row)
}

// Writes the text of a row's fetch to the beginning of `out`.
pub(crate) fn write_row(row: &Row, out: &mut [u8]) -> Result<usize, TooSmall>
    requires { Holds row.now }
    ensures value { result ≡ written_of (text_of (fetch_in row.now)) out.old }
    ensures out_after { out.new ≡ buffer_after (text_of (fetch_in row.now)) out.old }
{
    report::write_settings(row_keys(row), &row[1..], out)
}

// The keys of the fields of a row's form, a number, since rows are made for C (`codec_for_c::zlatomruk_decode_fetch`).
fn row_keys(row: &Row) -> &'static [&'static [u8]]
    requires { Holds row.now }
    ensures { keys_lent result.now ≡ keys_of (fetch_in row.now) }
{
    let form = row[0];
    if form == 5 {
        &keys::TEX
    } else if form == 6 {
        &keys::VTX_GPR
    } else {
        &keys::VTX_SEM
    }
}

// Puts settings into a row, one after the other, up to the first that is wrong.
pub(crate) fn edit_row(row: &mut Row, text: &[u8]) -> Result<(), EditError>
    requires { Holds row.old }
    ensures { AllPut row.old row.new text.now result }
{
    let mut rest = text;
    while !rest.is_empty() {
        let at = text.len() - rest.len();
        let (line, behind) = split_line(rest);
        if let Err(fault) = set_line(row, line) {
            return Err(EditError::Wrong { at, fault });
        }
        rest = behind;
    }
    Ok(())
}

// The first line of a text, without its line feed, and what stands behind that; all and nothing where there is none.
pub fn split_line(text: &[u8]) -> (&[u8], &[u8])
    ensures line { result.0.now ≡ before_first ends_line text.now }
    ensures behind { result.1.now ≡ after_first ends_line text.now }
{
    match line_feed(text) {
        Some(end) => (&text[..end], &text[end + 1..]),
        None => (text, &[]),
    }
}

fn line_feed(text: &[u8]) -> Option<usize>
    ensures { result ≡ position ends_line text.now }
{
    text.iter().position(|b| *b == b'\n')
}

// Puts one setting into a row. Where it is wrong the row holds no fetch any more.
fn set_line(row: &mut Row, line: &[u8]) -> Result<(), Fault>
    requires { Holds row.old }
    ensures { SettingPut row.old row.new line.now result }
{
    let (index, n) = settings::read_setting(row_keys(row), line)?;
    set_value(row, index, n)
}

// Puts a number into the field of that index. Where the row then holds no fetch that can be encoded, the number exceeds its width, or it is the
// fetch's own and not one of its form.
fn set_value(row: &mut Row, index: usize, n: u32) -> Result<(), Fault>
    requires holds { Holds row.old }
    requires index_in_bounds { index < length (keys_of (fetch_in row.old)) }
    ensures { NumberPut row.old row.new index n result }
{
    row[index + 1] = n;
    if codec_for_c::encode_fetch_row(row, &mut [0; 4], Words(0)).is_ok() {
        return Ok(());
    }
    if index == 0 && fits(n, fields::FETCH_INST) {
        return Err(Fault::NotTaken);
    }
    Err(Fault::TooWide)
}
