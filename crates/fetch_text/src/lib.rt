// Fetches as text, for people who edit by hand: the fields of a fetch as lines NAME=number, with AMD's names, and a fetch edited by such
// lines. Both stand on rows of values, as crate codec_for_c has them.
#![tactic(auto)]

mod keys;
mod rows;

ghost use Rattle.std.specs.Prelude.{◌≡◌, Some, replicate};
ghost use Rattle.fetch_codec.specs.Buffer.{decode_of};
ghost use Rattle.fetch_text.specs.Text.{HoldsText, shown_of, shown_after};
ghost use Rattle.fetch_text.specs.Edit.{fault_read, fault_words, edit_of, edited_words, Promised};
ghost use Rattle.fetch_text.specs.declared.ShowError.TheVariants as show;
ghost use Rattle.fetch_text.specs.declared.EditError.TheVariants as edit;

use fetch_codec::Clause;
use microcode::DecodeError;
use report::TooSmall;
pub use rows::split_line;
use settings::SettingError;
use std::fmt;
use units::Words;

// Why no text is shown of the words at a start.
#[derive(Clone, Copy, Debug, PartialEq, Eq)]
pub enum ShowError {
    // By rule 8 or the words' end there is no fetch.
    NoFetch(DecodeError),
    TooSmall,
}

// What is wrong with a setting.
#[derive(Clone, Copy, Debug, PartialEq, Eq)]
pub enum Fault {
    // The form has no such field.
    NoField,
    // Not a number of 32 bits, in decimal without leading zeros or signs.
    NoNumber,
    // The number exceeds the field's width.
    TooWide,
    // The field is the fetch's own number, and its form doesn't take this one.
    NotTaken,
}

impl fmt::Display for Fault {
    ghost output = { λ fault. Some (fault_words fault) };

    fn fmt<W: fmt::Write>(&self, f: &mut fmt::Formatter<W>) -> fmt::Result {
        f.write_str(match self {
            Fault::NoField => "no such field",
            Fault::NoNumber => "no number of 32 bits",
            Fault::TooWide => "beyond the field's width",
            Fault::NotTaken => "not a number of this form",
        })
    }
}

impl From<SettingError> for Fault {
    ghost from_gives = { λ e r. r ≡ fault_read e };

    fn from(e: SettingError) -> Fault {
        match e {
            SettingError::NoName => Fault::NoField,
            SettingError::NoNumber => Fault::NoNumber,
        }
    }
}

// Why nothing is edited.
#[derive(Clone, Copy, Debug, PartialEq, Eq)]
pub enum EditError {
    NoFetch(DecodeError),
    // The setting that starts behind so many bytes of the text is the first that is wrong.
    Wrong { at: usize, fault: Fault },
}

impl From<DecodeError> for ShowError {
    ghost from_gives = { λ e r. r ≡ show.NoFetch e };

    fn from(e: DecodeError) -> ShowError {
        ShowError::NoFetch(e)
    }
}

impl From<TooSmall> for ShowError {
    ghost from_gives = { λ _ r. r ≡ show.TooSmall };

    fn from(_: TooSmall) -> ShowError {
        ShowError::TooSmall
    }
}

impl From<DecodeError> for EditError {
    ghost from_gives = { λ e r. r ≡ edit.NoFetch e };

    fn from(e: DecodeError) -> EditError {
        EditError::NoFetch(e)
    }
}

// Room for the longest text of a fetch.
pub fn text_room() -> [u8; 628]
    ensures value { result ≡ replicate 628 0 }
    ensures holds_text { HoldsText result }
{
    [0; 628]
}

// Writes the fields of the fetch at `start` to the beginning of `out`, a line NAME=number each, and answers how many bytes they have. Where
// they do not fit, or there is no fetch, `out` stays as it was.
pub fn write_fetch(
    clause: Clause,
    words: &[u32],
    start: Words,
    out: &mut [u8],
) -> Result<usize, ShowError>
    ensures value { result ≡ shown_of (decode_of clause words.now start) out.old }
    ensures out_after { out.new ≡ shown_after (decode_of clause words.now start) out.old }
{
    let row = rows::read_row(clause, words, start)?;
    Ok(rows::write_row(&row, out)?)
}

// Puts settings, a line NAME=number each, into the fetch at `start`. Where one is wrong, or there is no fetch, all words stay. What was
// edited decodes to the edited fetch, and the text of a fetch makes any other of its form that fetch.
pub fn edit_fetch(
    clause: Clause,
    words: &mut [u32],
    start: Words,
    settings: &[u8],
) -> Result<(), EditError>
    ensures value { result ≡ edit_of (decode_of clause words.old start) settings.now }
    ensures words_after { words.new ≡ edited_words (decode_of clause words.old start) settings.now words.old start }
    ensures promised { Promised clause words.old words.new settings.now start result }
{
    let mut row = rows::read_row(clause, words, start)?;
    rows::edit_row(&mut row, settings)?;
    // The row holds a fetch, and it was read from there.
    let _ = codec_for_c::encode_fetch_row(&row, words, start);
    Ok(())
}
