// A fetch of a pack in bytes, as a file has it: shown as text, and edited. Both load the pack's words into room of this crate's own; an edit
// stores them again where nothing is wrong.
#![tactic(auto)]

ghost use Rattle.std.specs.Prelude.{◌≡◌, ◌%◌, length};
ghost use Rattle.input.specs.Words.{words_in};
ghost use Rattle.fetch_pack.specs.declared.PackError.TheVariants as pack_error;
ghost use Rattle.fetch_pack.specs.Pack.{length_test, pack_shown, pack_shown_after, pack_edit, pack_after, PackPromised};
ghost use Rattle.fetch_pack.specs.Code.{EditedIn};

use fetch_codec::Clause;
use fetch_text::{EditError, ShowError};
use units::Words;

// The longest pack, in bytes: 8,192 quadwords.
pub const LONGEST: usize = 65536;

// Why nothing is shown or edited.
#[derive(Clone, Copy, Debug, PartialEq, Eq)]
pub enum PackError<E> {
    TooLong,
    // The pack's length is no multiple of a quadword's.
    NotWhole,
    // The pack's words have no such fetch, or what is asked of it is wrong.
    Fetch(E),
}

impl<E> From<E> for PackError<E> {
    ghost from_gives = { λ e r. r ≡ pack_error.Fetch e };

    fn from(e: E) -> PackError<E> {
        PackError::Fetch(e)
    }
}

// Writes the fields of the fetch at word `start` to the beginning of `out`, and answers how many bytes they have; where there is none, or they
// do not fit, `out` stays as it was.
pub fn show_fetch(
    clause: Clause,
    pack: &[u8],
    start: Words,
    out: &mut [u8],
) -> Result<usize, PackError<ShowError>>
    ensures value { result ≡ pack_shown clause pack.now start out.old }
    ensures out_after { out.new ≡ pack_shown_after clause pack.now start out.old }
{
    test_length::<ShowError>(pack)?;
    let mut room = [0u32; 16384];
    let n = input::load(pack, &mut room);
    Ok(fetch_text::write_fetch(clause, &room[..n], start, out)?)
}

// Puts settings into the fetch at word `start`. Where something is wrong every byte of the pack stays.
pub fn edit_fetch(
    clause: Clause,
    pack: &mut [u8],
    start: Words,
    settings: &[u8],
) -> Result<(), PackError<EditError>>
    ensures value { result ≡ pack_edit clause pack.old start settings.now }
    ensures pack_after { pack.new ≡ pack_after clause pack.old start settings.now }
    ensures pack_promised { PackPromised clause pack.old pack.new settings.now start result }
{
    test_length::<EditError>(pack)?;
    let mut room = [0u32; 16384];
    let n = input::load(pack, &mut room);
    Ok(edit_words(clause, &mut room[..n], start, settings, pack)?)
}

// The same with the pack's words, which are stored again where the edit is done.
fn edit_words(
    clause: Clause,
    words: &mut [u32],
    start: Words,
    settings: &[u8],
    pack: &mut [u8],
) -> Result<(), EditError>
    requires words { words.old ≡ words_in pack.old }
    requires whole { length pack.old % 4 ≡ 0 }
    ensures { EditedIn clause pack.old pack.new settings.now start result }
{
    fetch_text::edit_fetch(clause, words, start, settings)?;
    input::store(words, pack);
    Ok(())
}

fn test_length<E>(pack: &[u8]) -> Result<(), PackError<E>>
    ensures { result ≡ length_test pack.now }
{
    if LONGEST < pack.len() {
        return Err(PackError::TooLong);
    }
    if pack.len() % 8 != 0 {
        return Err(PackError::NotWhole);
    }
    Ok(())
}
