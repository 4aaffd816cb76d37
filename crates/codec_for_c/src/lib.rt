// The codec for C and Rust to link, by crate codec_for_c_c, which exports it: an instruction or a fetch as a row of 32-bit values, its form and then
// its fields in AMD's order (specs/Values.antt and specs/FetchValues.antt). The functions for C are those on rows, with their answers as numbers.
#![tactic(auto)]

mod fetch_rows;
mod fetch_words;
mod in_row;
mod pair_rows;
mod pair_words;

ghost use Rattle.std.specs.Prelude.{◌≡◌};
ghost use Rattle.microcode.specs.Pair.{stream_of};
ghost use Rattle.fetch_codec.specs.Fetch.{kind_of, form_kind};
ghost use Rattle.codec_for_c.specs.Values.{stream_number, stream_numbered, decoded_number, decoded_values, record_of, encoded_number, encoded_words, WordsAgain, RowAgain};
ghost use Rattle.codec_for_c.specs.FetchValues.{clause_number, clause_numbered, fetch_in, fetch_number, fetch_row, fetch_from_number, fetch_words, FetchWordsAgain, FetchRowAgain};
ghost use Rattle.checks.specs.Verdict.{verdict_number};

use checks::Verdict;
use fetch_codec::Clause;
pub use fetch_rows::{decode_fetch_row, encode_fetch_row};
use microcode::{EncodeError, Stream};
pub use pair_rows::{decode_row, encode_row};
use units::Words;

// A row has as many elements, whatever its form. C has a function for pairs and one for fetches, each by its name (include/zlatomruk.h).
pub type Row = [u32; 32];

// The pair at word `start`, control flow where `stream` is 0 and ALU where it is 1, as values. 21 where it is neither; 2, 4 and 11 are the
// decoder's; 20 where `values` has fewer than 32 elements. After a 0 the row encodes to the same words again.
#[unsafe(no_mangle)]
pub extern "C" fn zlatomruk_decode(
    words: &[u32],
    start: usize,
    stream: u32,
    values: &mut [u32],
) -> u32
    ensures value { result ≡ decoded_number stream words.now start values.old }
    ensures values_after { values.new ≡ decoded_values stream words.now start values.old }
    ensures words_again { result ≡ 0 → WordsAgain values.new words.now start }
{
    let Some(stream) = stream_numbered(stream) else {
        return number(microcode::encoded_verdict(Err(EncodeError::NoRecord)));
    };
    let found = match microcode::find(words, Words(start), stream) {
        Ok(found) => found,
        Err(e) => return number(microcode::decoded_verdict(stream, Err(e))),
    };
    let Some(row) = values.first_chunk_mut() else {
        return number(microcode::encoded_verdict(Err(EncodeError::NoRoom)));
    };
    pair_rows::put_found(found, row);
    0
}

// The record that the values hold, as two words at word `start`. 21 where it can't be encoded, or 32 elements or the form are missing;
// 20 where the words have no room. After a 0 the words decode, in the stream of the row's form, to the same row again.
#[unsafe(no_mangle)]
pub extern "C" fn zlatomruk_encode(values: &[u32], words: &mut [u32], start: usize) -> u32
    ensures value { result ≡ encoded_number values.now words.old start }
    ensures words_after { words.new ≡ encoded_words values.now words.old start }
    ensures row_again { result ≡ 0 → RowAgain (stream_number (stream_of (record_of values.now))) words.new start values.now }
{
    let Some(row) = values.first_chunk() else {
        return number(microcode::encoded_verdict(Err(EncodeError::NoRecord)));
    };
    number(microcode::encoded_verdict(encode_row(row, words, Words(start))))
}

// The fetch at word `start` in a clause of that kind, which is the opener's CF number, as values. 21 where it is no fetch clause's; 2 and 8 are
// the decoder's; 20 where `values` has fewer than 32 elements. After a 0 the row encodes to the same words again.
#[unsafe(no_mangle)]
pub extern "C" fn zlatomruk_decode_fetch(
    words: &[u32],
    start: usize,
    kind: u32,
    values: &mut [u32],
) -> u32
    ensures value { result ≡ fetch_number kind words.now start values.old }
    ensures values_after { values.new ≡ fetch_row kind words.now start values.old }
    ensures fetch_words_again { result ≡ 0 → FetchWordsAgain values.new words.now start }
{
    let Some(clause) = clause_numbered(kind) else {
        return number(microcode::encoded_verdict(Err(EncodeError::NoRecord)));
    };
    let found = match fetch_codec::find(words, Words(start), clause) {
        Ok(found) => found,
        Err(e) => return number(fetch_codec::decoded_verdict(Err(e))),
    };
    let Some(row) = values.first_chunk_mut() else {
        return number(microcode::encoded_verdict(Err(EncodeError::NoRoom)));
    };
    fetch_rows::put_found(found, row);
    0
}

// The fetch that the values hold, as four words at word `start`. 21 where it can't be encoded, or 32 elements or the form are missing; 20
// where the words have no room. After a 0 the words decode, in every clause of the form's kind, to the same row again.
#[unsafe(no_mangle)]
pub extern "C" fn zlatomruk_encode_fetch(values: &[u32], words: &mut [u32], start: usize) -> u32
    ensures value { result ≡ fetch_from_number values.now words.old start }
    ensures words_after { words.new ≡ fetch_words values.now words.old start }
    ensures fetch_row_again { result ≡ 0 → (clause : Clause) → kind_of clause ≡ form_kind (fetch_in values.now) → FetchRowAgain (clause_number clause) words.new start values.now }
{
    let Some(row) = values.first_chunk() else {
        return number(microcode::encoded_verdict(Err(EncodeError::NoRecord)));
    };
    number(microcode::encoded_verdict(encode_fetch_row(row, words, Words(start))))
}

// The stream of a number, and the clause. Both types are other crates', so neither is a TryFrom.
fn stream_numbered(n: u32) -> Option<Stream>
    ensures { result ≡ stream_numbered n }
{
    match n {
        0 => Some(Stream::ControlFlow),
        1 => Some(Stream::Alu),
        _ => None,
    }
}

fn clause_numbered(n: u32) -> Option<Clause>
    ensures { result ≡ clause_numbered n }
{
    match n {
        1 => Some(Clause::Tex),
        2 => Some(Clause::Vtx),
        3 => Some(Clause::VtxTc),
        _ => None,
    }
}

fn number(v: Verdict) -> u32
    ensures { result ≡ verdict_number v }
{
    u32::from(checks::verdict_number(v))
}
