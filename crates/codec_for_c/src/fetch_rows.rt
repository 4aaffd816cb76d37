// A fetch as a row, and back: the form, the fields of word 0, of word 1 and of word 2.
ghost use Rattle.std.specs.Prelude.{◌≡◌, ◌+◌, ◌≤◌, ◌&&◌};
ghost use Rattle.bits.specs.Tables.{word_of, fits_table};
ghost use Rattle.microcode.specs.Buffer.{write_answer, write_words};
ghost use Rattle.fetch_codec.specs.Fetch.{words_if};
ghost use Rattle.fetch_codec.specs.Buffer.{decode_of, record_found};
ghost use Rattle.codec_for_c.specs.Values.{written, told};
ghost use Rattle.codec_for_c.specs.FetchValues.{fetch_values, fetch_after, fetch_from, fetch_words};

use crate::Row;
use crate::in_row::{InRow, Lift, put_three};
use fetch_codec::{Clause, Found};
use formats::Format;
use formats::tex::{TexWord0, TexWord1, TexWord2};
use formats::vtx::{VtxWord0, VtxWord1Gpr, VtxWord1Sem, VtxWord2};
use microcode::{DecodeError, EncodeError};
use opcodes::cf::FetchKind;
use units::Words;

// The fetch at `start`, which may be any number, over the beginning of the row; a refusal changes nothing.
pub fn decode_fetch_row(
    words: &[u32],
    start: Words,
    clause: Clause,
    row: &mut Row,
) -> Result<(), DecodeError>
    ensures value { result ≡ told (decode_of clause words.now start) }
    ensures row_after { row.new ≡ fetch_after (decode_of clause words.now start) row.old }
{
    let found = fetch_codec::find(words, start, clause)?;
    put_found(found, row);
    Ok(())
}

// What was found, over the beginning of the row.
pub(crate) fn put_found(found: Found, row: &mut Row)
    ensures { row.new ≡ written (fetch_values (record_found found)) row.old }
{
    match found {
        Found::Tex(word0, word1, word2) => {
            let a = TexWord0::read(word0);
            put_three(5, a, TexWord1::read(word1), TexWord2::read(word2), row);
            // Once more, so that it is written last: the three forms then end differently, and the compiler does not join their ends, which
            // would have each value wait on the stack (docs/MACHINE-CODE.md).
            row[0] = 5;
        }
        Found::VtxGpr(word0, word1, word2) => {
            let a = VtxWord0::read(word0);
            put_three(6, a, VtxWord1Gpr::read(word1), VtxWord2::read(word2), row);
        }
        Found::VtxSem(word0, word1, word2) => {
            let a = VtxWord0::read(word0);
            put_three(7, a, VtxWord1Sem::read(word1), VtxWord2::read(word2), row);
        }
    }
}

// The words of the fetch that the row holds at `start`, which may be any number. Every other word stays, and a refusal writes nothing.
pub fn encode_fetch_row(row: &Row, words: &mut [u32], start: Words) -> Result<(), EncodeError>
    ensures value { result ≡ fetch_from row.now words.old start.0 }
    ensures words_after { words.new ≡ fetch_words row.now words.old start.0 }
{
    match row[0] {
        5 => {
            let taken = opcodes::fetch_taken(FetchKind::Texture, row[1]);
            encode_three::<TexWord0, TexWord1, TexWord2>(taken, row, words, start)
        }
        6 => {
            let taken = opcodes::fetch_taken(FetchKind::Vertex, row[1]);
            let semantic = fetches::is_semantic(FetchKind::Vertex, row[1]);
            encode_three::<VtxWord0, VtxWord1Gpr, VtxWord2>(taken & !semantic, row, words, start)
        }
        7 => {
            let taken = opcodes::fetch_taken(FetchKind::Vertex, row[1]);
            let semantic = fetches::is_semantic(FetchKind::Vertex, row[1]);
            encode_three::<VtxWord0, VtxWord1Sem, VtxWord2>(taken & semantic, row, words, start)
        }
        _ => Err(EncodeError::NoRecord),
    }
}

// Three words of a form that takes the row's number, or not. They are tested and written by themselves, each taken from the row where it stands: a
// processor has too few registers to keep all values from the test to the words (docs/MACHINE-CODE.md).
fn encode_three<A: Lift, B: Lift, C: Lift>(
    taken: bool,
    row: &Row,
    words: &mut [u32],
    start: Words,
) -> Result<(), EncodeError>
    requires { A.COUNT + B.COUNT + C.COUNT ≤ 31 }
    ensures value { let a = A.at 1 row.now in let b = B.at (1 + A.COUNT) row.now in let c = C.at (1 + A.COUNT + B.COUNT) row.now in result ≡ write_answer (words_if (fits_table A.table (A.values a) && fits_table B.table (B.values b) && fits_table C.table (C.values c) && taken) (word_of A.table (A.values a)) (word_of B.table (B.values b)) (word_of C.table (C.values c))) words.old start }
    ensures words_after { let a = A.at 1 row.now in let b = B.at (1 + A.COUNT) row.now in let c = C.at (1 + A.COUNT + B.COUNT) row.now in words.new ≡ write_words (words_if (fits_table A.table (A.values a) && fits_table B.table (B.values b) && fits_table C.table (C.values c) && taken) (word_of A.table (A.values a)) (word_of B.table (B.values b)) (word_of C.table (C.values c))) words.old start }
{
    if !three_fit::<A, B, C>(taken, row) {
        return Err(EncodeError::NoRecord);
    }
    if words.len() < start.0 || words.len() - start.0 < 4 {
        return Err(EncodeError::NoRoom);
    }
    let second = 1 + A::COUNT;
    // The fourth goes first: behind a write to the words the values are read anew.
    words[start.0 + 3] = 0;
    words[start.0] = A::get(&row[1..]).lift();
    words[start.0 + 1] = B::get(&row[second..]).lift();
    words[start.0 + 2] = C::get(&row[second + B::COUNT..]).lift();
    Ok(())
}

// Whether the row's values are within their widths, where the form takes its number. The number goes first, the words one after the other.
fn three_fit<A: InRow, B: InRow, C: InRow>(taken: bool, row: &Row) -> bool
    requires { A.COUNT + B.COUNT + C.COUNT ≤ 31 }
    ensures { let a = A.at 1 row.now in let b = B.at (1 + A.COUNT) row.now in let c = C.at (1 + A.COUNT + B.COUNT) row.now in result ≡ (fits_table A.table (A.values a) && fits_table B.table (B.values b) && fits_table C.table (C.values c) && taken) }
{
    let second = 1 + A::COUNT;
    taken
        && A::get(&row[1..]).fits()
        && B::get(&row[second..]).fits()
        && C::get(&row[second + B::COUNT..]).fits()
}
