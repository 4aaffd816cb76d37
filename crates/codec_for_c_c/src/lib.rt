// The codec for C and Rust to link: a part of libzlatomruk.a (tools/archive). What is exported are crate codec_for_c's functions of the same names.
//
// A slice is passed as a pointer and a length. An instruction or a fetch is a row of 32-bit values (crate codec_for_c, specs/Values.antt and
// specs/FetchValues.antt).
#![tactic(auto)]

ghost use Rattle.std.specs.Prelude.{◌≡◌};
ghost use Rattle.microcode.specs.Pair.{stream_of};
ghost use Rattle.fetch_codec.specs.Fetch.{kind_of, form_kind};
ghost use Rattle.codec_for_c.specs.Values.{stream_number, decoded_number, decoded_values, record_of, encoded_number, encoded_words, WordsAgain, RowAgain};
ghost use Rattle.codec_for_c.specs.FetchValues.{clause_number, fetch_in, fetch_number, fetch_row, fetch_from_number, fetch_words, FetchWordsAgain, FetchRowAgain};

use fetch_codec::Clause;

// The pair at word `start`, control flow where `stream` is 0 and ALU where it is 1, as values. 21 where it is neither; 2, 4 and 11 are the
// decoder's; 20 where `values` has fewer than 32 elements. After a 0 the row encodes to the same words again.
#[unsafe(no_mangle)]
pub extern "C" fn zlatomruk_decode(
    words: &[u32],
    start: usize,
    stream: u32,
    values: &mut [u32],
) -> u32
    ensures value { result ≡ decoded_number stream words.now start values.old }
    ensures values_after { values.new ≡ decoded_values stream words.now start values.old }
    ensures words_again { result ≡ 0 → WordsAgain values.new words.now start }
{
    codec_for_c::zlatomruk_decode(words, start, stream, values)
}

// The record that the values hold, as two words at word `start`. 21 where it can't be encoded, or 32 elements or the form are missing;
// 20 where the words have no room. After a 0 the words decode, in the stream of the row's form, to the same row again.
#[unsafe(no_mangle)]
pub extern "C" fn zlatomruk_encode(values: &[u32], words: &mut [u32], start: usize) -> u32
    ensures value { result ≡ encoded_number values.now words.old start }
    ensures words_after { words.new ≡ encoded_words values.now words.old start }
    ensures row_again { result ≡ 0 → RowAgain (stream_number (stream_of (record_of values.now))) words.new start values.now }
{
    codec_for_c::zlatomruk_encode(values, words, start)
}

// The fetch at word `start` in a clause of that kind, which is the opener's CF number, as values. 21 where it is no fetch clause's; 2 and 8 are
// the decoder's; 20 where `values` has fewer than 32 elements. After a 0 the row encodes to the same words again.
#[unsafe(no_mangle)]
pub extern "C" fn zlatomruk_decode_fetch(
    words: &[u32],
    start: usize,
    kind: u32,
    values: &mut [u32],
) -> u32
    ensures value { result ≡ fetch_number kind words.now start values.old }
    ensures values_after { values.new ≡ fetch_row kind words.now start values.old }
    ensures fetch_words_again { result ≡ 0 → FetchWordsAgain values.new words.now start }
{
    codec_for_c::zlatomruk_decode_fetch(words, start, kind, values)
}

// The fetch that the values hold, as four words at word `start`. 21 where it can't be encoded, or 32 elements or the form are missing; 20
// where the words have no room. After a 0 the words decode, in every clause of the form's kind, to the same row again.
#[unsafe(no_mangle)]
pub extern "C" fn zlatomruk_encode_fetch(values: &[u32], words: &mut [u32], start: usize) -> u32
    ensures value { result ≡ fetch_from_number values.now words.old start }
    ensures words_after { words.new ≡ fetch_words values.now words.old start }
    ensures fetch_row_again { result ≡ 0 → (clause : Clause) → kind_of clause ≡ form_kind (fetch_in values.now) → FetchRowAgain (clause_number clause) words.new start values.now }
{
    codec_for_c::zlatomruk_encode_fetch(values, words, start)
}
