// A pair as a row, and back: the form, the fields of word 0, the fields of word 1. Each form goes from its words to its values by itself, so that
// nothing has to ask for the form again.
ghost use Rattle.std.specs.Prelude.{◌≡◌, ◌<◌, ◌≤◌};
ghost use Rattle.microcode.specs.Buffer.{decode_of, record_found};
ghost use Rattle.codec_for_c.specs.Values.{values_of, written, told, form_of, row_after, encoded_from, encoded_words};

use crate::Row;
use crate::in_row::{get_two, put_two};
use formats::Format;
use formats::alu::{AluWord0, AluWord1Op2, AluWord1Op3};
use formats::cf::{CfWord0, CfWord1};
use formats::cf_alu::{CfAluWord0, CfAluWord1};
use formats::export::{CfAllocExportWord0, CfAllocExportWord1Swiz};
use microcode::{DecodeError, EncodeError, FoundPair, Stream, words};
use units::Words;

// The pair at `start`, which may be any number, over the beginning of the row; a refusal changes nothing.
pub fn decode_row(
    words: &[u32],
    start: Words,
    stream: Stream,
    row: &mut Row,
) -> Result<(), DecodeError>
    ensures value { result ≡ told (decode_of stream words.now start) }
    ensures row_after { row.new ≡ row_after (decode_of stream words.now start) row.old }
{
    let found = microcode::find(words, start, stream)?;
    put_found(found, row);
    Ok(())
}

// What was found, over the beginning of the row.
pub(crate) fn put_found(found: FoundPair, row: &mut Row)
    ensures { row.new ≡ written (values_of (record_found found)) row.old }
{
    match found {
        FoundPair::CfAlu(low, high) => {
            put_two(0, CfAluWord0::read(low), CfAluWord1::read(high), row);
            // Once more, so that it is written last: this form then ends differently from the others, and the compiler does not join their
            // ends (`fetch_rows::put_found`).
            row[0] = 0;
        }
        FoundPair::Cf(low, high) => put_two(1, CfWord0::read(low), CfWord1::read(high), row),
        FoundPair::Export(low, high) => {
            let a = CfAllocExportWord0::read(low);
            let b = CfAllocExportWord1Swiz::read(high);
            put_two(2, a, b, row);
        }
        FoundPair::Op2(low, high) => put_two(3, AluWord0::read(low), AluWord1Op2::read(high), row),
        FoundPair::Op3(low, high) => put_two(4, AluWord0::read(low), AluWord1Op3::read(high), row),
    }
}

// The words of the pair that the row holds at `start`, which may be any number. Every other word stays, and a refusal writes nothing.
pub fn encode_row(row: &Row, words: &mut [u32], start: Words) -> Result<(), EncodeError>
    ensures value { result ≡ encoded_from row.now words.old start.0 }
    ensures words_after { words.new ≡ encoded_words row.now words.old start.0 }
{
    // Control flow is told from ALU first: of five forms asked for in turn the compiler makes one jump through a table, and reads what they have
    // in common before it (docs/MACHINE-CODE.md).
    if row[0] < 3 {
        return encode_control(row, words, start);
    }
    encode_alu(row, words, start)
}

// Forms 0 to 2: CF_ALU, CF and export.
fn encode_control(row: &Row, words: &mut [u32], start: Words) -> Result<(), EncodeError>
    requires { form_of row.now < 3 }
    ensures value { result ≡ encoded_from row.now words.old start.0 }
    ensures words_after { words.new ≡ encoded_words row.now words.old start.0 }
{
    match row[0] {
        0 => {
            let (a, b) = get_two(row);
            microcode::write(words::of_cf_alu(a, b), words, start)
        }
        1 => {
            let (a, b) = get_two(row);
            microcode::write(words::of_cf(a, b), words, start)
        }
        _ => {
            let (a, b) = get_two(row);
            microcode::write(words::of_export(a, b), words, start)
        }
    }
}

// Forms 3 and 4: OP2 and OP3. There are no others.
fn encode_alu(row: &Row, words: &mut [u32], start: Words) -> Result<(), EncodeError>
    requires { 3 ≤ form_of row.now }
    ensures value { result ≡ encoded_from row.now words.old start.0 }
    ensures words_after { words.new ≡ encoded_words row.now words.old start.0 }
{
    match row[0] {
        3 => {
            let (a, b) = get_two(row);
            microcode::write(words::of_op2(a, b), words, start)
        }
        4 => {
            let (a, b) = get_two(row);
            microcode::write(words::of_op3(a, b), words, start)
        }
        _ => Err(EncodeError::NoRecord),
    }
}
