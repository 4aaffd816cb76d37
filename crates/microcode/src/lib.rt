// The word pairs that are taken, as records with AMD's field names: decoder and encoder.
//
// A decoder is told which stream a pair stands in, since ALU pairs and control-flow pairs are told apart by their place only.
#![tactic(auto)]

mod pair;
pub mod words;

ghost use Rattle.std.specs.Prelude.{◌≡◌};
ghost use Rattle.microcode.specs.Answer.{Done};
ghost use Rattle.microcode.specs.Pair.{stream_of};
ghost use Rattle.microcode.specs.Buffer.{decode_of, decoded_from, encode_answer, encode_words, write_answer, write_words, write_number, Rewritten, Answers, not_taken, decoded_verdict, decode_number, encoded_verdict, encode_number};
ghost use Rattle.microcode.specs.Code.{put_answer, put_words};

use checks::{Place, Refusal, Verdict};
use formats::alu::{AluWord0, AluWord1Op2, AluWord1Op3};
use formats::cf::{CfWord0, CfWord1};
use formats::cf_alu::{CfAluWord0, CfAluWord1};
use formats::export::{CfAllocExportWord0, CfAllocExportWord1Swiz};
use units::Words;

// The five forms of a pair.
#[derive(Clone, Copy)]
pub enum Instruction {
    CfAlu(CfAluWord0, CfAluWord1),
    Cf(CfWord0, CfWord1),
    Export(CfAllocExportWord0, CfAllocExportWord1Swiz),
    Op2(AluWord0, AluWord1Op2),
    Op3(AluWord0, AluWord1Op3),
}

// Where a pair stands.
#[derive(Clone, Copy)]
pub enum Stream {
    ControlFlow,
    Alu,
}

// Why the decoder has no instruction.
#[derive(Clone, Copy, Debug, PartialEq, Eq)]
pub enum DecodeError {
    // The pair isn't wholly in the words.
    Outside,
    // Its number isn't taken.
    NotTaken,
}

// What stands at a start: a pair by its form, with its two words as they are. Who needs the fields of one form only reads them from these, and
// a record that could be of any form is never made.
#[derive(Clone, Copy, Debug, PartialEq, Eq)]
pub enum FoundPair {
    CfAlu(u32, u32),
    Cf(u32, u32),
    Export(u32, u32),
    Op2(u32, u32),
    Op3(u32, u32),
}

// Why the encoder has written nothing.
#[derive(Clone, Copy, Debug, PartialEq, Eq)]
pub enum EncodeError {
    // A field exceeds its width, or the record isn't of a taken form.
    NoRecord,
    // The words don't fit at the given start.
    NoRoom,
}

// The instruction at `start`, which may be any number. What is taken encodes at `start` to the same words. The answer by the paper's
// table: 2, 4, 11 or 0, with place and slot 0.
pub fn decode(words: &[u32], start: Words, stream: Stream) -> Result<Instruction, DecodeError>
    ensures value { result ≡ decode_of stream words.now start }
    ensures rewritten { (i : Instruction) → result ≡ Ok i → Rewritten i words.now start }
    ensures answers { Answers (decoded_verdict stream result) (decode_number stream words.now start) }
{
    let found = find(words, start, stream)?;
    Ok(pair::record(found))
}

// The form of the pair at `start`, which may be any number, and its words. Inlined, since its answer has two tags that a caller would ask for in
// memory.
#[inline]
pub fn find(words: &[u32], start: Words, stream: Stream) -> Result<FoundPair, DecodeError>
    ensures { decoded_from result ≡ decode_of stream words.now start }
{
    let Some([low, high, ..]) = words.get(start.0..) else {
        return Err(DecodeError::Outside);
    };
    match stream {
        Stream::ControlFlow => pair::cf_pair(*low, *high),
        Stream::Alu => pair::alu_pair(*low, *high),
    }
}

// The words of `i` at `start`, which may be any number; the part from there on is lent on. Every other word stays, a refusal writes
// nothing, and what is written decodes to `i`. The answer by the paper's table: 21, 20 or 0, with place and slot 0.
pub fn encode(i: Instruction, out: &mut [u32], start: Words) -> Result<(), EncodeError>
    ensures value { result ≡ encode_answer i out.old start }
    ensures out_after { out.new ≡ encode_words i out.old start }
    ensures start_after { result ≡ Done → decode_of (stream_of i) out.new start ≡ Ok i }
    ensures answers { Answers (encoded_verdict result) (encode_number i out.old start) }
{
    write(words::of_record(i), out, start)
}

// The same with the words of a record that the caller knows the form of, if it is one.
pub fn write<const N: usize>(
    words: Option<[u32; N]>,
    out: &mut [u32],
    start: Words,
) -> Result<(), EncodeError>
    ensures value { result ≡ write_answer words.entry out.old start }
    ensures out_after { out.new ≡ write_words words.entry out.old start }
    ensures answers { Answers (encoded_verdict result) (write_number words.entry out.old start) }
{
    let Some(words) = words else {
        return Err(EncodeError::NoRecord);
    };
    if out.len() < start.0 {
        return Err(EncodeError::NoRoom);
    }
    put(words, &mut out[start.0..])
}

// Words at the beginning of a part, where it has as many.
fn put<const N: usize>(words: [u32; N], part: &mut [u32]) -> Result<(), EncodeError>
    ensures value { result ≡ put_answer words.entry part.old }
    ensures part_after { part.new ≡ put_words words.entry part.old }
{
    let Some(place) = part.first_chunk_mut::<N>() else {
        return Err(EncodeError::NoRoom);
    };
    *place = words;
    Ok(())
}

// The answers by the paper's table: number, place and slot. Every refusal has place and slot 0.
pub fn decoded_verdict(stream: Stream, d: Result<Instruction, DecodeError>) -> Verdict
    ensures { result ≡ decoded_verdict stream d }
{
    match d {
        Ok(_) => Ok(()),
        Err(DecodeError::Outside) => Err(Refusal::of_place(2, Place::Whole)),
        Err(DecodeError::NotTaken) => Err(Refusal::of_place(not_taken(stream), Place::Whole)),
    }
}

pub fn encoded_verdict(e: Result<(), EncodeError>) -> Verdict
    ensures { result ≡ encoded_verdict e }
{
    match e {
        Ok(()) => Ok(()),
        Err(EncodeError::NoRecord) => Err(Refusal::of_place(21, Place::Whole)),
        Err(EncodeError::NoRoom) => Err(Refusal::of_place(20, Place::Whole)),
    }
}

// A number that isn't taken in a stream.
fn not_taken(stream: Stream) -> u8
    ensures { result ≡ not_taken stream }
{
    match stream {
        Stream::ControlFlow => 4,
        Stream::Alu => 11,
    }
}
