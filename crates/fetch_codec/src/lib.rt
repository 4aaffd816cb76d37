// Fetches in full: the four words of a fetch as a record with AMD's field names, and back.
//
// A decoder is told which clause a fetch stands in: the words of a fetch do not say of which kind it is, and rule 8 goes by the clause.
#![tactic(auto)]

mod four;
mod words;

ghost use Rattle.std.specs.Prelude.{◌≡◌};
ghost use Rattle.microcode.specs.Answer.{Done};
ghost use Rattle.microcode.specs.Buffer.{Answers, encoded_verdict};
ghost use Rattle.fetch_codec.specs.Fetch.{kind_of, form_kind};
ghost use Rattle.fetch_codec.specs.Buffer.{decode_of, found_of, decoded_from, encode_answer, encode_words, Rewritten, decoded_verdict, decode_number, encode_number};

use checks::{Place, Refusal, Verdict};
use formats::tex::{TexWord0, TexWord1, TexWord2};
use formats::vtx::{VtxWord0, VtxWord1Gpr, VtxWord1Sem, VtxWord2};
use microcode::{DecodeError, EncodeError};
use opcodes::cf::FetchKind;
use units::Words;

// The three forms of a fetch.
#[derive(Clone, Copy)]
pub enum Fetch {
    Tex(TexWord0, TexWord1, TexWord2),
    // A vertex fetch that names its destination register.
    VtxGpr(VtxWord0, VtxWord1Gpr, VtxWord2),
    // One that looks its destination up by a semantic id.
    VtxSem(VtxWord0, VtxWord1Sem, VtxWord2),
}

// The clause that a fetch stands in, by its opener.
#[derive(Clone, Copy, Debug, PartialEq, Eq)]
pub enum Clause {
    Tex,
    Vtx,
    VtxTc,
}

// What stands at a start: a fetch by its form, with its first three words as they are. Who needs the fields of one form only reads them from
// these, and a record that could be of any form is never made.
#[derive(Clone, Copy, Debug, PartialEq, Eq)]
pub enum Found {
    Tex(u32, u32, u32),
    VtxGpr(u32, u32, u32),
    VtxSem(u32, u32, u32),
}

// VTX and VTX_TC have the same fetches.
impl From<Clause> for FetchKind {
    ghost from_gives = { λ clause kind. kind ≡ kind_of clause };

    fn from(clause: Clause) -> FetchKind {
        match clause {
            Clause::Tex => FetchKind::Texture,
            Clause::Vtx | Clause::VtxTc => FetchKind::Vertex,
        }
    }
}

// The fetch at `start`, which may be any number. What is taken encodes at `start` to the same words. The answer by the paper's table: 2, 8 or
// 0, with place and slot 0.
pub fn decode(words: &[u32], start: Words, clause: Clause) -> Result<Fetch, DecodeError>
    ensures value { result ≡ decode_of clause words.now start }
    ensures rewritten { (f : Fetch) → result ≡ Ok f → Rewritten f words.now start }
    ensures answers { Answers (decoded_verdict result) (decode_number clause words.now start) }
{
    let found = find(words, start, clause)?;
    Ok(four::record(found))
}

// The form of the fetch at `start`, which may be any number, and its words.
pub fn find(words: &[u32], start: Words, clause: Clause) -> Result<Found, DecodeError>
    ensures value { result ≡ found_of clause words.now start }
    ensures result_value { decoded_from result ≡ decode_of clause words.now start }
{
    let Some([word0, word1, word2, word3, ..]) = words.get(start.0..) else {
        return Err(DecodeError::Outside);
    };
    four::found_in(FetchKind::from(clause), *word0, *word1, *word2, *word3)
}

// The words of `f` at `start`, which may be any number. Every other word stays, a refusal writes nothing, and what is written decodes to `f` in
// every clause of its kind. The answer by the paper's table: 21, 20 or 0, with place and slot 0.
pub fn encode(f: Fetch, out: &mut [u32], start: Words) -> Result<(), EncodeError>
    ensures value { result ≡ encode_answer f out.old start }
    ensures out_after { out.new ≡ encode_words f out.old start }
    ensures start_after { result ≡ Done → (clause : Clause) → kind_of clause ≡ form_kind f → decode_of clause out.new start ≡ Ok f }
    ensures answers { Answers (encoded_verdict result) (encode_number f out.old start) }
{
    microcode::write(words::of_fetch(f), out, start)
}

// The answer by the paper's table: number, place and slot. The encoder's is `microcode::encoded_verdict`.
pub fn decoded_verdict(d: Result<Fetch, DecodeError>) -> Verdict
    ensures { result ≡ decoded_verdict d }
{
    match d {
        Ok(_) => Ok(()),
        Err(DecodeError::Outside) => Err(Refusal::of_place(2, Place::Whole)),
        Err(DecodeError::NotTaken) => Err(Refusal::of_place(8, Place::Whole)),
    }
}
