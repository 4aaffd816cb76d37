// What four words hold, form by form.
ghost use Rattle.std.specs.Prelude.{◌≡◌};
ghost use Rattle.fetch_codec.specs.Buffer.{four_found, record_found};

use crate::{Fetch, Found};
use bits::read;
use formats::{Format, fields};
use microcode::DecodeError;
use opcodes::cf::FetchKind;

// The form that four words have in a clause of that kind, where rule 8 takes them.
pub(crate) fn found_in(
    kind: FetchKind,
    word0: u32,
    word1: u32,
    word2: u32,
    word3: u32,
) -> Result<Found, DecodeError>
    ensures { result ≡ four_found kind word0 word1 word2 word3 }
{
    let number = read(word0, fields::FETCH_INST);
    let bad = fetches::is_bad(kind, number, word3);
    match kind {
        FetchKind::Texture => {
            if bad {
                return Err(DecodeError::NotTaken);
            }
            Ok(Found::Tex(word0, word1, word2))
        }
        // The form is asked for before rule 8, so that the branch that can't be foreseen is the first.
        FetchKind::Vertex => {
            if fetches::is_semantic(FetchKind::Vertex, number) {
                if bad {
                    return Err(DecodeError::NotTaken);
                }
                return Ok(Found::VtxSem(word0, word1, word2));
            }
            if bad {
                return Err(DecodeError::NotTaken);
            }
            Ok(Found::VtxGpr(word0, word1, word2))
        }
    }
}

// The record that was found.
pub(crate) fn record(found: Found) -> Fetch
    ensures { result ≡ record_found found }
{
    match found {
        Found::Tex(word0, word1, word2) => Fetch::Tex(
            Format::read(word0),
            Format::read(word1),
            Format::read(word2),
        ),
        Found::VtxGpr(word0, word1, word2) => Fetch::VtxGpr(
            Format::read(word0),
            Format::read(word1),
            Format::read(word2),
        ),
        Found::VtxSem(word0, word1, word2) => Fetch::VtxSem(
            Format::read(word0),
            Format::read(word1),
            Format::read(word2),
        ),
    }
}
