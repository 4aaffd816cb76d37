// The words of a fetch, form by form: what the encoder writes, where its number is one of the form and each of its fields within its width.
ghost use Rattle.std.specs.Prelude.{◌≡◌, ◌&&◌};
ghost use Rattle.bits.specs.Tables.{word_of, fits_table};
ghost use Rattle.fetch_codec.specs.Fetch.{words_of, words_if};

use crate::Fetch;
use formats::Format;
use opcodes::cf::FetchKind;

pub(crate) fn of_fetch(f: Fetch) -> Option<[u32; 4]>
    ensures { result ≡ words_of f }
{
    match f {
        Fetch::Tex(a, b, c) => {
            let taken = opcodes::fetch_taken(FetchKind::Texture, a.tex_inst);
            of_words(a, b, c, taken)
        }
        Fetch::VtxGpr(a, b, c) => {
            let taken = opcodes::fetch_taken(FetchKind::Vertex, a.vtx_inst);
            let semantic = fetches::is_semantic(FetchKind::Vertex, a.vtx_inst);
            of_words(a, b, c, taken & !semantic)
        }
        Fetch::VtxSem(a, b, c) => {
            let taken = opcodes::fetch_taken(FetchKind::Vertex, a.vtx_inst);
            let semantic = fetches::is_semantic(FetchKind::Vertex, a.vtx_inst);
            of_words(a, b, c, taken & semantic)
        }
    }
}

// Of a record whose form takes its number, or not. The fourth word is 0.
fn of_words<A: Format, B: Format, C: Format>(a: A, b: B, c: C, taken: bool) -> Option<[u32; 4]>
    ensures { result ≡ words_if (fits_table A.table (A.values a) && fits_table B.table (B.values b) && fits_table C.table (C.values c) && taken) (word_of A.table (A.values a)) (word_of B.table (B.values b)) (word_of C.table (C.values c)) }
{
    let is_record = a.fits() & b.fits() & c.fits() & taken;
    is_record.then_some([a.write(), b.write(), c.write(), 0])
}
