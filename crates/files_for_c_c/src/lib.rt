// The judge on files for C and Rust to link: a part of libzlatomruk.a (tools/archive). What is exported is crate files_for_c's function of the same
// name.
//
// A slice is passed as a pointer and a length. A verdict comes back as one number (crate judge_for_c, specs/Packed.antt).
#![tactic(auto)]

ghost use Rattle.std.specs.Prelude.{◌≡◌};
ghost use Rattle.input.specs.Input.{judged_of_files};
ghost use Rattle.files_for_c.specs.Files.{packed_answer, FilesRead};

// The verdict on a pack's file by a card's, and whether the pack is released: then every walk of it is safe.
#[unsafe(no_mangle)]
pub extern "C" fn zlatomruk_judge_files(card: &[u8], pack: &[u8]) -> u64
    ensures value { result ≡ packed_answer (judged_of_files card.now pack.now) }
    ensures files_read { FilesRead card.now pack.now result }
{
    files_for_c::zlatomruk_judge_files(card, pack)
}
