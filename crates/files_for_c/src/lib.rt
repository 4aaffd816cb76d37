// The judge on files for C and Rust to link, by crate files_for_c_c, which exports it: a card and a pack as bytes, as `judge_files` reads them. A
// verdict comes back as one number (crate judge_for_c, specs/Packed.antt).
#![tactic(auto)]

ghost use Rattle.std.specs.Prelude.{◌≡◌};
ghost use Rattle.input.specs.Input.{judged_of_files};
ghost use Rattle.files_for_c.specs.Files.{packed_answer, FilesRead};

// The verdict on a pack's file by a card's, and whether the pack is released: then every walk of it is safe.
#[unsafe(no_mangle)]
pub extern "C" fn zlatomruk_judge_files(card: &[u8], pack: &[u8]) -> u64
    ensures value { result ≡ packed_answer (judged_of_files card.now pack.now) }
    ensures files_read { FilesRead card.now pack.now result }
{
    let judged = input::judge_files(card, pack);
    let released = report::is_released(judged.build, judged.verdict);
    judge_for_c::packed_number(judged.verdict, u64::from(released))
}
