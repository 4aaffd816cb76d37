// Room for what the programs read and write.
ghost use Rattle.std.specs.Prelude.{◌≡◌, ◌≤◌, replicate};
ghost use Rattle.console.specs.Rooms.{HoldsInput, HoldsCard, HoldsPack, HoldsReport, HoldsExplanation};

// A byte more than the longest card and the longest pack have: what stands behind those changes no report and no explanation, so an
// endless input is answered, too.
pub const INPUT: usize = 65610;

// The same for a card and a pack in files of their own.
pub const CARD: usize = 74;

pub const PACK: usize = 65537;

// The longest report.
pub const REPORT: usize = 111;

// The longest explanation.
pub const EXPLANATION: usize = 156;

// Empty room for so many bytes.
pub fn room<const N: usize>() -> [u8; N]
    ensures value { result ≡ replicate N 0 }
    ensures holds_input { INPUT ≤ N → HoldsInput result }
    ensures holds_card { CARD ≤ N → HoldsCard result }
    ensures holds_pack { PACK ≤ N → HoldsPack result }
    ensures holds_report { REPORT ≤ N → HoldsReport result }
    ensures holds_explanation { EXPLANATION ≤ N → HoldsExplanation result }
{
    [0; N]
}
