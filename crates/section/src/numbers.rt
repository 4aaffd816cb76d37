// The bits that every pair has in one place: whether it is an ALU clause opener, and the end bit.
ghost use Rattle.std.specs.Prelude.{◌≡◌};
ghost use Rattle.section.specs.Control.{is_alu_opener, is_end};

use bits::read;
use formats::fields;

// Bit 29 of the high word tells an ALU clause opener (CF_ALU) from any other pair.
#[tactic(auto, unfolding(crate::specs::Control::is_alu_opener))]
pub(crate) fn is_alu_opener(high: u32) -> bool
    ensures { result ≡ is_alu_opener high }
{
    read(high, fields::CF_ALU_MARK) == 1
}

// The end bit, 21, which in an ALU clause opener is part of COUNT.
#[tactic(auto, unfolding(crate::specs::Control::is_end))]
pub(crate) fn is_end(high: u32) -> bool
    ensures { result ≡ is_end high }
{
    !is_alu_opener(high) && read(high, fields::END_OF_PROGRAM) == 1
}
