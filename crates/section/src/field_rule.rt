// Rule 5, on the high word of each sort of pair.
ghost use Rattle.std.specs.Prelude.{◌≡◌};
ghost use Rattle.section.specs.Rules.{bad_modes, bad_still, bad_branch, bad_reserved};

use bits::read;
use formats::fields;

// VALID_PIXEL_MODE and WHOLE_QUAD_MODE exclude each other.
#[tactic(auto, unfolding(crate::specs::Rules::bad_modes))]
fn has_both_modes(high: u32) -> bool
    ensures { result ≡ bad_modes high }
{
    read(high, fields::VALID_PIXEL_MODE) == 1 && read(high, fields::WHOLE_QUAD_MODE) == 1
}

// NOP and fetches: no condition.
#[tactic(auto, unfolding(crate::specs::Rules::bad_still))]
pub(crate) fn is_bad_still(high: u32) -> bool
    ensures { result ≡ bad_still high }
{
    read(high, fields::BIT_20) == 1 || has_both_modes(high) || read(high, fields::COND) != 0
}

// Those that move the stack or go to ADDR: no end bit.
#[tactic(auto, unfolding(crate::specs::Rules::bad_branch))]
pub(crate) fn is_bad_branch(high: u32) -> bool
    ensures { result ≡ bad_branch high }
{
    read(high, fields::BIT_20) == 1
        || has_both_modes(high)
        || read(high, fields::END_OF_PROGRAM) == 1
}

// Exports, whose bit 20 is BURST_COUNT's.
#[tactic(auto, unfolding(crate::specs::Rules::bad_reserved))]
pub(crate) fn is_bad_reserved(high: u32) -> bool
    ensures { result ≡ bad_reserved high }
{
    read(high, fields::BITS_16_12) != 0 || has_both_modes(high)
}
