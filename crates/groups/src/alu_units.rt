// Rule 13: the unit that an instruction gets, and whether it may have it. Units 0 to 3 are X, Y, Z, W, and then comes Trans; the
// units taken are the bits of a number. No branch goes by what a pack holds, since none of them could be foreseen: so a unit stays the number of
// its bit, and no enum.
ghost use Rattle.std.specs.Prelude.{◌≡◌, ◌%◌};
ghost use Rattle.groups.specs.Group.{is_alike};
ghost use Rattle.groups.specs.Code.{occupied, moves_by, unit_by, taken_from, bad_unit, is_uneven};

use bits::{field, read, with_bit};
use formats::fields;
use units::Slots;

const TRANS: u32 = 4;

// The units taken, with that one too.
#[tactic(auto, unfolding(crate::specs::Code::occupied))]
pub fn occupy(taken: u32, unit: u32) -> u32
    ensures { result ≡ occupied taken unit }
{
    with_bit(taken, unit)
}

// 1 where an instruction goes to Trans, of a class by its number (opcodes, code_of), and else 0: by bits, since a choice here would be a branch.
#[tactic(auto, using(crate::proofs::OfTally::moves_by_lem))]
fn moves(taken: u32, code: u32, chan: u32) -> u32
    ensures { result ≡ moves_by taken (code % 4) chan }
{
    let unit = code % 4;
    (unit / 2 | field(taken, chan, 1)) & (unit % 2)
}

// The unit that an instruction of this class, by its number, gets with this DST_CHAN.
#[tactic(auto, unfolding(crate::specs::Code::moves_by, crate::specs::Code::unit_by))]
pub fn unit_by_code(taken: u32, code: u32, chan: u32) -> u32
    ensures { result ≡ unit_by taken (code % 4) chan }
{
    if moves(taken, code, chan) == 1 {
        TRANS
    } else {
        chan
    }
}

// Whether that unit or one above it is taken; there are five.
#[tactic(auto, unfolding(crate::specs::Code::taken_from))]
fn taken_from(taken: u32, unit: u32) -> bool
    ensures { result ≡ taken_from taken unit }
{
    field(taken, unit, 5) != 0
}

#[tactic(auto, unfolding(crate::specs::Code::bad_unit))]
pub fn is_bad_unit(taken: u32, unit: u32, swizzle: u32) -> bool
    ensures { result ≡ bad_unit taken unit swizzle }
{
    taken_from(taken, unit) | ((unit == TRANS) & (3 < swizzle))
}

// Whether a reduction's group is broken by the instruction in its slot j, in that unit: it is one of the first four, and not in the unit
// of its number or unlike the group's first in number, OMOD or CLAMP. Units rise where rule 13 is kept, so this is what rule 14 asks.
#[tactic(auto, unfolding(crate::specs::Code::is_uneven))]
pub(crate) fn is_uneven(j: Slots, unit: u32, first: u32, high: u32) -> bool
    ensures { result ≡ is_uneven j.0 unit first high }
{
    (j.0 < 4) & !((unit as usize == j.0) & is_alike(first, high))
}

// Whether two have one number, equal OMOD and CLAMP.
#[tactic(auto, unfolding(crate::specs::Group::is_alike))]
pub fn is_alike(a: u32, b: u32) -> bool
    ensures { result ≡ is_alike a b }
{
    let number = read(a, fields::OP2_INST) == read(b, fields::OP2_INST);
    let omod = read(a, fields::OMOD) == read(b, fields::OMOD);
    let clamp = read(a, fields::CLAMP) == read(b, fields::CLAMP);
    number & (omod & clamp)
}
