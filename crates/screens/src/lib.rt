// One ALU instruction at a glance: whether it breaks rule 12 or 15 by itself, in as few steps as an accepted instruction needs.
//
// The sources that these rules refuse are gaps among the 1,024 values that SEL and REL have together, and each row of 32 values has one at
// most: so a source is looked up in a table of gaps, which is made once for a clause. Which rule is broken, and where, is left to
// `groups`. Branches go by what an accepted pack never has, so that each of them is foreseen.
#![tactic(auto)]

ghost use Rattle.std.specs.Prelude.{◌≡◌};
ghost use Rattle.screens.specs.Code.{gap, by_row, gaps_of, is_among, in_gap, writes_gap, bad_modes, asks_literal, is_second, asks_second, more_literals, broken_by};

use bits::{Bits, field, read};
use formats::fields;
use grants::Limits;
use instructions::{is_written, third_word};

// SEL and, above it, REL, as one number.
const SOURCE0: Bits = Bits(fields::SRC0_REL.0, fields::SRC0_SEL.1);

const SOURCE1: Bits = Bits(fields::SRC1_REL.0, fields::SRC1_SEL.1);

const SOURCE2: Bits = Bits(fields::SRC2_REL.0, fields::SRC2_SEL.1);

// INDEX_MODE and, above it, PRED_SEL; and a bit for each value of the two that rule 12 refuses: where PRED_SEL is 1 all, else INDEX_MODE 5 to 7.
const MODES: Bits = Bits(fields::PRED_SEL.0, fields::INDEX_MODE.1);

const REFUSED_MODES: u32 = 0xE0E0_FFE0;

// A destination's register and, above it, its relative bit.
const DESTINATION: Bits = Bits(fields::DST_REL.0, fields::DST_GPR.1);

// The numbers of a row that these rules refuse: `width` of them, from `start` on.
#[derive(Clone, Copy)]
pub struct Gap {
    pub start: u32,
    pub width: u32,
}

fn gap_from(start: u32, width: u32) -> Gap
    ensures { result ≡ gap start width }
{
    Gap { start, width }
}

// A gap for each row: registers, the two sets of locked constants, what is reserved among the inline constants, the constant
// file; then, with REL set, the inline constants.
fn by_row(regs: Gap, set0: Gap, set1: Gap, inline: Gap, consts: Gap, rel: Gap) -> [Gap; 32]
    ensures { result ≡ by_row regs set0 set1 inline consts rel }
{
    let none = gap_from(0, 0);
    [
        regs, regs, regs, regs, set0, set1, inline, inline, consts, consts, consts, consts, consts,
        consts, consts, consts, none, none, none, none, none, none, rel, rel, none, none, none,
        none, none, none, none, none,
    ]
}

// The gaps, by what a program is granted.
#[tactic(auto, unfolding(crate::specs::Code::gaps_of))]
pub fn gaps(limits: Limits) -> [Gap; 32]
    ensures { result ≡ gaps_of limits }
{
    let left = 128u32
        .saturating_sub(limits.temps)
        .saturating_sub(limits.gprs);
    let locked0 = grants::locked_by(limits.mode0);
    let locked1 = grants::locked_by(limits.mode1);
    let consts = limits.consts.min(256);
    by_row(
        gap_from(limits.gprs, left),
        gap_from(128 + locked0, 32 - locked0),
        gap_from(160 + locked1, 32 - locked1),
        gap_from(192, 56),
        gap_from(256 + consts, 256 - consts),
        gap_from(704, 64),
    )
}

// Whether x is one of a gap's numbers.
#[tactic(auto, using(crate::proofs::OfGaps::wrapped), unfolding(crate::specs::Code::is_among))]
fn is_among(x: u32, gap: Gap) -> bool
    ensures { result ≡ is_among x gap }
{
    x.wrapping_sub(gap.start) < gap.width
}

// Whether a value lies in the gap of its row.
#[tactic(auto, unfolding(crate::specs::Code::in_gap))]
fn in_gap(gaps: &[Gap; 32], x: u32) -> bool
    ensures { result ≡ in_gap gaps.now x }
{
    let row = (x / 32 % 32) as usize;
    is_among(x, gaps[row])
}

// Whether the destination is a register in the gap of registers, and written. Its relative bit makes it a number behind that gap, and so is what
// stands for one that is not written.
#[tactic(auto, unfolding(crate::specs::Code::writes_gap))]
fn writes_gap(gaps: &[Gap; 32], high: u32) -> bool
    ensures { result ≡ writes_gap gaps.now high }
{
    let register = if is_written(high) {
        read(high, DESTINATION)
    } else {
        255
    };
    is_among(register, gaps[0])
}

// Whether PRED_SEL is 1 or INDEX_MODE above 4.
#[tactic(auto, using(crate::proofs::OfGaps::bad_modes_lem))]
fn has_bad_modes(low: u32) -> bool
    ensures { result ≡ bad_modes low }
{
    field(REFUSED_MODES, read(low, MODES), 1) == 1
}

// Whether the instruction breaks rule 12 or 15, by the gaps.
#[tactic(auto, unfolding(crate::specs::Code::broken_by))]
pub fn breaks_alone(gaps: &[Gap; 32], low: u32, high: u32) -> bool
    ensures { result ≡ broken_by gaps.now low high }
{
    let modes = has_bad_modes(low);
    let swizzle = 5 < read(high, fields::BANK_SWIZZLE);
    if modes | swizzle {
        return true;
    }
    let first = in_gap(gaps, read(low, SOURCE0));
    let second = in_gap(gaps, read(low, SOURCE1));
    if first | second {
        return true;
    }
    if in_gap(gaps, read(third_word(low, high), SOURCE2)) {
        return true;
    }
    writes_gap(gaps, high)
}

// Whether a source is 253, a literal, without its relative bit; with it rule 12 is broken.
#[tactic(auto, unfolding(crate::specs::Code::asks_literal))]
fn asks_literal(low: u32, high: u32) -> bool
    ensures { result ≡ asks_literal low high }
{
    let first = read(low, SOURCE0) == 253;
    let second = read(low, SOURCE1) == 253;
    let third = read(third_word(low, high), SOURCE2) == 253;
    first | (second | third)
}

// Whether a literal is in channel Z or W, the second quadword's.
#[tactic(auto, unfolding(crate::specs::Code::asks_second))]
fn asks_second(low: u32, high: u32) -> bool
    ensures { result ≡ asks_second low high }
{
    let third = third_word(low, high);
    let first = is_second(read(low, fields::SRC0_SEL), read(low, fields::SRC0_CHAN));
    let second = is_second(read(low, fields::SRC1_SEL), read(low, fields::SRC1_CHAN));
    let last = is_second(
        read(third, fields::SRC2_SEL),
        read(third, fields::SRC2_CHAN),
    );
    first | (second | last)
}

#[tactic(auto, unfolding(crate::specs::Code::is_second))]
fn is_second(sel: u32, chan: u32) -> bool
    ensures { result ≡ is_second sel chan }
{
    (sel == 253) & (1 < chan)
}

// The literal quadwords of a group with this instruction in it, too, which breaks nothing by itself. Most have no literal, and to find the
// highest channel without a branch costs more than is lost by wrong guesses (docs/MACHINE-CODE.md).
#[tactic(auto, using(crate::proofs::OfGaps::none_asked))]
pub fn more_literals(so_far: u32, low: u32, high: u32) -> u32
    ensures { result ≡ more_literals so_far low high }
{
    if asks_literal(low, high) {
        return so_far.max(1 + asks_second(low, high) as u32);
    }
    so_far
}
