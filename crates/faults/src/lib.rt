// The first number of an instruction that is not granted, and the first of its sort that is not: what rules 9 and 15 have to tell.
//
// It is asked only of an instruction that a verdict names, so each operand is looked at, whatever the others are.
#![tactic(auto)]

ghost use Rattle.std.specs.Prelude.{◌≡◌, cond, None, [], ◌∷◌};
ghost use Rattle.grants.specs.Grants.{register};
ghost use Rattle.instructions.specs.Instruction as instruction;
ghost use Rattle.fetches.specs.Fetches as fetch;
ghost use Rattle.formats.specs.Fields.{◌of◌, FETCH_INST};
ghost use Rattle.faults.specs.Faults.{at_fault, first_fault};
ghost use Rattle.faults.specs.Code.{source_limit};

use bits::read;
use checks::NotGranted;
use formats::fields;
use grants::Limits;
use instructions::Source;
use opcodes::cf::FetchKind;

// Rule 15 on one instruction: destination, then sources.
#[tactic(auto, using(crate::proofs::OfFaults::joined_fault, instructions::proofs::OfInstruction::third_names), unfolding(instructions::specs::Instruction::named))]
pub fn instruction_fault(limits: Limits, low: u32, high: u32) -> Option<NotGranted>
    ensures { result ≡ first_fault limits (instruction.named low high) }
{
    let destination = destination_fault(limits, high);
    let [first, second, third] = instructions::sources(low, high).map(|source| source_fault(
        limits, source,
    ));
    destination.or(first).or(second).or(third)
}

// Rule 9 on one fetch, by its first two words: destination, then source.
#[tactic(auto, using(crate::proofs::OfFaults::joined_fault))]
pub fn fetch_fault(kind: FetchKind, limits: Limits, word0: u32, word1: u32) -> Option<NotGranted>
    ensures { result ≡ first_fault limits (fetch.named kind (FETCH_INST of word0) word0 word1) }
{
    let number = read(word0, fields::FETCH_INST);
    let destination = fetch_destination_fault(kind, number, limits, word1);
    let source = fetch_source_fault(limits, word0);
    destination.or(source)
}

// A number, unless it is granted.
fn unless(granted: bool, found: u32, limit: usize) -> Option<NotGranted>
    ensures { result ≡ cond granted None (at_fault found limit) }
{
    (!granted).then_some(NotGranted {
        found: found as usize,
        limit,
    })
}

#[tactic(auto, unfolding(crate::specs::Faults::first_fault, instructions::specs::Instruction::destination_names))]
fn destination_fault(limits: Limits, high: u32) -> Option<NotGranted>
    ensures { result ≡ first_fault limits (instruction.destination_names high) }
{
    if !instructions::is_written(high) || read(high, fields::DST_REL) != 0 {
        return None;
    }
    let r = read(high, fields::DST_GPR);
    unless(
        grants::alu_register_granted(limits, r),
        r,
        limits.gprs as usize,
    )
}

#[tactic(auto, unfolding(crate::specs::Faults::first_fault, instructions::specs::Instruction::names_of, instructions::specs::Instruction::is_relative))]
fn source_fault(limits: Limits, source: Source) -> Option<NotGranted>
    ensures { result ≡ first_fault limits (instruction.names_of source) }
{
    if source.rel != 0 {
        return None;
    }
    unless(
        grants::source_granted(limits, source.sel),
        source.sel,
        source_limit(limits, source.sel),
    )
}

// The first source of a sort that is not granted: registers, the two locked sets, the constant file.
fn source_limit(limits: Limits, sel: u32) -> usize
    ensures { result ≡ source_limit limits sel }
{
    match sel {
        0..=127 => limits.gprs as usize,
        128..=159 => 128 + grants::locked_by(limits.mode0) as usize,
        160..=191 => 160 + grants::locked_by(limits.mode1) as usize,
        _ => 256 + limits.consts as usize,
    }
}

// A semantic fetch looks its destination up, and names none.
#[tactic(auto, unfolding(crate::specs::Faults::first_fault))]
fn fetch_destination_fault(
    kind: FetchKind,
    number: u32,
    limits: Limits,
    word1: u32,
) -> Option<NotGranted>
    ensures { result ≡ first_fault limits (fetch.destination kind number word1) }
{
    if fetches::is_semantic(kind, number) || read(word1, fields::FETCH_DST_REL) != 0 {
        return None;
    }
    register_fault(limits, read(word1, fields::FETCH_DST_GPR))
}

#[tactic(auto, unfolding(crate::specs::Faults::first_fault))]
fn fetch_source_fault(limits: Limits, word0: u32) -> Option<NotGranted>
    ensures { result ≡ first_fault limits (fetch.source word0) }
{
    if read(word0, fields::FETCH_SRC_REL) != 0 {
        return None;
    }
    register_fault(limits, read(word0, fields::FETCH_SRC_GPR))
}

#[tactic(auto, unfolding(crate::specs::Faults::first_fault))]
fn register_fault(limits: Limits, r: u32) -> Option<NotGranted>
    ensures { result ≡ first_fault limits (register r ∷ []) }
{
    unless(grants::register_granted(limits, r), r, limits.gprs as usize)
}
