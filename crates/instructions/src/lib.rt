// What rules 10 to 15 ask of one ALU instruction by itself, from its two words.
//
// Each question is a function of the words, so that a caller reads an instruction's words once and asks what it needs; the compiler
// shares the shifts and masks. Nothing branches on what a pack holds, since no branch could be foreseen: tests are joined by | and &.
#![tactic(auto)]

ghost use Rattle.std.specs.Prelude.{◌≡◌};
ghost use Rattle.grants.specs.Grants.{all_granted};
ghost use Rattle.instructions.specs.Instruction as instruction;
ghost use Rattle.opcodes.specs.Code.{code_of};
ghost use Rattle.instructions.specs.Code.{source_in, sources_of, third_of, third_word};

use bits::{Bits, read};
use formats::fields;
use grants::Limits;
use opcodes::alu::Class;

// A source operand as its format has it.
#[derive(Clone, Copy, Debug, PartialEq, Eq)]
pub struct Source {
    pub sel: u32,
    pub rel: u32,
    pub chan: u32,
}

#[tactic(auto, unfolding(crate::specs::Instruction::is_op3))]
pub fn is_op3(high: u32) -> bool
    ensures { result ≡ instruction.is_op3 high }
{
    read(high, fields::OP3_MARK) != 0
}

// The class of the instruction's number.
#[tactic(auto, unfolding(crate::specs::Instruction::class_of))]
pub fn class_of(high: u32) -> Class
    ensures { result ≡ instruction.class_of high }
{
    if is_op3(high) {
        opcodes::alu::op3_class(read(high, fields::OP3_INST))
    } else {
        opcodes::alu::op2_class(read(high, fields::OP2_INST))
    }
}

// The same as one number, looked up without a branch.
#[tactic(auto, using(crate::proofs::OfInstruction::class_numbered_lem))]
pub fn class_code(high: u32) -> u32
    ensures { result ≡ code_of (instruction.class_of high) }
{
    opcodes::alu::class_code(read(high, fields::OP2_INST))
}

// The word that has a third source where ALU_WORD1_OP3 has its own: an OP2's is its first source once more, of which nothing more is asked.
pub fn third_word(low: u32, high: u32) -> u32
    ensures { result ≡ third_word low high }
{
    if is_op3(high) { high } else { low }
}

fn read_source(word: u32, sel: Bits, rel: Bits, chan: Bits) -> Source
    ensures { result ≡ source_in word sel rel chan }
{
    Source {
        sel: read(word, sel),
        rel: read(word, rel),
        chan: read(word, chan),
    }
}

// Source 2 of an OP3, and what stands for it in an OP2.
#[tactic(auto, unfolding(crate::specs::Code::third_of))]
fn third_source(high: u32) -> Source
    ensures { result ≡ third_of high }
{
    let op3 = is_op3(high);
    let third = read_source(high, fields::SRC2_SEL, fields::SRC2_REL, fields::SRC2_CHAN);
    Source {
        sel: if op3 { third.sel } else { 248 },
        rel: if op3 { third.rel } else { 0 },
        chan: if op3 { third.chan } else { 0 },
    }
}

// The sources that the rules are asked of.
pub fn sources(low: u32, high: u32) -> [Source; 3]
    ensures { result ≡ sources_of low high }
{
    [
        read_source(low, fields::SRC0_SEL, fields::SRC0_REL, fields::SRC0_CHAN),
        read_source(low, fields::SRC1_SEL, fields::SRC1_REL, fields::SRC1_CHAN),
        third_source(high),
    ]
}

impl Source {
    #[tactic(auto, unfolding(crate::specs::Instruction::is_relative))]
    fn is_relative(self) -> bool
        ensures { result ≡ instruction.is_relative self }
    {
        self.rel != 0
    }

    #[tactic(auto, unfolding(crate::specs::Instruction::source_literals))]
    fn literals(self) -> u32
        ensures { result ≡ instruction.source_literals self }
    {
        if self.sel == 253 {
            self.chan / 2 + 1
        } else {
            0
        }
    }

    #[tactic(auto, unfolding(crate::specs::Instruction::bad_source))]
    fn is_bad(self) -> bool
        ensures { result ≡ instruction.bad_source self }
    {
        matches!(self.sel, 192..=247) | (matches!(self.sel, 248..=255) & self.is_relative())
    }

    #[tactic(auto, unfolding(crate::specs::Instruction::names_of))]
    fn is_granted(self, limits: Limits) -> bool
        ensures { result ≡ all_granted limits (instruction.names_of self) }
    {
        self.is_relative() | grants::source_granted(limits, self.sel)
    }
}

// How many literal quadwords the instruction asks its group for.
#[tactic(auto, using(crate::proofs::OfInstruction::third_literals), unfolding(crate::specs::Instruction::literals))]
pub fn literals_of(low: u32, high: u32) -> u32
    ensures { result ≡ instruction.literals low high }
{
    let [first, second, third] = sources(low, high);
    first
        .literals()
        .max(second.literals())
        .max(third.literals())
}

// Rule 12.
#[tactic(auto, using(crate::proofs::OfInstruction::third_bad), unfolding(crate::specs::Instruction::bad_field))]
pub fn is_bad_field(low: u32, high: u32) -> bool
    ensures { result ≡ instruction.bad_field low high }
{
    let predicate = read(low, fields::PRED_SEL) == 1;
    let index = 4 < read(low, fields::INDEX_MODE);
    let swizzle = 5 < read(high, fields::BANK_SWIZZLE);
    let [first, second, third] = sources(low, high);
    predicate | (index | (swizzle | (first.is_bad() | (second.is_bad() | third.is_bad()))))
}

// Whether any relative bit is set, which a MOVA's group must not have.
#[tactic(auto, using(crate::proofs::OfInstruction::third_relative), unfolding(crate::specs::Instruction::has_relative))]
pub fn has_relative(low: u32, high: u32) -> bool
    ensures { result ≡ instruction.has_relative low high }
{
    let destination = read(high, fields::DST_REL) != 0;
    let [first, second, third] = sources(low, high);
    destination | (first.is_relative() | (second.is_relative() | third.is_relative()))
}

// Whether the destination is written.
#[tactic(auto, unfolding(crate::specs::Instruction::is_written))]
pub fn is_written(high: u32) -> bool
    ensures { result ≡ instruction.is_written high }
{
    is_op3(high) | (read(high, fields::WRITE_MASK) == 1)
}

#[tactic(auto, unfolding(crate::specs::Instruction::destination_names))]
fn destination_granted(limits: Limits, high: u32) -> bool
    ensures { result ≡ all_granted limits (instruction.destination_names high) }
{
    let named = is_written(high) & (read(high, fields::DST_REL) == 0);
    !named | grants::alu_register_granted(limits, read(high, fields::DST_GPR))
}

// Rule 15: destination, then sources.
#[tactic(auto, using(grants::proofs::OfGrants::all_joined, crate::proofs::OfInstruction::third_names), unfolding(crate::specs::Instruction::named))]
pub fn operands_granted(limits: Limits, low: u32, high: u32) -> bool
    ensures { result ≡ all_granted limits (instruction.named low high) }
{
    let destination = destination_granted(limits, high);
    let [first, second, third] = sources(low, high);
    destination
        & (first.is_granted(limits) & (second.is_granted(limits) & third.is_granted(limits)))
}
