// The words of a record, form by form: what the encoder writes, where the record is of a taken form and each of its fields within its width. A
// caller that knows the form asks by it, so that nothing has to ask for the form again.
ghost use Rattle.std.specs.Prelude.{◌≡◌, ◌&&◌};
ghost use Rattle.bits.specs.Tables.{word_of, fits_table};
ghost use Rattle.microcode.specs.declared.Instruction.TheVariants as form;
ghost use Rattle.microcode.specs.Pair.{words_of, words_if};

use crate::Instruction;
use formats::Format;
use formats::alu::{AluWord0, AluWord1Op2, AluWord1Op3};
use formats::cf::{CfWord0, CfWord1};
use formats::cf_alu::{CfAluWord0, CfAluWord1};
use formats::export::{CfAllocExportWord0, CfAllocExportWord1Swiz};

pub(crate) fn of_record(i: Instruction) -> Option<[u32; 2]>
    ensures { result ≡ words_of i }
{
    match i {
        Instruction::CfAlu(a, b) => of_cf_alu(a, b),
        Instruction::Cf(a, b) => of_cf(a, b),
        Instruction::Export(a, b) => of_export(a, b),
        Instruction::Op2(a, b) => of_op2(a, b),
        Instruction::Op3(a, b) => of_op3(a, b),
    }
}

// Of a record whose form takes its number, or not.
fn of_words<A: Format, B: Format>(a: A, b: B, taken: bool) -> Option<[u32; 2]>
    ensures { result ≡ words_if (fits_table A.table (A.values a) && fits_table B.table (B.values b) && taken) (word_of A.table (A.values a)) (word_of B.table (B.values b)) }
{
    let is_record = a.fits() & b.fits() & taken;
    is_record.then_some([a.write(), b.write()])
}

pub fn of_cf_alu(a: CfAluWord0, b: CfAluWord1) -> Option<[u32; 2]>
    ensures { result ≡ words_of (form.CfAlu a b) }
{
    let control = opcodes::cf::cf_alu_control(b.cf_inst);
    of_words(a, b, opcodes::cf::is_taken(control))
}

pub fn of_cf(a: CfWord0, b: CfWord1) -> Option<[u32; 2]>
    ensures { result ≡ words_of (form.Cf a b) }
{
    let control = opcodes::cf::cf_control(b.cf_inst);
    of_words(
        a,
        b,
        opcodes::cf::is_taken(control) & !opcodes::cf::is_export(control),
    )
}

pub fn of_export(a: CfAllocExportWord0, b: CfAllocExportWord1Swiz) -> Option<[u32; 2]>
    ensures { result ≡ words_of (form.Export a b) }
{
    let control = opcodes::cf::cf_control(b.cf_inst);
    of_words(a, b, opcodes::cf::is_export(control))
}

pub fn of_op2(a: AluWord0, b: AluWord1Op2) -> Option<[u32; 2]>
    ensures { result ≡ words_of (form.Op2 a b) }
{
    let class = opcodes::alu::op2_class(b.alu_inst);
    of_words(a, b, opcodes::alu::is_taken(class))
}

pub fn of_op3(a: AluWord0, b: AluWord1Op3) -> Option<[u32; 2]>
    ensures { result ≡ words_of (form.Op3 a b) }
{
    let class = opcodes::alu::op3_class(b.alu_inst);
    of_words(a, b, opcodes::alu::is_taken(class))
}
