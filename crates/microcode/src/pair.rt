// What two words hold, form by form.
ghost use Rattle.std.specs.Prelude.{◌≡◌};
ghost use Rattle.microcode.specs.Pair.{opener_pair_of, cf_pair_of, alu_pair_of};
ghost use Rattle.microcode.specs.Buffer.{decoded_from, record_found};

use crate::{DecodeError, FoundPair, Instruction};
use bits::read;
use formats::alu::{AluWord0, AluWord1Op2, AluWord1Op3};
use formats::cf::{CfWord0, CfWord1};
use formats::cf_alu::{CfAluWord0, CfAluWord1};
use formats::export::{CfAllocExportWord0, CfAllocExportWord1Swiz};
use formats::{Format, fields};

// The form that two words have in the control-flow section, where their number is taken.
pub(crate) fn cf_pair(low: u32, high: u32) -> Result<FoundPair, DecodeError>
    ensures { decoded_from result ≡ cf_pair_of low high }
{
    if read(high, fields::CF_ALU_MARK) == 1 {
        return opener_pair(low, high);
    }
    let control = opcodes::cf::cf_control(read(high, fields::CF_INST));
    if opcodes::cf::is_export(control) {
        return Ok(FoundPair::Export(low, high));
    }
    if opcodes::cf::is_taken(control) {
        return Ok(FoundPair::Cf(low, high));
    }
    Err(DecodeError::NotTaken)
}

// A control-flow pair with bit 29 set: an ALU clause opener.
fn opener_pair(low: u32, high: u32) -> Result<FoundPair, DecodeError>
    ensures { decoded_from result ≡ opener_pair_of low high }
{
    let control = opcodes::cf::cf_alu_control(read(high, fields::CF_ALU_INST));
    if opcodes::cf::is_taken(control) {
        return Ok(FoundPair::CfAlu(low, high));
    }
    Err(DecodeError::NotTaken)
}

// The form that two words have in an ALU clause, where their number is taken.
pub(crate) fn alu_pair(low: u32, high: u32) -> Result<FoundPair, DecodeError>
    ensures { decoded_from result ≡ alu_pair_of low high }
{
    if read(high, fields::OP3_MARK) == 0 {
        let class = opcodes::alu::op2_class(read(high, fields::OP2_INST));
        if opcodes::alu::is_taken(class) {
            return Ok(FoundPair::Op2(low, high));
        }
        return Err(DecodeError::NotTaken);
    }
    let class = opcodes::alu::op3_class(read(high, fields::OP3_INST));
    if opcodes::alu::is_taken(class) {
        return Ok(FoundPair::Op3(low, high));
    }
    Err(DecodeError::NotTaken)
}

// The record that was found.
pub(crate) fn record(found: FoundPair) -> Instruction
    ensures { result ≡ record_found found }
{
    match found {
        FoundPair::CfAlu(low, high) => Instruction::CfAlu(
            CfAluWord0::read(low),
            CfAluWord1::read(high),
        ),
        FoundPair::Cf(low, high) => Instruction::Cf(CfWord0::read(low), CfWord1::read(high)),
        FoundPair::Export(low, high) => Instruction::Export(
            CfAllocExportWord0::read(low),
            CfAllocExportWord1Swiz::read(high),
        ),
        FoundPair::Op2(low, high) => Instruction::Op2(AluWord0::read(low), AluWord1Op2::read(high)),
        FoundPair::Op3(low, high) => Instruction::Op3(AluWord0::read(low), AluWord1Op3::read(high)),
    }
}
