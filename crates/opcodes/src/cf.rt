// What a control-flow pair is, by its number.
ghost use Rattle.std.specs.Prelude.{◌≡◌, ◌<◌, ◌≤◌, ◌-◌};
ghost use Rattle.opcodes.specs.Numbers as numbers;

// What a fetch clause holds: VTX and VTX_TC open vertex fetches, TEX texture fetches.
#[derive(Clone, Copy, Debug, PartialEq, Eq)]
pub enum FetchKind {
    Vertex,
    Texture,
}

// Pairs that go to ADDR. LOOP_BREAK and LOOP_CONTINUE do the same: both go to a LOOP_END.
#[derive(Clone, Copy, Debug, PartialEq, Eq)]
pub enum Branch {
    LoopEnd,
    LoopStart,
    BreakOrContinue,
    Jump,
    Else,
    Pop,
}

#[derive(Clone, Copy, Debug, PartialEq, Eq)]
pub enum Control {
    // A variant and no None, since rule 5 is asked of numbers that aren't taken, too.
    NotTaken,
    Nop,
    Fetch(FetchKind),
    Branch(Branch),
    Export,
    // An ALU clause opener: whether it pushes M, and how many M it pops.
    Alu { pushes: bool, pops: usize },
}

// An ALU clause opener's number: 8 ALU, 9 PUSH_BEFORE, 10 POP_AFTER, 11 POP2_AFTER. Packs mix them, so no match tells them apart.
#[tactic(auto, unfolding(crate::specs::Numbers::cf_alu_control, crate::specs::Numbers::cf_alu))]
pub fn cf_alu_control(number: u32) -> Control
    ensures { result ≡ numbers.cf_alu_control number }
{
    if (number < 8) | (11 < number) {
        return Control::NotTaken;
    }
    Control::Alu {
        pushes: number == 9,
        pops: popped_by(number),
    }
}

// POP_AFTER pops one, POP2_AFTER two. By `saturating_sub` it takes two more machine instructions.
fn popped_by(number: u32) -> usize
    ensures { result ≡ number - 9 }
{
    if 9 < number { (number - 9) as usize } else { 0 }
}

// Any other pair's number. In two parts: of numbers that lie so close together the compiler can make a table, where what follows is the same for all;
// where it isn't, as in the judge, it is a jump (docs/MACHINE-CODE.md, "Pairs").
pub fn cf_control(number: u32) -> Control
    ensures { result ≡ numbers.cf_control number }
{
    if number < 15 {
        return low_control(number);
    }
    high_control(number)
}

#[tactic(auto, unfolding(crate::specs::Numbers::cf_control, crate::specs::Numbers::cf))]
fn low_control(number: u32) -> Control
    requires { number < 15 }
    ensures { result ≡ numbers.cf_control number }
{
    match number {
        // NOP
        0 => Control::Nop,
        // TEX
        1 => Control::Fetch(FetchKind::Texture),
        // VTX
        2 => Control::Fetch(FetchKind::Vertex),
        // VTX_TC
        3 => Control::Fetch(FetchKind::Vertex),
        5 => Control::Branch(Branch::LoopEnd),
        6 => Control::Branch(Branch::LoopStart),
        // LOOP_CONTINUE
        8 => Control::Branch(Branch::BreakOrContinue),
        // LOOP_BREAK
        9 => Control::Branch(Branch::BreakOrContinue),
        10 => Control::Branch(Branch::Jump),
        13 => Control::Branch(Branch::Else),
        14 => Control::Branch(Branch::Pop),
        _ => Control::NotTaken,
    }
}

#[tactic(auto, unfolding(crate::specs::Numbers::cf_control, crate::specs::Numbers::cf))]
fn high_control(number: u32) -> Control
    requires { 15 ≤ number }
    ensures { result ≡ numbers.cf_control number }
{
    match number {
        // EXPORT
        39 => Control::Export,
        // EXPORT_DONE
        40 => Control::Export,
        _ => Control::NotTaken,
    }
}

pub fn is_taken(control: Control) -> bool
    ensures { result ≡ numbers.is_taken control }
{
    !matches!(control, Control::NotTaken)
}

pub fn is_export(control: Control) -> bool
    ensures { result ≡ numbers.is_export control }
{
    matches!(control, Control::Export)
}
