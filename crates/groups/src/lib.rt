// Rules 11 to 15 on one group of ALU slots, read instruction by instruction.
//
// Document 01 orders a group's checks by rule first and by slot second, and a loop goes by slot. So `Seen` keeps for each rule the first
// instruction that breaks it, and the group's answer is read off at its end. Each instruction is decoded once.
#![tactic(auto)]

pub mod alu_units;
pub mod counts;

ghost use Rattle.std.specs.Prelude.{◌≡◌};
ghost use Rattle.groups.specs.Code as code;

use bits::read;
use counts::Count;
use formats::fields;
use grants::Limits;
use instructions::class_of;
use opcodes::alu::Issue;
use units::Slots;

// Rule 14's figures.
#[derive(Clone, Copy, Default)]
pub struct Issues {
    pub setters: Count,
    // Setters and kills together.
    pub issued: Count,
    pub kill: bool,
    pub mova: bool,
    pub relative: bool,
    pub reduction: bool,
    // One of the first four instructions is not in the unit of its number, or unlike the first.
    pub uneven: bool,
}

// What has been seen of a group's instructions, nothing by default.
#[derive(Clone, Copy, Default)]
pub struct Seen {
    // Literal quadwords, for rule 10.
    pub literals: u32,
    // Rules 11, 12, 13 and 15: the first instruction that breaks each, by how many slots it lies behind the group's first.
    pub numbers: Option<Slots>,
    pub fields: Option<Slots>,
    pub units: Option<Slots>,
    pub grants: Option<Slots>,
    // The units taken, as bits.
    pub taken: u32,
    pub issues: Issues,
}

// What a group breaks, by its number as in `checks::Refusal` and for its reason, and how many slots behind its first.
#[derive(Clone, Copy, Debug, PartialEq, Eq)]
pub struct GroupFault {
    pub rule: u8,
    pub behind: Slots,
}

// One instruction more, in slot j of the group; `first` is the high word of the group's first instruction.
#[tactic(auto, unfolding(crate::specs::Code::next_seen, crate::specs::Code::unit_of, instructions::specs::Instruction::bad_number))]
pub fn read_instruction(
    seen: Seen,
    limits: Limits,
    j: Slots,
    first: u32,
    low: u32,
    high: u32,
) -> Seen
    ensures { result ≡ code.next_seen limits j first low high seen }
{
    let class = class_of(high);
    let unit = alu_units::unit_by_code(seen.taken, class.unit as u32, read(high, fields::DST_CHAN));
    let bad_unit = alu_units::is_bad_unit(seen.taken, unit, read(high, fields::BANK_SWIZZLE));
    let uneven = alu_units::is_uneven(j, unit, first, high);
    let relative = instructions::has_relative(low, high);
    let granted = instructions::operands_granted(limits, low, high);
    Seen {
        literals: seen.literals.max(instructions::literals_of(low, high)),
        numbers: or_here(seen.numbers, j, !opcodes::alu::is_taken(class)),
        fields: or_here(seen.fields, j, instructions::is_bad_field(low, high)),
        units: or_here(seen.units, j, bad_unit),
        grants: or_here(seen.grants, j, !granted),
        taken: alu_units::occupy(seen.taken, unit),
        issues: next_issues(seen.issues, class.issue, relative, uneven),
    }
}

// The first broken rule of a group of `size` instructions; `may_kill` where kills may stand.
#[tactic(auto, unfolding(crate::specs::Code::fault_of, crate::specs::Code::first_fault))]
pub fn group_fault(seen: Seen, size: Slots, may_kill: bool) -> Result<(), GroupFault>
    ensures { result ≡ code.fault_of seen size.0 may_kill }
{
    kept_but_at(11, seen.numbers)?;
    kept_but_at(12, seen.fields)?;
    kept_but_at(13, seen.units)?;
    let bad_issue = is_bad_issue(seen.issues, size, may_kill);
    kept_but_at(14, bad_issue.then_some(Slots(0)))?;
    kept_but_at(15, seen.grants)
}

// A rule that is kept, unless it is broken there.
#[tactic(auto, unfolding(crate::specs::Code::first_fault))]
fn kept_but_at(rule: u8, first: Option<Slots>) -> Result<(), GroupFault>
    ensures { result ≡ code.first_fault rule first code.Clean }
{
    match first {
        Some(behind) => Err(GroupFault { rule, behind }),
        None => Ok(()),
    }
}

// Rule 14, from its figures.
#[tactic(auto, unfolding(crate::specs::Code::bad_issues))]
fn is_bad_issue(issues: Issues, size: Slots, may_kill: bool) -> bool
    ensures { result ≡ code.bad_issues issues size.0 may_kill }
{
    let wrong_kill = issues.kill & !may_kill;
    let wrong_mova = issues.mova & issues.relative;
    let wrong_reduction = issues.reduction & ((size.0 < 4) | issues.uneven);
    (issues.issued == Count::Several) | (wrong_kill | (wrong_mova | wrong_reduction))
}

// Rule 14's figures with one instruction more.
#[tactic(auto, unfolding(crate::specs::Code::next_issues, opcodes::specs::Alu::is_issue))]
fn next_issues(issues: Issues, issue: Issue, relative: bool, uneven: bool) -> Issues
    ensures { result ≡ code.next_issues issues issue relative uneven }
{
    let setter = issue == Issue::Predicate;
    let kill = issue == Issue::Kill;
    Issues {
        setters: issues.setters + Count::from(setter),
        issued: issues.issued + Count::from(setter | kill),
        kill: issues.kill | kill,
        mova: issues.mova | (issue == Issue::Mova),
        relative: issues.relative | relative,
        reduction: issues.reduction | (issue == Issue::Reduction),
        uneven: issues.uneven | uneven,
    }
}

// The instruction that broke a rule before, or else the one in slot j if it does.
fn or_here(first: Option<Slots>, j: Slots, broken: bool) -> Option<Slots>
    ensures { result ≡ code.or_here first j broken }
{
    first.or(broken.then_some(j))
}
