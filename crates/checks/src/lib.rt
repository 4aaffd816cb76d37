// The verdict: what the judge answers. A rule goes by its number in document 01's table, "Numbers and what they mean". And an explanation,
// which is a verdict and what is to be said of it.
#![tactic(auto)]

ghost use Rattle.std.specs.Prelude.{◌≡◌};
ghost use Rattle.checks.specs.Verdict.{line_or_quadword, refusal, verdict_number, verdict_place, verdict_slot};

use units::{Quadwords, Slots};

// Where a refusal points, as the table's last column has it: the card or the pack as a whole, a line of the card counted from 1,
// or a quadword of the control-flow section.
#[derive(Clone, Copy, Debug, PartialEq, Eq)]
pub enum Place {
    Whole,
    Line(usize),
    Quadword(Quadwords),
}

// The number of the rule that is broken, and where. The number stays a `u8`, since a report and an explanation promise their bytes for every one
// (`report::write_report`, `report::write_explanation`), and the papers name the rules by nothing else.
#[derive(Clone, Copy, Debug, PartialEq, Eq)]
pub struct Refusal {
    pub rule: u8,
    pub place: Place,
    pub slot: Slots,
}

// Accepted, or refused.
pub type Verdict = Result<(), Refusal>;

// The first number in an instruction that is not granted, and the first of its sort that is not: registers, or constants of one of the sets.
// Only rules 9 and 15 have them.
#[derive(Clone, Copy, Debug, PartialEq, Eq)]
pub struct NotGranted {
    pub found: usize,
    pub limit: usize,
}

#[derive(Clone, Copy)]
pub struct Explanation {
    pub verdict: Verdict,
    pub fault: Option<NotGranted>,
}

impl Refusal {
    // A refusal that no slot belongs to.
    pub fn of_place(rule: u8, place: Place) -> Refusal
        ensures { result ≡ refusal rule place 0 }
    {
        Refusal {
            rule,
            place,
            slot: Slots(0),
        }
    }
}

// The report's verdict, place and slot.
pub fn verdict_number(v: Verdict) -> u8
    ensures { result ≡ verdict_number v }
{
    match v {
        Ok(()) => 0,
        Err(refusal) => refusal.rule,
    }
}

impl From<Place> for usize {
    ghost from_gives = { λ place n. n ≡ line_or_quadword place };

    fn from(place: Place) -> usize {
        match place {
            Place::Whole => 0,
            Place::Line(n) => n,
            Place::Quadword(q) => q.0,
        }
    }
}

pub fn verdict_place(v: Verdict) -> usize
    ensures { result ≡ verdict_place v }
{
    match v {
        Ok(()) => 0,
        Err(refusal) => usize::from(refusal.place),
    }
}

pub fn verdict_slot(v: Verdict) -> usize
    ensures { result ≡ verdict_slot v }
{
    match v {
        Ok(()) => 0,
        Err(refusal) => refusal.slot.0,
    }
}
