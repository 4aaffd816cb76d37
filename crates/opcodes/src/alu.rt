// The class of each OP2 and OP3 number: where it may run, what counts against its group, how many sources it reads. The rows are in
// src/table.rt.
ghost use Rattle.std.specs.Prelude.{◌≡◌, ◌+◌, ◌<◌, ◌≤◌};
ghost use Rattle.opcodes.specs.Alu.{op2_class, op3_class, is_taken};
ghost use Rattle.opcodes.specs.Code.{code_of, class_numbered, place_of, class_placed, class_in, looked_up, unit_numbered, issue_numbered};

use crate::table;

// The unit class: any unit, one of the four vector units, or Trans.
#[derive(Clone, Copy, Debug, PartialEq, Eq)]
pub enum Unit {
    // A variant and no None, since rule 13 is asked of numbers that aren't taken, too.
    NotTaken,
    Any,
    Vector,
    Trans,
}

// The issue kind, by which rule 14 counts.
#[derive(Clone, Copy, Debug, PartialEq, Eq)]
pub enum Issue {
    Plain,
    Predicate,
    Kill,
    Mova,
    Reduction,
}

#[derive(Clone, Copy, Debug, PartialEq, Eq)]
pub struct Class {
    pub unit: Unit,
    pub issue: Issue,
    pub sources: u32,
}

const NOT_TAKEN: Class = Class {
    unit: Unit::NotTaken,
    issue: Issue::Plain,
    sources: 0,
};

// The class of an OP2 number.
#[tactic(auto, using(crate::proofs::OfTable::op2_looked_up))]
pub fn op2_class(number: u32) -> Class
    ensures { result ≡ op2_class number }
{
    looked_up::<0, { table::OP2_EIGHTS }>(number)
}

// The class of an OP3 number.
#[tactic(auto, using(crate::proofs::OfTable::op3_looked_up))]
pub fn op3_class(number: u32) -> Class
    ensures { result ≡ op3_class number }
{
    looked_up::<{ table::OP2_EIGHTS }, { table::OP3_EIGHTS }>(number)
}

// The class of a number by its table, of so many eights from eight FIRST on. Both are constants, since the compiler then knows of every eight that is
// looked up that there is one.
fn looked_up<const FIRST: u32, const EIGHTS: u32>(number: u32) -> Class
    requires { FIRST + EIGHTS ≤ 36 }
    ensures { result ≡ looked_up FIRST EIGHTS number }
{
    if EIGHTS <= number / 8 {
        return NOT_TAKEN;
    }
    class_in(table::eight_at(FIRST + number / 8), number % 8)
}

// The class of the instruction that has this number in bits 17:7 of its high word, as one number (specs/Code.antt, code_of): OP2 where it is below
// 256; an OP3 number is its bits from 6 on. No branch parts the two.
#[tactic(auto, using(crate::proofs::OfTable::placed_few, crate::proofs::OfTable::code_numbered, crate::proofs::OfTable::code_behind))]
pub fn class_code(number: u32) -> u32
    ensures { result ≡ code_of (class_numbered number) }
{
    if 2047 < number {
        return 0;
    }
    code_at(place_of(number))
}

// Where its row stands, the two tables one behind the other.
#[tactic(auto, unfolding(crate::specs::Code::place_of))]
fn place_of(number: u32) -> u32
    ensures { result ≡ place_of number }
{
    if number < 256 {
        number
    } else {
        256 + number / 64
    }
}

fn code_at(place: u32) -> u32
    requires { place < 288 }
    ensures { result ≡ code_of (class_placed place) }
{
    let eight = table::eight_at(place / 8);
    ((eight >> (place % 8 * 8)) % 256) as u32
}

// The class in row `row` of an eight, of 0 to 7.
#[tactic(auto, unfolding(crate::specs::Code::class_in))]
fn class_in(eight: u64, row: u32) -> Class
    requires { row < 8 }
    ensures { result ≡ class_in eight row }
{
    let code = ((eight >> (row * 8)) % 256) as u8;
    Class {
        unit: unit_numbered(code % table::ISSUE),
        issue: issue_numbered(code % table::SOURCE / table::ISSUE),
        sources: (code / table::SOURCE) as u32,
    }
}

fn unit_numbered(n: u8) -> Unit
    ensures { result ≡ unit_numbered n }
{
    match n {
        table::NOT_TAKEN => Unit::NotTaken,
        table::ANY => Unit::Any,
        table::VECTOR => Unit::Vector,
        _ => Unit::Trans,
    }
}

fn issue_numbered(n: u8) -> Issue
    ensures { result ≡ issue_numbered n }
{
    match n {
        table::PLAIN => Issue::Plain,
        table::PREDICATE => Issue::Predicate,
        table::KILL => Issue::Kill,
        table::MOVA => Issue::Mova,
        _ => Issue::Reduction,
    }
}

// Whether the number of a class is taken.
pub fn is_taken(class: Class) -> bool
    ensures { result ≡ is_taken class }
{
    class.unit != Unit::NotTaken
}
