// Rules 2 to 7 of document 01: the length, the end of the control-flow section, and what is asked of one control-flow pair.
//
// A pair is told apart once, by its high word; every rule then goes by what it is.
#![tactic(auto)]

ghost use Rattle.std.specs.Prelude.{◌≡◌};
ghost use Rattle.units.specs.Units.{quadwords};
ghost use Rattle.section.specs.Control.{searched, end_of, control_of};
ghost use Rattle.section.specs.Rules.{bad_length, is_not_taken, bad_field, alu_clause, fetch_clause, clause_of, range_of, outside, bad_range, bad_export};
ghost use Rattle.section.specs.Code.{range_in_64};

mod export_rule;
mod field_rule;
mod numbers;

use bits::read;
use card::Kind;
use formats::fields;
use opcodes::cf::{Control, FetchKind};
use units::{Quadwords, Slots, Words};

// The end is looked for among the first 512 pairs.
const MOST_PAIRS: usize = 512;

// The clause that a pair opens: where it starts, how many slots or fetches it has, and what is to be known inside it.
#[derive(Clone, Copy)]
pub enum Clause {
    Alu {
        start: Quadwords,
        slots: Slots,
        // PUSH_BEFORE's holds exactly one predicate setter.
        push_before: bool,
        // Which constants of the two locked sets are granted.
        mode0: u32,
        mode1: u32,
    },
    Fetch {
        start: Quadwords,
        fetches: Slots,
        kind: FetchKind,
    },
}

// The quadwords of a clause: the first, and how many there are.
#[derive(Clone, Copy, Debug, PartialEq, Eq)]
pub struct Range {
    pub start: Quadwords,
    pub size: Quadwords,
}

impl Clause {
    // A slot takes one quadword, a fetch two.
    pub fn range(self) -> Range
        ensures { result ≡ range_in_64 (range_of self) }
    {
        match self {
            Clause::Alu { start, slots, .. } => Range {
                start,
                size: units::slots_length(slots),
            },
            Clause::Fetch { start, fetches, .. } => Range {
                start,
                size: units::fetches_length(fetches),
            },
        }
    }
}

// What a pair is, by its high word.
#[tactic(auto, unfolding(crate::specs::Control::control_of))]
pub fn control_of(high: u32) -> Control
    ensures { result ≡ control_of high }
{
    if numbers::is_alu_opener(high) {
        return opcodes::cf::cf_alu_control(read(high, fields::CF_ALU_INST));
    }
    opcodes::cf::cf_control(read(high, fields::CF_INST))
}

// Rule 2.
#[tactic(auto, using(crate::proofs::OfTests::length_told))]
pub fn is_bad_length(words: &[u32], quads: Quadwords) -> bool
    ensures { result ≡ bad_length words.now quads }
{
    words.len() != units::words_of(quads).0
}

// How many pairs the end is looked for in.
pub fn searched_pairs(words: &[u32]) -> Quadwords
    ensures { result ≡ quadwords (searched words.now) }
{
    units::whole_quadwords(Words(words.len())).min(Quadwords(MOST_PAIRS))
}

// The paper's end, e; where there is none, the number of pairs searched, which is rule 3 (a number and no Option, as `end_of` is one).
pub fn find_end(words: &[u32]) -> Quadwords
    ensures { result ≡ quadwords (end_of words.now) }
{
    let pairs = searched_pairs(words);
    for p in 0..pairs.0 {
        if numbers::is_end(words[units::high_word(Quadwords(p)).0]) {
            return Quadwords(p);
        }
    }
    pairs
}

// Rule 4.
#[tactic(auto, unfolding(crate::specs::Rules::is_not_taken))]
pub fn is_not_taken(control: Control) -> bool
    ensures { result ≡ is_not_taken control }
{
    !opcodes::cf::is_taken(control)
}

// Rule 5.
#[tactic(auto, unfolding(crate::specs::Rules::bad_field))]
pub fn is_bad_field(control: Control, high: u32) -> bool
    ensures { result ≡ bad_field control high }
{
    match control {
        Control::Nop | Control::Fetch(_) => field_rule::is_bad_still(high),
        Control::NotTaken | Control::Branch(_) => field_rule::is_bad_branch(high),
        Control::Export => field_rule::is_bad_reserved(high),
        Control::Alu { .. } => false,
    }
}

// The clause that a pair opens.
#[tactic(auto, unfolding(crate::specs::Rules::clause_of))]
pub fn clause_of(control: Control, low: u32, high: u32) -> Option<Clause>
    ensures { result ≡ clause_of control low high }
{
    match control {
        Control::Fetch(kind) => Some(fetch_clause(low, high, kind)),
        Control::Alu { pushes, .. } => Some(alu_clause(low, high, pushes)),
        Control::NotTaken | Control::Nop | Control::Branch(_) | Control::Export => None,
    }
}

fn alu_clause(low: u32, high: u32, pushes: bool) -> Clause
    ensures { result ≡ alu_clause pushes low high }
{
    let count = Slots(read(high, fields::CF_ALU_COUNT) as usize);
    Clause::Alu {
        start: Quadwords(read(low, fields::CF_ALU_ADDR) as usize),
        slots: units::counted_by(count),
        push_before: pushes,
        mode0: read(low, fields::KCACHE_MODE0),
        mode1: read(high, fields::KCACHE_MODE1),
    }
}

fn fetch_clause(low: u32, high: u32, kind: FetchKind) -> Clause
    ensures { result ≡ fetch_clause kind low high }
{
    Clause::Fetch {
        start: Quadwords(read(low, fields::ADDR) as usize),
        fetches: units::counted_by(formats::cf::read_count(high)),
        kind,
    }
}

// Rule 6. (The two kinds part here, as in `apart::seen_with` and for its reason.)
#[tactic(auto, using(crate::proofs::OfTests::capped_outside), unfolding(crate::specs::Rules::bad_range))]
pub fn is_bad_range(end: Quadwords, quads: Quadwords, clause: Option<Clause>) -> bool
    ensures { result ≡ bad_range end quads clause }
{
    let Some(clause) = clause else {
        return false;
    };
    match clause {
        Clause::Alu { .. } => is_outside(end, quads, clause.range()),
        Clause::Fetch { .. } => is_outside(end, quads, clause.range()),
    }
}

// Not behind the end, or not inside the buffer.
#[tactic(auto, unfolding(crate::specs::Rules::outside))]
fn is_outside(end: Quadwords, quads: Quadwords, range: Range) -> bool
    ensures { result ≡ outside end quads range }
{
    range.start <= end || !units::ends_by(range.start, range.size, quads)
}

// Rule 7, which no other pair breaks.
#[tactic(auto, unfolding(crate::specs::Rules::bad_export))]
pub fn is_bad_export(control: Control, kind: Kind, gprs: u32, low: u32, high: u32) -> bool
    ensures { result ≡ bad_export control kind gprs low high }
{
    opcodes::cf::is_export(control) && export_rule::is_bad_export_pair(kind, gprs, low, high)
}
