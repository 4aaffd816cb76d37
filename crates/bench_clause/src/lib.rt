// Rules 10 to 15 on one ALU clause, for bench/ alone, which compares and times them beside plain Rust (crate bench_clause_c exports it).
//
// No part of the product: rule 6 is not asked here, so a clause outside of the words answers 0, as one that breaks nothing does.
#![tactic(auto)]

ghost use Rattle.std.specs.Prelude.{◌≡◌, not, eqb};
ghost use Rattle.units.specs.Units as counts;
ghost use Rattle.checks.specs.Checks.{first_broken};
ghost use Rattle.clauses.specs.Clause.{clause_checks};
ghost use Rattle.bench_clause.specs.Call.{kind_of, limits_of, answer_of};

use card::Kind;
use checks::Verdict;
use grants::Limits;
use units::{Quadwords, Slots};

// The clause of `count` slots from quadword `start` on. Kind, modes and the answer: specs/Call.antt.
#[unsafe(no_mangle)]
#[tactic(auto, unfolding(crate::specs::Call::limits_of))]
pub extern "C" fn zlatomruk_alu_clause(
    words: &[u32],
    start: usize,
    count: usize,
    push_before: u32,
    kind: u32,
    gprs: u32,
    temps: u32,
    consts: u32,
    modes: u32,
) -> u64
    ensures { result ≡ answer_of (first_broken (clause_checks (kind_of kind) (not (eqb push_before 0)) (limits_of gprs temps consts modes) words.now (counts.quadwords 0) (counts.quadwords start) (counts.slots count))) }
{
    let limits = Limits {
        gprs,
        temps,
        consts,
        mode0: modes % 4,
        mode1: modes / 4 % 4,
    };
    pack(clauses::alu_clause(
        words,
        Quadwords(0),
        Quadwords(start),
        Slots(count),
        push_before != 0,
        kind_of(kind),
        limits,
    ))
}

// By its number, since bench/ calls as C does.
#[tactic(auto, unfolding(crate::specs::Call::kind_of))]
fn kind_of(number: u32) -> Kind
    ensures { result ≡ kind_of number }
{
    match number {
        0 => Kind::Pixel,
        1 => Kind::Vertex,
        _ => Kind::Geometry,
    }
}

#[tactic(auto, unfolding(crate::specs::Call::answer_of))]
fn pack(v: Verdict) -> u64
    ensures { result ≡ answer_of v }
{
    let number = checks::verdict_number(v) as u64;
    let slot = checks::verdict_slot(v) as u64 % 0x1_0000;
    number + slot * 0x1_0000_0000
}
