// Rules 10 to 15 on one ALU clause, for bench/ alone to link: `rt lib` here makes out/libbench_clause_c.a. What is exported is crate bench_clause's
// function of the same name.
#![tactic(auto)]

ghost use Rattle.std.specs.Prelude.{◌≡◌, not, eqb};
ghost use Rattle.units.specs.Units as counts;
ghost use Rattle.checks.specs.Checks.{first_broken};
ghost use Rattle.clauses.specs.Clause.{clause_checks};
ghost use Rattle.bench_clause.specs.Call.{kind_of, limits_of, answer_of};

// The clause of `count` slots from quadword `start` on. Kind, modes and the answer: specs/Call.antt.
#[unsafe(no_mangle)]
pub extern "C" fn zlatomruk_alu_clause(
    words: &[u32],
    start: usize,
    count: usize,
    push_before: u32,
    kind: u32,
    gprs: u32,
    temps: u32,
    consts: u32,
    modes: u32,
) -> u64
    ensures { result ≡ answer_of (first_broken (clause_checks (kind_of kind) (not (eqb push_before 0)) (limits_of gprs temps consts modes) words.now (counts.quadwords 0) (counts.quadwords start) (counts.slots count))) }
{
    bench_clause::zlatomruk_alu_clause(
        words,
        start,
        count,
        push_before,
        kind,
        gprs,
        temps,
        consts,
        modes,
    )
}
