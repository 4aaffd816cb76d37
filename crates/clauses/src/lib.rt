// Rules 10 to 15 on an ALU clause, group by group: document 01, "Groups of ALU slots".
#![tactic(auto)]

ghost use Rattle.std.specs.Prelude.{◌≡◌, ◌+◌, ◌*◌, ◌<◌, ◌≤◌, length};
ghost use Rattle.checks.specs.Checks.{first_broken};
ghost use Rattle.units.specs.Units as counts;
ghost use Rattle.clauses.specs.Clause.{is_pixel, clause_checks};
ghost use Rattle.clauses.specs.CodeRead.{step_of, group_of, push_verdict};

use bits::read;
use card::Kind;
use checks::{Place, Refusal, Verdict};
use formats::fields;
use grants::Limits;
use groups::counts::Count;
use groups::{GroupFault, Seen};
use units::{Quadwords, Slots, Words};

mod screen;

// A clause of `slots` slots from `start` on, and what it is granted; its opener stands at `place` and is PUSH_BEFORE or not.
#[derive(Clone, Copy)]
struct AluClause<'a> {
    pub words: &'a [u32],
    pub place: Quadwords,
    pub start: Quadwords,
    pub slots: Slots,
    pub push_before: bool,
    pub kind: Kind,
    pub limits: Limits,
    ghost inside: { 2 * (start.0 + slots.0) ≤ length words.now },
}

// A group as it was read: how many instructions it has, and what was seen of them.
#[derive(Clone, Copy)]
struct Group {
    pub size: Slots,
    pub seen: Seen,
}

// A group that breaks nothing: the slots that it takes and the setters in it.
#[derive(Clone, Copy)]
struct Passed {
    pub span: Slots,
    pub setters: Count,
}

const BAD_SHAPE: GroupFault = GroupFault {
    rule: 10,
    behind: Slots(0),
};

// The first broken check of rules 10 to 15 in such a clause.
pub fn alu_clause(
    words: &[u32],
    place: Quadwords,
    start: Quadwords,
    slots: Slots,
    push_before: bool,
    kind: Kind,
    limits: Limits,
) -> Verdict
    ensures { result ≡ first_broken (clause_checks kind push_before limits words.now place start slots) }
{
    // Where the clause does not lie in the buffer, rule 6 has refused it.
    if !units::slots_lie_in(Words(words.len()), start, slots) {
        return Ok(());
    }
    let clause = AluClause {
        words,
        place,
        start,
        slots,
        push_before,
        kind,
        limits,
    };
    if clause.is_clean() {
        return Ok(());
    }
    clause.first_fault()
}

impl AluClause<'_> {
    // The same, group by group, with all that the first broken rule is told by.
    fn first_fault(&self) -> Verdict
        ensures { result ≡ first_broken (clause_checks self.now.kind self.now.push_before self.now.limits self.now.words.now self.now.place self.now.start self.now.slots) }
    {
        let mut setters = Count::Nothing;
        // The first slot of the next group, which no range gives: a group says how many slots it takes.
        let mut first = Slots(0);
        while first < self.slots {
            match self.judge_group(first) {
                Ok(passed) => {
                    setters = setters + passed.setters;
                    first = units::slot_behind(first, passed.span);
                }
                Err(fault) => {
                    return Err(Refusal {
                        rule: fault.rule,
                        place: Place::Quadword(self.place),
                        slot: units::slot_behind(first, fault.behind),
                    });
                }
            }
        }
        self.push_verdict(setters)
    }

    // The group whose first slot that is.
    fn judge_group(&self, first: Slots) -> Result<Passed, GroupFault>
        requires { first.0 < self.now.slots.0 }
        ensures { result ≡ step_of self.now.limits (is_pixel self.now.kind) self.now.words.now (counts.slot_quadword self.now.start first) (counts.slots_left self.now.slots first) }
    {
        let left = units::slots_left(self.slots, first);
        let group = self.read_group(first).ok_or(BAD_SHAPE)?;
        let span = units::slot_behind(group.size, Slots(group.seen.literals as usize));
        if left < span {
            return Err(BAD_SHAPE);
        }
        groups::group_fault(group.seen, group.size, self.is_pixel() & (left <= span))?;
        Ok(Passed {
            span,
            setters: group.seen.issues.setters,
        })
    }

    // The same group, unless none of its first five instructions, or of those in the clause, has LAST set.
    fn read_group(&self, first: Slots) -> Option<Group>
        requires { first.0 < self.now.slots.0 }
        ensures { result ≡ group_of self.now.limits self.now.words.now (counts.slot_quadword self.now.start first) (counts.slots_left self.now.slots first) }
    {
        let at = units::slot_quadword(self.start, first).0;
        let left = units::slots_left(self.slots, first);
        let first_high = self.words[2 * at + 1];
        let mut seen = Seen::default();
        for j in 0..left.0.min(5) {
            let low = self.words[2 * (at + j)];
            let high = self.words[2 * (at + j) + 1];
            seen = groups::read_instruction(seen, self.limits, Slots(j), first_high, low, high);
            if read(low, fields::LAST) == 1 {
                return Some(Group {
                    size: Slots(j + 1),
                    seen,
                });
            }
        }
        None
    }

    // Rule 14 after all groups: PUSH_BEFORE holds exactly one predicate setter.
    #[tactic(auto, unfolding(crate::specs::CodeRead::push_verdict))]
    fn push_verdict(&self, setters: Count) -> Verdict
        ensures { result ≡ push_verdict self.now.push_before setters self.now.place }
    {
        if self.push_before & (setters != Count::One) {
            return Err(Refusal::of_place(14, Place::Quadword(self.place)));
        }
        Ok(())
    }

    #[tactic(auto, unfolding(crate::specs::Clause::is_pixel))]
    fn is_pixel(&self) -> bool
        ensures { result ≡ is_pixel self.now.kind }
    {
        self.kind == Kind::Pixel
    }
}
