// Rule 18: targets.
ghost use Rattle.std.specs.Prelude.{◌≡◌};
ghost use Rattle.walk.specs.Rules.{is_loop_end, is_forward, is_backward, wrong_target};
ghost use Rattle.walk.specs.Flow.{flow_at};

use crate::{Flow, flow_of};
use opcodes::cf::Branch;
use units::Quadwords;

// What stands at a place. A pair that does not lie wholly in the words has a high word of 0, and so does nothing.
pub(crate) fn flow_at(words: &[u32], p: Quadwords) -> Flow
    ensures { result ≡ flow_at words.now p.0 }
{
    let at = units::high_word(p).0;
    if at >= words.len() {
        return Flow::Still;
    }
    let high = words[at];
    let low = words[units::low_word(p).0];
    flow_of(section::control_of(high), low, high)
}

#[tactic(auto, unfolding(crate::specs::Rules::is_loop_end))]
pub(crate) fn is_loop_end_at(words: &[u32], p: Quadwords) -> bool
    ensures { result ≡ is_loop_end (flow_at words.now p.0) }
{
    let flow = flow_at(words, p);
    matches!(
        flow,
        Flow::Branch {
            kind: Branch::LoopEnd,
            ..
        }
    )
}

// Targets lie in the section and above p ..
#[tactic(auto, unfolding(crate::specs::Rules::is_forward))]
fn is_forward(end: Quadwords, p: Quadwords, target: Quadwords) -> bool
    ensures { result ≡ is_forward end.0 p.0 target.0 }
{
    p < target && target <= end
}

// .. but for LOOP_END's, which is at most p.
#[tactic(auto, unfolding(crate::specs::Rules::is_backward))]
fn is_backward(end: Quadwords, p: Quadwords, target: Quadwords) -> bool
    ensures { result ≡ is_backward end.0 p.0 target.0 }
{
    target <= p && target <= end
}

// Rule 18 at p, where `flow` stands: BREAK and CONTINUE hit a LOOP_END.
#[tactic(auto, unfolding(crate::specs::Rules::wrong_target))]
pub(crate) fn is_wrong(words: &[u32], flow: Flow, end: Quadwords, p: Quadwords) -> bool
    ensures { result ≡ wrong_target end.0 (flow_at words.now) p.0 flow }
{
    let Flow::Branch { kind, target, .. } = flow else {
        return false;
    };
    match kind {
        Branch::LoopEnd => !is_backward(end, p, target),
        Branch::BreakOrContinue => !(is_forward(end, p, target) && is_loop_end_at(words, target)),
        Branch::LoopStart | Branch::Jump | Branch::Else | Branch::Pop => {
            !is_forward(end, p, target)
        }
    }
}
