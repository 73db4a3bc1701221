// The end of a call in EPaxos or SwiftPaxos: the answer of the core, and what becomes of the fast half.
#![tactic(auto)]

ghost use Rattle.std.specs.Prelude.{◌≡◌};
ghost use Rattle.direct_fast.specs.finish.FastCall.{fast_finish};

use direct::handlers::CoreAnswer;
use fast_state::FastChange;
use message::Refusal;
use steps::{Asked, ChangeStep, Next};

// What becomes of the fast half: a change, or a commit clears it, which is a case of its own and no None, since no change is missing.
#[derive(Clone, Copy)]
pub enum After {
    Changed(FastChange),
    Cleared,
}

// What a call that is taken makes of the core and of the fast half.
#[derive(Clone, Copy)]
pub struct HalfAnswer {
    pub answer: CoreAnswer,
    pub after: After,
}

// A step becomes an answer, as in the classic modes. A commit needs its value.
pub fn fast_finish(
    asked: Asked,
    held: bool,
    step: Result<ChangeStep, Refusal>,
) -> Result<HalfAnswer, Refusal>
    ensures { result ≡ fast_finish asked held step }
{
    let step = step?;
    match step.next {
        Next::Stays | Next::Continues => Ok(HalfAnswer {
            answer: direct::handlers::core_sends(step.core, step.messages),
            after: After::Changed(step.change),
        }),
        Next::Commits(v) if held => Ok(HalfAnswer {
            answer: direct::handlers::core_committed(asked, v, step.core, step.messages),
            after: After::Cleared,
        }),
        Next::Commits(_) => Err(Refusal::ValueNotHeld),
    }
}
