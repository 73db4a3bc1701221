// The fast path of EPaxos: answers to a fast proposal, the commit that they bring, and the value that is adopted from them.
#![tactic(auto)]

ghost use Rattle.std.specs.Prelude.{◌≡◌};
ghost use Rattle.fast.specs.epaxos.EPaxos.{requester_of, epaxos_commit, adopting, epaxos_adopt, epaxos_decide, epaxos_answer};
ghost use Rattle.fast_state.specs.Adopt.{lowest_best};

use basics::tables::PerProcess;
use fast_state::{FastAnswers, FastChange};
use message::{PaxosRound, Refusal, RoundV};
use steps::{Asked, ChangeStep, Core, CoreStep, Heard};

// asked, heard and round are parameters of their own: 4 of these 6 functions take one or two of the three, and a struct of them is no plainer
// (classic::accept tells of a trial).

// The requester of a value by the host's two answers: the first is for the message's value v, and the second for the value that was
// held when the call came.
fn requester_of(heard: Heard, v: u64, held: u64) -> Option<u64>
    ensures { result ≡ requester_of heard v held }
{
    if held == v {
        return heard.requester;
    }
    heard.held_requester
}

fn epaxos_commit(asked: Asked, heard: Heard, v: u64, core: Core) -> CoreStep
    ensures { result ≡ epaxos_commit asked heard v core }
{
    let requester = requester_of(heard, v, steps::held_value(core.paxos.max_rv));
    let message = classic::accept::commit_message(asked, core, requester);
    core.commits(v, steps::one_message(message))
}

// An adopted value goes into the accept phase, for which a majority must have promised.
#[tactic(auto, unfolding(crate::specs::epaxos::EPaxos::adopting))]
fn adopting(asked: Asked, round: PaxosRound, v: u64, core: Core) -> Result<CoreStep, Refusal>
    ensures { result ≡ adopting asked round v core }
{
    let me = asked.member;
    if core.paxos.is_prepared(me) {
        let accepted = core.paxos.adopt_from_epaxos(me, round, v);
        return classic::prepare::after_own_accept(asked, round, core, accepted);
    }
    Err(Refusal::Panic)
}

fn epaxos_adopt(
    asked: Asked,
    round: PaxosRound,
    core: Core,
    adoption: Result<Option<u64>, Refusal>,
) -> Result<CoreStep, Refusal>
    ensures { result ≡ epaxos_adopt asked round core adoption }
{
    match adoption? {
        None => Ok(core.stays_silent()),
        Some(v) => adopting(asked, round, v, core),
    }
}

// Commit on the fast path, adopt a value, or wait for more answers.
#[tactic(auto, unfolding(crate::specs::epaxos::EPaxos::epaxos_decide))]
fn epaxos_decide(
    asked: Asked,
    heard: Heard,
    round: PaxosRound,
    v: u64,
    core: Core,
    change: FastChange,
    values: &PerProcess,
    scores: &PerProcess,
) -> Result<CoreStep, Refusal>
    ensures { result ≡ epaxos_decide lowest_best asked heard round v core change values.now scores.now }
{
    let me = asked.member;
    if fast_state::epaxos::epaxos_can_commit(change.answers, me) {
        return Ok(epaxos_commit(asked, heard, v, core));
    }
    let adoption = fast_state::epaxos::epaxos_try_adopt(change, values, scores, me);
    epaxos_adopt(asked, round, core, adoption)
}

// A fast answer. A promise without a proposer is none.
#[tactic(auto, unfolding(crate::specs::epaxos::EPaxos::epaxos_answer))]
pub fn epaxos_answer(
    asked: Asked,
    heard: Heard,
    round: PaxosRound,
    rv: RoundV,
    core: Core,
    answers: FastAnswers,
    values: &PerProcess,
    scores: &PerProcess,
) -> Result<ChangeStep, Refusal>
    ensures { result ≡ epaxos_answer lowest_best asked heard round rv core answers values.now scores.now }
{
    match rv {
        RoundV::FastV { proposer, v } => {
            let change = fast_state::epaxos::epaxos_answered(
                answers,
                scores,
                asked.member,
                heard.src,
                proposer,
                v,
            )?;
            let step = epaxos_decide(asked, heard, round, v, core, change, values, scores)?;
            Ok(step.with_change(change))
        }
        RoundV::PaxosV { .. } => Err(Refusal::Panic),
    }
}
