// What a proposal does: the first step of the mode, a Prepare, an Accept, or a fast proposal.
#![tactic(auto)]

pub mod proposal;

ghost use Rattle.std.specs.Prelude.{◌≡◌};
ghost use Rattle.propose.specs.Propose.{broadcast_own, propose_prepare, propose_accept, propose_classic, own_answer, leads_from_start, propose_change, propose_fast};

use crate::proposal::{electing, may_propose, not_allowed, proposal_round};
use basics::tables::PerProcess;
use fast_state::{FastAnswers, FastChange};
use message::{ConsensusMsg, PaxosRound, Refusal, RoundV};
use round_state::PaxosState;
use steps::{Asked, ChangeStep, Core, CoreStep, Rounds, RoundsStep};

// Where the own promise or the own accept is taken, the message of the proposal goes to all.
fn broadcast_own(
    asked: Asked,
    msg: ConsensusMsg,
    core: Core,
    taken: Result<PaxosState, Refusal>,
) -> Result<CoreStep, Refusal>
    ensures { result ≡ broadcast_own asked msg core taken }
{
    match taken {
        Ok(p) => {
            let message = asked.sends(core, steps::to_all(), msg);
            Ok(core.with_paxos(p).stays(steps::one_message(message)))
        }
        Err(_) => Err(not_allowed()),
    }
}

// The own promise of the value, and a Prepare to all.
#[tactic(auto, unfolding(crate::specs::Propose::propose_prepare))]
fn propose_prepare(
    asked: Asked,
    round: PaxosRound,
    rv: RoundV,
    core: Core,
) -> Result<CoreStep, Refusal>
    ensures { result ≡ propose_prepare asked round rv core }
{
    let entered = core.paxos.goto_round(Some(round));
    let promised = entered.paxos_propose_v(asked.member, rv);
    let prepare = ConsensusMsg::Prepare {
        slot: core.slot,
        round,
        rv,
    };
    broadcast_own(asked, prepare, core, promised)
}

// A leader from the start needs no promises but its own: it accepts the value, and proposes it in an Accept.
#[tactic(auto, unfolding(crate::specs::Propose::propose_accept))]
fn propose_accept(asked: Asked, round: PaxosRound, v: u64, core: Core) -> Result<CoreStep, Refusal>
    ensures { result ≡ propose_accept asked round v core }
{
    let rv = RoundV::PaxosV {
        accept_round: None,
        v,
    };
    let entered = core.paxos.goto_round(Some(round));
    match entered.paxos_propose_v(asked.member, rv) {
        Ok(p) => {
            let accepted = p.self_accept(asked.member, round);
            let accept = ConsensusMsg::Accept {
                slot: core.slot,
                round,
                v,
            };
            broadcast_own(asked, accept, core, accepted)
        }
        Err(_) => Err(not_allowed()),
    }
}

// A proposal in the classic modes.
#[tactic(auto, unfolding(crate::specs::Propose::propose_classic))]
pub fn propose_classic(asked: Asked, v: u64, core: Core) -> Result<CoreStep, Refusal>
    ensures { result ≡ propose_classic asked v core }
{
    if !may_propose(asked, core) {
        return Err(not_allowed());
    }
    let round = proposal_round(asked, core);
    if asked.mode.is_multi_paxos() {
        return propose_accept(asked, round, v, core);
    }
    let rv = RoundV::PaxosV {
        accept_round: None,
        v,
    };
    propose_prepare(asked, round, rv, core)
}

// The fast half answers the own proposal first, by the scores of the mode.
#[tactic(auto, unfolding(crate::specs::Propose::own_answer))]
fn own_answer(
    asked: Asked,
    v: u64,
    answers: FastAnswers,
    epaxos_scores: &PerProcess,
    swift_scores: &PerProcess,
) -> Result<FastChange, Refusal>
    ensures { result ≡ own_answer asked v answers epaxos_scores.now swift_scores.now }
{
    let me = asked.member;
    if asked.mode.is_swift_paxos() {
        return fast_state::swift::swift_propose_v(
            answers,
            swift_scores,
            me,
            v,
            asked.quorum,
            false,
        );
    }
    fast_state::epaxos::epaxos_propose_v(answers, epaxos_scores, me, v)
}

// The leader of SwiftPaxos accepts at once.
#[tactic(auto, unfolding(crate::specs::Propose::leads_from_start))]
fn leads_from_start(asked: Asked) -> bool
    ensures { result ≡ leads_from_start asked }
{
    asked.mode.is_swift_paxos() && electing(asked) == asked.member.my_pid
}

// A proposal in EPaxos and SwiftPaxos, with the scores of each.
#[tactic(auto, unfolding(crate::specs::Propose::propose_change))]
pub fn propose_change(
    asked: Asked,
    v: u64,
    core: Core,
    answers: FastAnswers,
    epaxos_scores: &PerProcess,
    swift_scores: &PerProcess,
) -> Result<ChangeStep, Refusal>
    ensures { result ≡ propose_change asked v core answers epaxos_scores.now swift_scores.now }
{
    if !may_propose(asked, core) {
        return Err(not_allowed());
    }
    let round = proposal_round(asked, core);
    if leads_from_start(asked) {
        return Ok(propose_accept(asked, round, v, core)?.unchanged(answers));
    }
    match own_answer(asked, v, answers, epaxos_scores, swift_scores) {
        Ok(change) => {
            let rv = RoundV::FastV {
                proposer: asked.member.my_pid,
                v,
            };
            Ok(propose_prepare(asked, round, rv, core)?.with_change(change))
        }
        Err(_) => Err(not_allowed()),
    }
}

// The same, with the change made.
#[tactic(auto, unfolding(crate::specs::Propose::propose_fast))]
pub fn propose_fast(asked: Asked, v: u64, s: Rounds) -> Result<RoundsStep, Refusal>
    ensures { result ≡ propose_fast asked v s }
{
    let fast = s.fast;
    let tables = fast.tables();
    let step = propose_change(
        asked,
        v,
        s.core,
        fast.answers(),
        tables.epaxos_scores,
        tables.swift_scores,
    )?;
    Ok(step.change_rounds(fast))
}
