// What a Prepare does: the promise that is held and answered, and the promises that the round's delegate gathers until it proposes a value.
#![tactic(auto)]

ghost use Rattle.std.specs.Prelude.{◌≡◌};
ghost use Rattle.classic.specs.prepare.Prepare.{hold_first, may_answer, answer_prepare, leaves_leader, answers_nothing, preparing, prepare_answered, off_fast_path, broadcast_accept, after_own_accept, accept_phase, with_promise, becomes_prepared, gather, has_accepted};

use message::{ConsensusMsg, PaxosRound, Refusal, RoundV};
use round_state::{PaxosState, get_last_accepted_round};
use steps::{Asked, Core, CoreStep, Destination, Heard};

// asked, heard and round are parameters of their own: 8 of these 15 functions take one or two of the three, and a struct of them is no plainer (accept tells
// of a trial).

// Whether the answer to a Prepare may go to the delegate: what the Rust asserts once it has sent it.
fn may_answer(heard: Heard, round: PaxosRound) -> bool
    ensures { result ≡ may_answer heard round }
{
    heard.delegate == heard.src || heard.delegate != round.leader
}

// Where nothing is held, the promise that came is held.
#[tactic(auto, unfolding(crate::specs::prepare::Prepare::hold_first))]
fn hold_first(asked: Asked, rv: RoundV, p: PaxosState) -> Result<PaxosState, Refusal>
    ensures { result ≡ hold_first asked rv p }
{
    if p.max_rv.is_some() {
        return Ok(p);
    }
    p.paxos_propose_v(asked.member, rv)
}

#[tactic(auto, unfolding(crate::specs::prepare::Prepare::answer_prepare))]
fn answer_prepare(
    asked: Asked,
    heard: Heard,
    round: PaxosRound,
    core: Core,
) -> Result<CoreStep, Refusal>
    ensures { result ≡ answer_prepare asked heard round core }
{
    if may_answer(heard, round) {
        let answer = ConsensusMsg::Prepare {
            slot: core.slot,
            round,
            rv: steps::held_rv(core.paxos.max_rv),
        };
        let message = asked.sends(core, Destination::One(heard.delegate), answer);
        return Ok(core.stays(steps::one_message(message)));
    }
    Err(Refusal::Panic)
}

// In SwiftPaxos the leader is not answered: it accepts at once.
fn leaves_leader(asked: Asked, heard: Heard, round: PaxosRound) -> bool
    ensures { result ≡ leaves_leader asked heard round }
{
    asked.mode.is_swift_paxos() && heard.delegate == round.leader
}

#[tactic(auto, using(message::proofs::Comparisons::rounds_equal), unfolding(crate::specs::prepare::Prepare::answers_nothing))]
fn answers_nothing(asked: Asked, heard: Heard, round: PaxosRound, core: Core) -> bool
    ensures { result ≡ answers_nothing asked heard round core }
{
    leaves_leader(asked, heard, round) || get_last_accepted_round(core.paxos.max_rv) == Some(round)
}

// The delegate goes on to count the promise, and any other answers it.
#[tactic(auto, unfolding(crate::specs::prepare::Prepare::preparing))]
fn preparing(asked: Asked, heard: Heard, round: PaxosRound, core: Core) -> Result<CoreStep, Refusal>
    ensures { result ≡ preparing asked heard round core }
{
    if heard.delegate == asked.member.my_pid {
        return Ok(core.continues(steps::no_messages()));
    }
    if answers_nothing(asked, heard, round, core) {
        return Ok(core.stays_silent());
    }
    answer_prepare(asked, heard, round, core)
}

// A Prepare, up to the point where the delegate counts the promise.
#[tactic(auto, unfolding(crate::specs::prepare::Prepare::prepare_answered))]
pub fn prepare_answered(
    asked: Asked,
    heard: Heard,
    round: PaxosRound,
    rv: RoundV,
    core: Core,
) -> Result<CoreStep, Refusal>
    ensures { result ≡ prepare_answered asked heard round rv core }
{
    let p = hold_first(asked, rv, core.paxos)?;
    preparing(asked, heard, round, core.with_paxos(p))
}

// The accept phase is off the fast path. In SwiftPaxos it says nothing of the path, since the leader accepts in every slot.
pub fn off_fast_path(asked: Asked, core: Core) -> Core
    ensures { result ≡ off_fast_path asked core }
{
    if asked.mode.is_swift_paxos() {
        return core;
    }
    core.left_fast_path()
}

#[tactic(auto, unfolding(crate::specs::prepare::Prepare::broadcast_accept))]
fn broadcast_accept(asked: Asked, round: PaxosRound, core: Core) -> CoreStep
    ensures { result ≡ broadcast_accept asked round core }
{
    let accept = ConsensusMsg::Accept {
        slot: core.slot,
        round,
        v: steps::held_value(core.paxos.max_rv),
    };
    let message = asked.sends(core, steps::to_all(), accept);
    off_fast_path(asked, core).stays(steps::one_message(message))
}

// The own accept was taken or refused; one that was taken is told to all.
pub fn after_own_accept(
    asked: Asked,
    round: PaxosRound,
    core: Core,
    accepted: Result<PaxosState, Refusal>,
) -> Result<CoreStep, Refusal>
    ensures { result ≡ after_own_accept asked round core accepted }
{
    Ok(broadcast_accept(asked, round, core.with_paxos(accepted?)))
}

// The own accept, and then everyone's.
#[tactic(auto, unfolding(crate::specs::prepare::Prepare::accept_phase))]
pub fn accept_phase(asked: Asked, round: PaxosRound, core: Core) -> Result<CoreStep, Refusal>
    ensures { result ≡ accept_phase asked round core }
{
    after_own_accept(
        asked,
        round,
        core,
        core.paxos.self_accept(asked.member, round),
    )
}

// The promise counted.
pub fn with_promise(asked: Asked, heard: Heard, rv: RoundV, core: Core) -> Core
    ensures { result ≡ with_promise asked heard rv core }
{
    core.with_paxos(core.paxos.receive_promise(asked.member, heard.src, rv))
}

// Whether a promise completes the majority, by the core before it and the core with it.
#[tactic(auto, unfolding(crate::specs::prepare::Prepare::becomes_prepared))]
pub fn becomes_prepared(asked: Asked, core: Core, promised: Core) -> bool
    ensures { result ≡ becomes_prepared asked core promised }
{
    !core.paxos.is_prepared(asked.member) && promised.paxos.is_prepared(asked.member)
}

// The delegate counts the promise. The one that completes a majority starts the accept phase, and no later one does.
#[tactic(auto, unfolding(crate::specs::prepare::Prepare::gather))]
pub fn gather(
    asked: Asked,
    heard: Heard,
    round: PaxosRound,
    rv: RoundV,
    core: Core,
) -> Result<CoreStep, Refusal>
    ensures { result ≡ gather asked heard round rv core }
{
    let promised = with_promise(asked, heard, rv, core);
    if becomes_prepared(asked, core, promised) {
        return accept_phase(asked, round, promised);
    }
    Ok(promised.stays_silent())
}

// Whether what is held was accepted in some round.
pub fn has_accepted(core: Core) -> bool
    ensures { result ≡ has_accepted core }
{
    get_last_accepted_round(core.paxos.max_rv).is_some()
}
