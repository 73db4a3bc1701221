// The fast path of SwiftPaxos: answers to a fast proposal and the commit that they bring, at a replica and at a client.
#![tactic(auto)]

ghost use Rattle.std.specs.Prelude.{◌≡◌, ◌&&◌};
ghost use Rattle.fast.specs.swift.Swift.{swift_commits, after_swift_answer, swift_answer, swift_client_prepare, client_accept, leader_answered, from_leader, accept_answered, after_accept_answer, swift_accept, swift_client_accept, after_replica_answer, swift_answered_accept};

use basics::tables::PerProcess;
use fast_state::{FastAnswers, FastChange};
use message::{PaxosRound, Refusal, RoundV};
use steps::{Asked, ChangeStep, Core, CoreStep, Heard, SentMessages};

// asked, heard and round are parameters of their own, as in classic::accept and classic::prepare, whose functions are called with them: a struct of the three
// would be taken apart in each contract (classic::accept tells of a trial).

fn swift_commits(asked: Asked, answers: FastAnswers) -> bool
    ensures { result ≡ swift_commits asked answers }
{
    fast_state::swift::swift_can_commit(answers, asked.member, asked.quorum.is_some())
}

fn after_swift_answer(asked: Asked, v: u64, core: Core, answers: FastAnswers) -> CoreStep
    ensures { result ≡ after_swift_answer asked v core answers }
{
    if swift_commits(asked, answers) {
        return core.commits_silent(v);
    }
    core.stays_silent()
}

// An answer on the fast path. Leaders answer with an Accept, not with a Prepare.
#[tactic(auto, unfolding(crate::specs::swift::Swift::swift_answer))]
fn swift_answer(
    asked: Asked,
    heard: Heard,
    round: PaxosRound,
    rv: RoundV,
    core: Core,
    answers: FastAnswers,
    scores: &PerProcess,
) -> Result<ChangeStep, Refusal>
    ensures { result ≡ swift_answer asked heard round rv core answers scores.now }
{
    match rv {
        RoundV::FastV { proposer, v } => {
            if heard.src == round.leader {
                return Err(Refusal::Panic);
            }
            let change = fast_state::swift::swift_answered(
                answers,
                scores,
                asked.member,
                heard.src,
                proposer,
                v,
                asked.quorum,
                false,
            )?;
            Ok(after_swift_answer(asked, v, core, change.answers).with_change(change))
        }
        RoundV::PaxosV { .. } => Err(Refusal::Panic),
    }
}

// A Prepare at a client. One that is not the committer of the value drops it. A function for this and for an Accept alike would take what follows as a closure,
// and its contract would be a relation in place of the definition; the Rust tells the two apart too.
#[tactic(auto, using(message::proofs::Comparisons::process_equal), unfolding(crate::specs::swift::Swift::swift_client_prepare))]
pub fn swift_client_prepare(
    asked: Asked,
    heard: Heard,
    round: PaxosRound,
    rv: RoundV,
    core: Core,
    answers: FastAnswers,
    scores: &PerProcess,
) -> Result<ChangeStep, Refusal>
    ensures { result ≡ swift_client_prepare asked heard round rv core answers scores.now }
{
    if heard.committer == Some(asked.member.my_pid) {
        return swift_answer(asked, heard, round, rv, core, answers, scores);
    }
    Ok(core.stays_unchanged(answers))
}

#[tactic(auto, unfolding(crate::specs::swift::Swift::client_accept))]
fn client_accept(
    asked: Asked,
    heard: Heard,
    round: PaxosRound,
    v: u64,
    core: Core,
) -> Result<CoreStep, Refusal>
    ensures { result ≡ client_accept asked heard round v core }
{
    let me = asked.member;
    let p = core.paxos.receive_accept(me, heard.src, round, v)?;
    let taken = core.with_paxos(p);
    if p.paxos_can_commit(me) {
        return Ok(taken.commits_silent(v));
    }
    Ok(taken.stays_silent())
}

fn from_leader(heard: Heard, round: PaxosRound) -> bool
    ensures { result ≡ from_leader heard round }
{
    heard.src == round.leader
}

// The leader's Accept is its answer on the fast path, with oneself as the proposer.
#[tactic(auto, unfolding(crate::specs::swift::Swift::leader_answered))]
fn leader_answered(
    asked: Asked,
    heard: Heard,
    v: u64,
    answers: FastAnswers,
    scores: &PerProcess,
) -> Result<FastChange, Refusal>
    ensures { result ≡ leader_answered asked heard v answers scores.now }
{
    let me = asked.member;
    fast_state::swift::swift_answered(
        answers,
        scores,
        me,
        heard.src,
        me.my_pid,
        v,
        asked.quorum,
        true,
    )
}

// An Accept of another is no answer.
#[tactic(auto, unfolding(crate::specs::swift::Swift::accept_answered))]
fn accept_answered(
    asked: Asked,
    heard: Heard,
    round: PaxosRound,
    v: u64,
    answers: FastAnswers,
    scores: &PerProcess,
) -> Result<FastChange, Refusal>
    ensures { result ≡ accept_answered asked heard round v answers scores.now }
{
    if from_leader(heard, round) {
        return leader_answered(asked, heard, v, answers, scores);
    }
    Ok(answers.unchanged())
}

// What does not commit on the fast path, by the leader's answer, counts as an accept.
fn after_accept_answer(
    asked: Asked,
    heard: Heard,
    round: PaxosRound,
    v: u64,
    core: Core,
    answers: FastAnswers,
) -> Result<CoreStep, Refusal>
    ensures { result ≡ after_accept_answer asked heard round v core answers }
{
    if from_leader(heard, round) && swift_commits(asked, answers) {
        return Ok(core.commits_silent(v));
    }
    client_accept(asked, heard, round, v, core)
}

#[tactic(auto, unfolding(crate::specs::swift::Swift::swift_accept))]
fn swift_accept(
    asked: Asked,
    heard: Heard,
    round: PaxosRound,
    v: u64,
    core: Core,
    answers: FastAnswers,
    scores: &PerProcess,
) -> Result<ChangeStep, Refusal>
    ensures { result ≡ swift_accept asked heard round v core answers scores.now }
{
    let change = accept_answered(asked, heard, round, v, answers, scores)?;
    let step = after_accept_answer(asked, heard, round, v, core, change.answers)?;
    Ok(step.with_change(change))
}

// An Accept at a client. One that is not the committer of the value drops it.
#[tactic(auto, using(message::proofs::Comparisons::process_equal), unfolding(crate::specs::swift::Swift::swift_client_accept))]
pub fn swift_client_accept(
    asked: Asked,
    heard: Heard,
    round: PaxosRound,
    v: u64,
    core: Core,
    answers: FastAnswers,
    scores: &PerProcess,
) -> Result<ChangeStep, Refusal>
    ensures { result ≡ swift_client_accept asked heard round v core answers scores.now }
{
    if heard.committer == Some(asked.member.my_pid) {
        return swift_accept(asked, heard, round, v, core, answers, scores);
    }
    Ok(core.stays_unchanged(answers))
}

fn after_replica_answer(
    asked: Asked,
    heard: Heard,
    round: PaxosRound,
    v: u64,
    core: Core,
    messages: SentMessages,
    answers: FastAnswers,
) -> CoreStep
    ensures { result ≡ after_replica_answer asked heard round v core messages answers }
{
    if swift_commits(asked, answers) {
        return core.commits(v, messages);
    }
    classic::accept::try_commit(asked, heard, round, v, core, messages)
}

// A replica that is the committer has answered the leader's Accept, and counts it on the fast path.
#[tactic(auto, unfolding(crate::specs::swift::Swift::swift_answered_accept))]
pub fn swift_answered_accept(
    asked: Asked,
    heard: Heard,
    round: PaxosRound,
    v: u64,
    core: Core,
    messages: SentMessages,
    answers: FastAnswers,
    scores: &PerProcess,
) -> Result<ChangeStep, Refusal>
    ensures { result ≡ swift_answered_accept asked heard round v core messages answers scores.now }
{
    let change = leader_answered(asked, heard, v, answers, scores)?;
    let step = after_replica_answer(asked, heard, round, v, core, messages, change.answers);
    Ok(step.with_change(change))
}
