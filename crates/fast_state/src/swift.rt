// SwiftPaxos on the second half of the round state: the answers of the fast quorum, which may be fixed, the leader's answer, and the commit.
#![tactic(auto)]

ghost use Rattle.std.specs.Prelude.{◌≡◌};
ghost use Rattle.fast_state.specs.Fast.{swift_quorum, in_quorum, leader_answer_after, swift_counted, swift_recorded, swift_uncounted, swift_first, swift_answered, swift_own, swift_unanswered, swift_propose_v, swift_can_commit};

use crate::{FastAnswers, FastChange, TableChange};
use basics::tables::PerProcess;
use message::Refusal;
use round_state::Member;

// With a fixed quorum a majority of preaccepts is enough, and without one the fast quorum is needed.
#[tactic(auto, unfolding(crate::specs::Fast::swift_quorum))]
fn swift_quorum(me: Member, fixed: bool) -> u64
    ensures { result ≡ swift_quorum me fixed }
{
    if fixed {
        return me.quorums.majority;
    }
    me.quorums.fast
}

fn in_quorum(quorum: Option<u64>, src: u64) -> bool
    ensures { result ≡ in_quorum quorum src }
{
    quorum.is_none_or(|set| basics::sets::contains(set, src))
}

// `leader`, here and below, is no flag of a missing v: the value is answered in either case, and it says whether the round's leader is who answers.
#[tactic(auto, unfolding(crate::specs::Fast::leader_answer_after))]
fn leader_answer_after(leader: bool, v: u64, old: Option<u64>) -> Option<u64>
    ensures { result ≡ leader_answer_after leader v old }
{
    if leader {
        return Some(v);
    }
    old
}

// Answers, scores and member are parameters of their own: a caller has them from three places, the state, its table and the settings, so a struct of them
// would be made for one call and taken apart in each contract. So are source, proposer and value, which come from the message and from what it promises.
fn swift_counted(
    answers: FastAnswers,
    scores: &PerProcess,
    me: Member,
    src: u64,
    proposer: u64,
    v: u64,
    leader: bool,
) -> FastChange
    ensures { result ≡ swift_counted me src proposer v leader answers scores.now }
{
    let score = basics::tables::look_up(scores, proposer);
    let counted = FastAnswers {
        fast_answer_set: basics::sets::insert(answers.fast_answer_set, src),
        fast_preaccepted: crate::preaccepted_after(me, proposer, answers.fast_preaccepted),
        fast_proposers: basics::sets::insert(answers.fast_proposers, proposer),
        swift_leader_answer: leader_answer_after(leader, v, answers.swift_leader_answer),
    };
    FastChange {
        answers: counted,
        entry: TableChange::SwiftScored {
            proposer,
            v,
            score: message::increment(score),
        },
    }
}

fn swift_recorded(answers: FastAnswers, src: u64, proposer: u64, v: u64) -> FastChange
    ensures { result ≡ swift_recorded src proposer v answers }
{
    let recorded = FastAnswers {
        fast_answer_set: basics::sets::insert(answers.fast_answer_set, src),
        fast_proposers: basics::sets::insert(answers.fast_proposers, proposer),
        ..answers
    };
    FastChange {
        answers: recorded,
        entry: TableChange::Recorded { proposer, v },
    }
}

// An answer from outside the fixed quorum: its proposer is recorded all the same.
#[tactic(auto, unfolding(crate::specs::Fast::swift_uncounted))]
fn swift_uncounted(
    answers: FastAnswers,
    src: u64,
    proposer: u64,
    v: u64,
    leader: bool,
) -> Result<FastChange, Refusal>
    ensures { result ≡ swift_uncounted src proposer v leader answers }
{
    if leader {
        return Err(Refusal::Panic);
    }
    Ok(swift_recorded(answers, src, proposer, v))
}

// The first answer of a process.
#[tactic(auto, unfolding(crate::specs::Fast::swift_first))]
fn swift_first(
    answers: FastAnswers,
    scores: &PerProcess,
    me: Member,
    src: u64,
    proposer: u64,
    v: u64,
    quorum: Option<u64>,
    leader: bool,
) -> Result<FastChange, Refusal>
    ensures { result ≡ swift_first me src proposer v quorum leader answers scores.now }
{
    if in_quorum(quorum, src) {
        return Ok(swift_counted(answers, scores, me, src, proposer, v, leader));
    }
    swift_uncounted(answers, src, proposer, v, leader)
}

#[tactic(auto, unfolding(crate::specs::Fast::swift_answered))]
pub fn swift_answered(
    answers: FastAnswers,
    scores: &PerProcess,
    me: Member,
    src: u64,
    proposer: u64,
    v: u64,
    quorum: Option<u64>,
    leader: bool,
) -> Result<FastChange, Refusal>
    ensures { result ≡ swift_answered me src proposer v quorum leader answers scores.now }
{
    if basics::sets::contains(answers.fast_answer_set, src) {
        return answers.second_answer(me, src);
    }
    swift_first(answers, scores, me, src, proposer, v, quorum, leader)
}

// A replica answers its own proposal.
#[tactic(auto, unfolding(crate::specs::Fast::swift_own))]
fn swift_own(
    answers: FastAnswers,
    scores: &PerProcess,
    me: Member,
    v: u64,
    quorum: Option<u64>,
    leader: bool,
) -> Result<FastChange, Refusal>
    ensures { result ≡ swift_own me v quorum leader answers scores.now }
{
    if me.replica {
        return swift_answered(answers, scores, me, me.my_pid, me.my_pid, v, quorum, leader);
    }
    Ok(answers.unchanged())
}

#[tactic(auto, unfolding(crate::specs::Fast::swift_unanswered))]
fn swift_unanswered(answers: FastAnswers, scores: &PerProcess, me: Member) -> bool
    ensures { result ≡ swift_unanswered me answers scores.now }
{
    answers.swift_leader_answer.is_none()
        && answers.is_unanswered()
        && basics::tables::look_up(scores, me.my_pid) == 0
}

#[tactic(auto, unfolding(crate::specs::Fast::swift_propose_v))]
pub fn swift_propose_v(
    answers: FastAnswers,
    scores: &PerProcess,
    me: Member,
    v: u64,
    quorum: Option<u64>,
    leader: bool,
) -> Result<FastChange, Refusal>
    ensures { result ≡ swift_propose_v me v quorum leader answers scores.now }
{
    if swift_unanswered(answers, scores, me) {
        return swift_own(answers, scores, me, v, quorum, leader);
    }
    Err(Refusal::Panic)
}

#[tactic(auto, unfolding(crate::specs::Fast::swift_can_commit))]
pub fn swift_can_commit(answers: FastAnswers, me: Member, fixed: bool) -> bool
    ensures { result ≡ swift_can_commit me fixed answers }
{
    answers.swift_leader_answer.is_some()
        && basics::sets::size(answers.fast_proposers) == 1
        && answers.fast_preaccepted >= swift_quorum(me, fixed)
}
