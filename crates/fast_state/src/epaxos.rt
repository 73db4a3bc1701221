// EPaxos on the second half of the round state: fast answers and the scores of their proposers, the fast commit, and the value that is
// adopted where there are two proposers or more.
#![tactic(auto)]

ghost use Rattle.std.specs.Prelude.{◌≡◌, cond, eqb};
ghost use Rattle.basics.specs.tables.Tables.{look_up};
ghost use Rattle.fast_state.specs.Fast.{score_after, epaxos_counted, epaxos_answered, epaxos_propose_v, epaxos_can_commit};
ghost use Rattle.fast_state.specs.Adopt.{better, best_below, lowest_best, adopted, value_in, score_in, epaxos_try_adopt_after};

use crate::{Best, FastAnswers, FastChange, TableChange};
use basics::tables::PerProcess;
use message::Refusal;
use round_state::Member;

// A proposer's EPaxos score after an answer: one less from the proposer itself, and else one more.
#[tactic(auto, unfolding(crate::specs::Fast::score_after))]
fn score_after(src: u64, proposer: u64, score: u64) -> u64
    ensures { result ≡ score_after src proposer score }
{
    if src == proposer {
        return score.saturating_sub(1);
    }
    message::increment(score)
}

// Answers, scores and member are parameters of their own: a caller has them from three places, the state, its table and the settings, so a struct of them
// would be made for one call and taken apart in each contract. So are source, proposer and value, which come from the message and from what it promises.
fn epaxos_counted(
    answers: FastAnswers,
    scores: &PerProcess,
    me: Member,
    src: u64,
    proposer: u64,
    v: u64,
) -> FastChange
    ensures { result ≡ epaxos_counted me src proposer v answers scores.now }
{
    let score = basics::tables::look_up(scores, proposer);
    let counted = FastAnswers {
        fast_answer_set: basics::sets::insert(answers.fast_answer_set, src),
        fast_preaccepted: crate::preaccepted_after(me, proposer, answers.fast_preaccepted),
        fast_proposers: basics::sets::insert(answers.fast_proposers, proposer),
        swift_leader_answer: answers.swift_leader_answer,
    };
    FastChange {
        answers: counted,
        entry: TableChange::EPaxosScored {
            proposer,
            v,
            score: score_after(src, proposer, score),
        },
    }
}

#[tactic(auto, unfolding(crate::specs::Fast::epaxos_answered))]
pub fn epaxos_answered(
    answers: FastAnswers,
    scores: &PerProcess,
    me: Member,
    src: u64,
    proposer: u64,
    v: u64,
) -> Result<FastChange, Refusal>
    ensures { result ≡ epaxos_answered me src proposer v answers scores.now }
{
    if basics::sets::contains(answers.fast_answer_set, src) {
        return answers.second_answer(me, src);
    }
    Ok(epaxos_counted(answers, scores, me, src, proposer, v))
}

// The first answer for one's own proposal is one's own.
#[tactic(auto, unfolding(crate::specs::Fast::epaxos_propose_v))]
pub fn epaxos_propose_v(
    answers: FastAnswers,
    scores: &PerProcess,
    me: Member,
    v: u64,
) -> Result<FastChange, Refusal>
    ensures { result ≡ epaxos_propose_v me v answers scores.now }
{
    if answers.is_unanswered() && basics::tables::look_up(scores, me.my_pid) == 2 {
        return epaxos_answered(answers, scores, me, me.my_pid, me.my_pid, v);
    }
    Err(Refusal::Panic)
}

pub fn epaxos_can_commit(answers: FastAnswers, me: Member) -> bool
    ensures { result ≡ epaxos_can_commit me answers }
{
    basics::sets::size(answers.fast_proposers) == 1 && answers.fast_preaccepted >= me.quorums.epaxos
}

fn unless_changed(table: &PerProcess, changed: u64, to: u64, p: u64) -> u64
    ensures { result ≡ cond (eqb p changed) to (look_up table.now p) }
{
    if p == changed {
        return to;
    }
    basics::tables::look_up(table, p)
}

// The value of a proposer after a change.
#[tactic(auto, unfolding(crate::specs::Adopt::value_in))]
fn value_in(entry: TableChange, values: &PerProcess, p: u64) -> u64
    ensures { result ≡ value_in entry values.now p }
{
    match entry {
        TableChange::SameEntries => basics::tables::look_up(values, p),
        TableChange::Recorded { proposer, v }
        | TableChange::EPaxosScored { proposer, v, .. }
        | TableChange::SwiftScored { proposer, v, .. } => unless_changed(values, proposer, v, p),
    }
}

// The score of a proposer after a change.
#[tactic(auto, unfolding(crate::specs::Adopt::score_in))]
fn score_in(entry: TableChange, scores: &PerProcess, p: u64) -> u64
    ensures { result ≡ score_in entry scores.now p }
{
    match entry {
        TableChange::EPaxosScored {
            proposer,
            score,
            ..
        } => unless_changed(scores, proposer, score, p),
        _ => basics::tables::look_up(scores, p),
    }
}

// A proposer with a higher score than the best so far takes its place.
#[tactic(auto, unfolding(crate::specs::Adopt::better))]
fn better(best: Best, present: bool, score: u64, p: u64) -> Best
    ensures { result ≡ better best present score p }
{
    if present && best.score < score {
        return Best {
            score,
            proposer: Some(p),
        };
    }
    best
}

// The best score, with the lowest proposer that has it.
#[tactic(auto, unfolding(crate::specs::Adopt::best_below))]
fn best(proposers: u64, entry: TableChange, scores: &PerProcess) -> Best
    ensures { result ≡ best_below proposers (score_in entry scores.now) 64 }
{
    let mut best = Best {
        score: 0,
        proposer: None,
    };
    for p in 0..64 {
        let present = basics::sets::contains(proposers, p);
        let score = score_in(entry, scores, p);
        best = better(best, present, score, p);
    }
    best
}

#[tactic(auto, unfolding(crate::specs::Adopt::adopted))]
fn adopted(entry: TableChange, values: &PerProcess, proposer: Option<u64>) -> Option<u64>
    ensures { Ok result ≡ adopted (value_in entry values.now) proposer }
{
    proposer.map(|p| value_in(entry, values, p))
}

// The value of the best proposer, once a majority has answered and there are two proposers or more.
#[tactic(auto, unfolding(crate::specs::Adopt::epaxos_try_adopt))]
pub fn epaxos_try_adopt(
    change: FastChange,
    values: &PerProcess,
    scores: &PerProcess,
    me: Member,
) -> Result<Option<u64>, Refusal>
    ensures { result ≡ epaxos_try_adopt_after lowest_best me change values.now scores.now }
{
    let FastChange { answers, entry } = change;
    if !basics::sets::contains(answers.fast_proposers, me.my_pid) {
        return Err(Refusal::Panic);
    }
    if basics::sets::size(answers.fast_answer_set) < me.quorums.majority {
        return Ok(None);
    }
    if basics::sets::size(answers.fast_proposers) < 2 {
        return Ok(None);
    }
    let lowest = best(answers.fast_proposers, entry, scores);
    Ok(adopted(entry, values, lowest.proposer))
}
