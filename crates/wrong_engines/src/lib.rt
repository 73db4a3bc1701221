// Wrong engines as programs, each equal to its definition (specs/Engines.antt): those that an edit of crates/engine_laws puts in the engine's place. Of each a
// law is proved to be false (proofs/Answers.antt, Runs.antt).
#![tactic(auto)]

ghost use Rattle.std.specs.Prelude.{◌≡◌};
ghost use Rattle.consensus.specs.FirstCause.{number_alone};
ghost use Rattle.calls.specs.Decision.{is_proposal};
ghost use Rattle.wrong_engines.specs.Engines.{is_message, multi_paxos_never_proposes, is_prepare_for, is_accept_for, brings_message, from_another, shard_holding, lowest_or, call_under, with_replicas, answer_with_messages, change_message, change_messages, other_if_taken, sends_only, does_nothing, sends_fixed, commit_of_zero, fixed_content, with_fixed_content, sends_fixed_contents, all_zero, answers_no_message, idles_after_slot_zero, refuses_each, commits_on_first_accept, prepared_figure_without_set, accepted_figure_without_set, forgets_held_with_round, sends_thrice, from_zero, sends_as_zero, redirected_to, sends_to_itself, commits_at_once, is_new_read, is_forward, with_settings, with_processes, leaving, if_commits, stays_in_slot, keeps_held_after_commit, marked_unmade, unmakes, loses_replicas, forgets_held_with_read, counts_every_process, counting_answers, answers_noted, notes_proposals, shard_with_table, first_two_turned, turned, keeps_reads_turned, nothing_served, first_two_served_turned, serves_turned, full_reads, fills_first_read, swift_forward, counts_forwards_as_promises, counts_forwards_as_accepts, takes_every_process, told_as_next, commits_next_slot};

use calls::{Call, CommittedSlot};
use consensus::{Answer, Shard};
use message::{ConsensusMessage, ConsensusMsg, PaxosRound, ReadId, Refusal, RoundV, increment};
use read_tracker::{OpenRead, ServedRead};
use settings::Settings;
use steps::{Destination, Outgoing, SentMessages};

// ---- answers

// The shard as it was, and these messages.
fn sends_only(messages: SentMessages, shard: Shard) -> Answer
    ensures { result ≡ sends_only messages shard }
{
    Answer {
        shard,
        reply: calls::sent_reply(messages),
    }
}

// The shard as it was, and the number of a refusal.
fn number_alone(why: Refusal, shard: Shard) -> Answer
    ensures { result ≡ number_alone why shard }
{
    Answer {
        shard,
        reply: calls::refused_reply(why),
    }
}

// What is refused stays so, and what is taken gets another answer.
fn other_if_taken(other: Answer, right: Answer) -> Answer
    ensures { result ≡ other_if_taken other right }
{
    match right.reply.outcome {
        Ok(()) => other,
        Err(_) => right,
    }
}

fn answer_with_messages(messages: SentMessages, mut answer: Answer) -> Answer
    ensures { result ≡ answer_with_messages messages answer }
{
    answer.reply.messages = messages;
    answer
}

// ---- lacking demand 2

#[tactic(auto, unfolding(crate::specs::Engines::does_nothing))]
pub fn does_nothing(shard: Shard, call: Call) -> Answer
    ensures { result ≡ does_nothing shard call }
{
    other_if_taken(sends_only(steps::no_messages(), shard), shard.call(call))
}

#[tactic(auto, unfolding(crate::specs::Engines::sends_fixed))]
pub fn sends_fixed(fixed: SentMessages, shard: Shard, call: Call) -> Answer
    ensures { result ≡ sends_fixed fixed shard call }
{
    other_if_taken(sends_only(fixed, shard), shard.call(call))
}

pub fn commit_of_zero() -> SentMessages
    ensures { result ≡ commit_of_zero }
{
    let commit = ConsensusMessage {
        msg: ConsensusMsg::Commit { slot: 0, v: 0 },
        src: 0,
        last_v: None,
    };
    steps::one_message(Outgoing {
        destination: steps::to_all(),
        message: commit,
    })
}

// What stands in each kind of message, always.
#[derive(Clone, Copy)]
pub struct FixedContents {
    pub prepare: ConsensusMsg,
    pub accept: ConsensusMsg,
    pub forward: ConsensusMsg,
    pub commit: ConsensusMsg,
    pub request: ConsensusMsg,
    pub response: ConsensusMsg,
}

impl FixedContents {
    pub fn all_zero() -> FixedContents
        ensures { result ≡ all_zero }
    {
        let round = PaxosRound {
            round_group: 0,
            leader: 0,
        };
        FixedContents {
            prepare: ConsensusMsg::Prepare {
                slot: 0,
                round,
                rv: RoundV::PaxosV {
                    accept_round: None,
                    v: 0,
                },
            },
            accept: ConsensusMsg::Accept {
                slot: 0,
                round,
                v: 0,
            },
            forward: ConsensusMsg::ForwardRequest { v: 0 },
            commit: ConsensusMsg::Commit { slot: 0, v: 0 },
            request: ConsensusMsg::ReadRequest { id: ReadId(0) },
            response: ConsensusMsg::ReadResponse {
                id: ReadId(0),
                next_readable_slot: 0,
            },
        }
    }

    fn content(self, msg: ConsensusMsg) -> ConsensusMsg
        ensures { result ≡ fixed_content self msg }
    {
        match msg {
            ConsensusMsg::Prepare { .. } => self.prepare,
            ConsensusMsg::Accept { .. } => self.accept,
            ConsensusMsg::ForwardRequest { .. } => self.forward,
            ConsensusMsg::Commit { .. } => self.commit,
            ConsensusMsg::ReadRequest { .. } => self.request,
            ConsensusMsg::ReadResponse { .. } => self.response,
        }
    }

    fn within(self, m: Option<Outgoing>) -> Option<Outgoing>
        ensures { result ≡ change_message (with_fixed_content self) m }
    {
        match m {
            None => None,
            Some(mut m) => {
                m.message.msg = self.content(m.message.msg);
                Some(m)
            },
        }
    }

    fn within_each(self, messages: SentMessages) -> SentMessages
        ensures { result ≡ change_messages (with_fixed_content self) messages }
    {
        SentMessages {
            first: self.within(messages.first),
            second: self.within(messages.second),
            third: self.within(messages.third),
        }
    }
}

#[tactic(auto, unfolding(crate::specs::Engines::sends_fixed_contents))]
pub fn sends_fixed_contents(fixed: FixedContents, shard: Shard, call: Call) -> Answer
    ensures { result ≡ sends_fixed_contents fixed shard call }
{
    let right = shard.call(call);
    answer_with_messages(fixed.within_each(right.reply.messages), right)
}

fn is_message(call: Call) -> bool
    ensures { result ≡ is_message call }
{
    matches!(call, Call::Receive(_))
}

fn is_proposal(call: Call) -> bool
    ensures { result ≡ is_proposal call }
{
    matches!(call, Call::Propose(_))
}

#[tactic(auto, unfolding(crate::specs::Engines::multi_paxos_never_proposes, crate::specs::Engines::does_nothing))]
pub fn multi_paxos_never_proposes(shard: Shard, call: Call) -> Answer
    ensures { result ≡ multi_paxos_never_proposes shard call }
{
    if shard.settings.mode.is_multi_paxos() && is_proposal(call) {
        return does_nothing(shard, call);
    }
    shard.call(call)
}

#[tactic(auto, unfolding(crate::specs::Engines::answers_no_message))]
pub fn answers_no_message(shard: Shard, call: Call) -> Answer
    ensures { result ≡ answers_no_message shard call }
{
    let right = shard.call(call);
    if is_message(call) {
        return answer_with_messages(steps::no_messages(), right);
    }
    right
}

#[tactic(auto, unfolding(crate::specs::Engines::idles_after_slot_zero))]
pub fn idles_after_slot_zero(shard: Shard, call: Call) -> Answer
    ensures { result ≡ idles_after_slot_zero shard call }
{
    let right = shard.call(call);
    if shard.state.rounds.core.slot >= 1 {
        return other_if_taken(sends_only(steps::no_messages(), shard), right);
    }
    right
}

// ---- lacking demand 1

#[tactic(auto, unfolding(crate::specs::Engines::refuses_each))]
pub fn refuses_each_message(why: Refusal, shard: Shard, call: Call) -> Answer
    ensures { result ≡ refuses_each is_message why shard call }
{
    if is_message(call) {
        return number_alone(why, shard);
    }
    shard.call(call)
}

// ---- lacking demand 3

fn is_prepare_for(p: u64, msg: ConsensusMsg) -> bool
    ensures { result ≡ is_prepare_for p msg }
{
    match msg {
        ConsensusMsg::Prepare { round, .. } => round.leader == p,
        _ => false,
    }
}

fn is_accept_for(p: u64, msg: ConsensusMsg) -> bool
    ensures { result ≡ is_accept_for p msg }
{
    match msg {
        ConsensusMsg::Accept { round, .. } => round.leader == p,
        _ => false,
    }
}

fn brings_prepare(p: u64, call: Call) -> bool
    ensures { result ≡ brings_message (is_prepare_for p) call }
{
    match call {
        Call::Receive(d) => is_prepare_for(p, d.message.msg),
        _ => false,
    }
}

fn brings_accept(p: u64, call: Call) -> bool
    ensures { result ≡ brings_message (is_accept_for p) call }
{
    match call {
        Call::Receive(d) => is_accept_for(p, d.message.msg),
        _ => false,
    }
}

// A call with other settings, for this once.
fn call_under(settings: Settings, mut shard: Shard, call: Call) -> Answer
    ensures { result ≡ call_under settings shard call }
{
    let own = shard.settings;
    shard.settings = settings;
    let mut answer = shard.call(call);
    answer.shard.settings = own;
    answer
}

#[tactic(auto, unfolding(crate::specs::Engines::commits_on_first_accept))]
pub fn commits_on_first_accept(shard: Shard, call: Call) -> Answer
    ensures { result ≡ commits_on_first_accept shard call }
{
    if brings_accept(shard.settings.my_pid, call) {
        let mut settings = shard.settings;
        settings.replica_count = 1;
        return call_under(settings, shard, call);
    }
    shard.call(call)
}

// The lowest process of a set; or else the source.
fn lowest_or(set: u64, source: u64) -> u64
    ensures { result ≡ lowest_or set source }
{
    if set == 0 {
        return source;
    }
    set.trailing_zeros() as u64
}

// The message of a call, if it has one, counted as one of the lowest process of a set.
fn from_lowest(set: u64, call: Call) -> Call
    ensures { result ≡ from_another (lowest_or set) call }
{
    match call {
        Call::Receive(mut d) => {
            d.message.src = lowest_or(set, d.message.src);
            Call::Receive(d)
        },
        other => other,
    }
}

#[tactic(auto, unfolding(crate::specs::Engines::prepared_figure_without_set))]
pub fn prepared_figure_without_set(shard: Shard, call: Call) -> Answer
    ensures { result ≡ prepared_figure_without_set shard call }
{
    if brings_prepare(shard.settings.my_pid, call) {
        let unpromised = shard.settings.alive_replicas
            & !shard.state.rounds.core.paxos.prepared_set;
        return other_if_taken(shard.call(from_lowest(unpromised, call)), shard.call(call));
    }
    shard.call(call)
}

#[tactic(auto, unfolding(crate::specs::Engines::accepted_figure_without_set))]
pub fn accepted_figure_without_set(shard: Shard, call: Call) -> Answer
    ensures { result ≡ accepted_figure_without_set shard call }
{
    if brings_accept(shard.settings.my_pid, call) {
        let unaccepted = shard.settings.alive_replicas
            & !shard.state.rounds.core.paxos.accepted_set;
        return other_if_taken(shard.call(from_lowest(unaccepted, call)), shard.call(call));
    }
    shard.call(call)
}

fn shard_holding(held: Option<RoundV>, mut shard: Shard) -> Shard
    ensures { result ≡ shard_holding held shard }
{
    shard.state.rounds.core.paxos.max_rv = held;
    shard
}

#[tactic(auto, using(message::proofs::Comparisons::rounds_equal), unfolding(crate::specs::Engines::forgets_held_with_round))]
pub fn forgets_held_with_round(shard: Shard, call: Call) -> Answer
    ensures { result ≡ forgets_held_with_round shard call }
{
    let right = shard.call(call);
    if right.shard.state.rounds.core.paxos.round == shard.state.rounds.core.paxos.round {
        return right;
    }
    shard_holding(None, shard).call(call)
}

// ---- lacking a law of what is sent, or that of a group of one

#[tactic(auto, unfolding(crate::specs::Engines::sends_thrice))]
pub fn sends_thrice(shard: Shard, call: Call) -> Answer
    ensures { result ≡ sends_thrice shard call }
{
    let right = shard.call(call);
    let m = right.reply.messages.first;
    let messages = SentMessages {
        first: m,
        second: m,
        third: m,
    };
    answer_with_messages(messages, right)
}

fn from_zero(m: Option<Outgoing>) -> Option<Outgoing>
    ensures { result ≡ change_message from_zero m }
{
    match m {
        None => None,
        Some(mut m) => {
            m.message.src = 0;
            Some(m)
        },
    }
}

#[tactic(auto, unfolding(crate::specs::Engines::sends_as_zero))]
pub fn sends_as_zero(shard: Shard, call: Call) -> Answer
    ensures { result ≡ sends_as_zero shard call }
{
    let right = shard.call(call);
    let sent = right.reply.messages;
    let messages = SentMessages {
        first: from_zero(sent.first),
        second: from_zero(sent.second),
        third: from_zero(sent.third),
    };
    answer_with_messages(messages, right)
}

fn redirected_to(p: u64, m: Option<Outgoing>) -> Option<Outgoing>
    ensures { result ≡ change_message (redirected_to p) m }
{
    match m {
        None => None,
        Some(mut m) => {
            m.destination = Destination::One(p);
            Some(m)
        },
    }
}

#[tactic(auto, unfolding(crate::specs::Engines::sends_to_itself))]
pub fn sends_to_itself(shard: Shard, call: Call) -> Answer
    ensures { result ≡ sends_to_itself shard call }
{
    let own = shard.settings.my_pid;
    let right = shard.call(call);
    let sent = right.reply.messages;
    let messages = SentMessages {
        first: redirected_to(own, sent.first),
        second: redirected_to(own, sent.second),
        third: redirected_to(own, sent.third),
    };
    answer_with_messages(messages, right)
}

#[tactic(auto, unfolding(crate::specs::Engines::commits_at_once))]
pub fn commits_at_once(shard: Shard, call: Call) -> Answer
    ensures { result ≡ commits_at_once shard call }
{
    let right = shard.call(call);
    match call {
        Call::Propose(v) => {
            let mut other = right;
            other.reply.commit = Some(CommittedSlot {
                slot: shard.state.rounds.core.slot,
                v,
                fast: false,
            });
            other_if_taken(other, right)
        },
        _ => right,
    }
}

// ---- lacking a law of every run, or of what a call leaves

// The answer, with another shard if it commits.
fn if_commits(shard: Shard, mut answer: Answer) -> Answer
    ensures { result ≡ if_commits shard answer }
{
    if answer.reply.commit.is_some() {
        answer.shard = shard;
    }
    answer
}

#[tactic(auto, unfolding(crate::specs::Engines::stays_in_slot))]
pub fn stays_in_slot(shard: Shard, call: Call) -> Answer
    ensures { result ≡ stays_in_slot shard call }
{
    if_commits(shard, shard.call(call))
}

#[tactic(auto, unfolding(crate::specs::Engines::keeps_held_after_commit))]
pub fn keeps_held_after_commit(shard: Shard, call: Call) -> Answer
    ensures { result ≡ keeps_held_after_commit shard call }
{
    let right = shard.call(call);
    if_commits(
        shard_holding(shard.state.rounds.core.paxos.max_rv, right.shard),
        right,
    )
}

#[tactic(auto, unfolding(crate::specs::Engines::unmakes))]
pub fn unmakes(shard: Shard, call: Call) -> Answer
    ensures { result ≡ unmakes shard call }
{
    let right = shard.call(call);
    let mut unmade = right.shard;
    unmade.made = Err(Refusal::SettingsOutsideLimits);
    if_commits(unmade, right)
}

fn with_replicas(n: u64, live: u64, mut settings: Settings) -> Settings
    ensures { result ≡ with_replicas n live settings }
{
    settings.replica_count = n;
    settings.alive_replicas = live;
    settings
}

#[tactic(auto, unfolding(crate::specs::Engines::loses_replicas))]
pub fn loses_replicas(shard: Shard, call: Call) -> Answer
    ensures { result ≡ loses_replicas shard call }
{
    let right = shard.call(call);
    let mut left = right.shard;
    left.settings = with_replicas(1, 1, shard.settings);
    if_commits(left, right)
}

fn is_new_read(call: Call) -> bool
    ensures { result ≡ is_new_read call }
{
    matches!(call, Call::StartRead { .. })
}

#[tactic(auto, unfolding(crate::specs::Engines::forgets_held_with_read))]
pub fn forgets_held_with_read(shard: Shard, call: Call) -> Answer
    ensures { result ≡ forgets_held_with_read shard call }
{
    let right = shard.call(call);
    if is_new_read(call) {
        let forgotten = shard_holding(None, shard);
        return other_if_taken(forgotten.call(call), right);
    }
    right
}

#[tactic(auto, unfolding(crate::specs::Engines::counts_every_process))]
pub fn counts_every_process(shard: Shard, call: Call) -> Answer
    ensures { result ≡ counts_every_process shard call }
{
    let everyone = 18446744073709551615;
    call_under(
        with_replicas(shard.settings.replica_count, everyone, shard.settings),
        shard,
        call,
    )
}

// ---- lacking a law of what lists of calls leave in a shard, or of what is served

// Another shard, where the call is taken.
fn leaving(shard: Shard, right: Answer) -> Answer
    ensures { result ≡ leaving shard right }
{
    let changed = Answer {
        shard,
        reply: right.reply,
    };
    other_if_taken(changed, right)
}

fn counting_answers(n: u64, mut shard: Shard) -> Shard
    ensures { result ≡ counting_answers n shard }
{
    shard.state.rounds.fast.fast_preaccepted = n;
    shard
}

fn answers_noted(call: Call) -> u64
    ensures { result ≡ answers_noted call }
{
    match call {
        Call::Propose(_) => 1,
        _ => 0,
    }
}

#[tactic(auto, unfolding(crate::specs::Engines::notes_proposals))]
pub fn notes_proposals(shard: Shard, call: Call) -> Answer
    ensures { result ≡ notes_proposals shard call }
{
    let right = shard.call(call);
    if shard.settings.mode.has_fast_path() {
        return right;
    }
    leaving(counting_answers(answers_noted(call), right.shard), right)
}

fn first_two_turned(mut reads: [OpenRead; 128]) -> [OpenRead; 128]
    ensures { result ≡ first_two_turned reads }
{
    let first = reads[0];
    reads[0] = reads[1];
    reads[1] = first;
    reads
}

fn turned(mut shard: Shard) -> Shard
    ensures { result ≡ turned shard }
{
    if shard.state.rounds.core.tracker.open_count >= 2 {
        shard.state.table.reads = first_two_turned(shard.state.table.reads);
    }
    shard
}

#[tactic(auto, unfolding(crate::specs::Engines::keeps_reads_turned))]
pub fn keeps_reads_turned(shard: Shard, call: Call) -> Answer
    ensures { result ≡ keeps_reads_turned shard call }
{
    let mut other = turned(shard).call(call);
    other.shard = turned(other.shard);
    other_if_taken(other, shard.call(call))
}

fn first_two_served_turned(mut served: [ServedRead; 128]) -> [ServedRead; 128]
    ensures { result ≡ first_two_served_turned served }
{
    let first = served[0];
    served[0] = served[1];
    served[1] = first;
    served
}

#[tactic(auto, unfolding(crate::specs::Engines::serves_turned))]
pub fn serves_turned(shard: Shard, call: Call) -> Answer
    ensures { result ≡ serves_turned shard call }
{
    let mut answer = shard.call(call);
    if answer.reply.served_count >= 2 {
        answer.shard.state.table.served = first_two_served_turned(answer.shard.state.table.served);
    }
    answer
}

fn full_reads(mut reads: [OpenRead; 128]) -> [OpenRead; 128]
    ensures { result ≡ full_reads reads }
{
    let mut first = reads[0];
    first.ready_count = 18446744073709551615;
    reads[0] = first;
    reads
}

#[tactic(auto, unfolding(crate::specs::Engines::fills_first_read))]
pub fn fills_first_read(shard: Shard, call: Call) -> Answer
    ensures { result ≡ fills_first_read shard call }
{
    let right = shard.call(call);
    if is_new_read(call) {
        let mut left = right.shard;
        left.state.table.reads = full_reads(left.state.table.reads);
        return leaving(left, right);
    }
    right
}

fn brings_forward(call: Call) -> bool
    ensures { result ≡ brings_message is_forward call }
{
    match call {
        Call::Receive(d) => matches!(d.message.msg, ConsensusMsg::ForwardRequest { .. }),
        _ => false,
    }
}

fn swift_forward(shard: Shard, call: Call) -> bool
    ensures { result ≡ swift_forward shard call }
{
    shard.settings.mode.is_swift_paxos() && brings_forward(call)
}

#[tactic(auto, unfolding(crate::specs::Engines::counts_forwards_as_promises))]
pub fn counts_forwards_as_promises(shard: Shard, call: Call) -> Answer
    ensures { result ≡ counts_forwards_as_promises shard call }
{
    let right = shard.call(call);
    if swift_forward(shard, call) {
        let mut left = shard;
        left.state.rounds.core.paxos.prepared_set = shard.settings.alive_replicas;
        return leaving(left, right);
    }
    right
}

#[tactic(auto, unfolding(crate::specs::Engines::counts_forwards_as_accepts))]
pub fn counts_forwards_as_accepts(shard: Shard, call: Call) -> Answer
    ensures { result ≡ counts_forwards_as_accepts shard call }
{
    let right = shard.call(call);
    if swift_forward(shard, call) {
        let mut left = shard;
        left.state.rounds.core.paxos.accepted_set = shard.settings.alive_replicas;
        return leaving(left, right);
    }
    right
}

#[tactic(auto, unfolding(crate::specs::Engines::takes_every_process))]
pub fn takes_every_process(shard: Shard, call: Call) -> Answer
    ensures { result ≡ takes_every_process shard call }
{
    let mut settings = shard.settings;
    settings.process_count = 18446744073709551615;
    call_under(settings, shard, call)
}

fn told_as_next(commit: Option<CommittedSlot>) -> Option<CommittedSlot>
    ensures { result ≡ told_as_next commit }
{
    match commit {
        None => None,
        Some(mut commit) => {
            commit.slot = increment(commit.slot);
            Some(commit)
        },
    }
}

#[tactic(auto, unfolding(crate::specs::Engines::commits_next_slot))]
pub fn commits_next_slot(shard: Shard, call: Call) -> Answer
    ensures { result ≡ commits_next_slot shard call }
{
    let mut answer = shard.call(call);
    if shard.settings.mode.is_swift_paxos() {
        answer.reply.commit = told_as_next(answer.reply.commit);
    }
    answer
}
