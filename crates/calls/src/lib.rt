// Calls and replies, and what is decided of a call before it is handled: that it is refused, or what the handlers ask of the settings and of
// its message. So a refusal costs no look at the tables of the settings. The replies before reads are served, and the answer to a ReadRequest, stand at the
// end: calls by value and calls on lent arrays share them, but for `committed_reply`, which is of the latter alone.
#![tactic(auto)]

pub mod delivery;

// process_count and own are parameters of their own, here and in calls::delivery, flat and questions: they are all that is asked of the settings before a call is
// handled, and the settings of a host who lends arrays are another type.

ghost use Rattle.std.specs.Prelude.{◌≡◌};
ghost use Rattle.calls.specs.Asked.{asked_of, proposer_gathers, gatherer_in, heard_of, nothing_heard, heard_in};
ghost use Rattle.calls.specs.Decision.{if_fit, read_fits, admission_of, unless_spent, unless_unmade, decision_of};
ghost use Rattle.calls.specs.Replies.{refused_reply, sent_reply, is_fast, committed_reply, next_readable, read_answer};

use crate::delivery::Delivery;
use basics::tables::PerProcess;
use message::{
    ConsensusMessage, ConsensusMsg, Outcome, PFMode, PaxosRound, ReadId, Refusal, RoundV,
};
use round_state::Member;
use settings::Settings;
use steps::{Asked, Core, Destination, Heard, Outgoing, SentMessages, no_messages};

#[derive(Clone, Copy, PartialEq, Eq, Debug)]
pub enum Call {
    Propose(u64),
    StartRead { tag: u64, arrival_slot: u64 },
    Receive(Delivery),
}

// A commit: the slot, the value and the fast mark.
#[derive(Clone, Copy, PartialEq, Eq, Debug)]
pub struct CommittedSlot {
    pub slot: u64,
    pub v: u64,
    pub fast: bool,
}

// What a call hands back besides the shard: its outcome, the messages to send, the commit, and the number of reads served, which
// stand in the first places of the shard's table of served reads.
#[derive(Clone, Copy, PartialEq, Eq, Debug)]
pub struct Reply {
    pub outcome: Outcome,
    pub messages: SentMessages,
    pub commit: Option<CommittedSlot>,
    pub served_count: u64,
}

// A call that is not refused before it is handled, with what the handlers ask of the settings and of its message: what a decision hands on (`decision_of`).
#[derive(Clone, Copy, PartialEq, Eq, Debug)]
pub struct Taken {
    pub asked: Asked,
    pub heard: Heard,
    pub call: Call,
}

// What the handlers ask of the settings.
pub fn asked_of(settings: &Settings) -> Asked
    ensures { result ≡ asked_of settings.now }
{
    let member = Member {
        my_pid: settings.my_pid,
        replica: settings.is_replica(),
        quorums: settings.quorums(),
    };
    Asked {
        member,
        mode: settings.mode,
        starting_round: settings.starting_round(),
        first_leader: settings.first_leader,
        quorum: settings.quorum,
    }
}

// Whether the proposer of a fast value gathers the answers: in SwiftPaxos, at another than the leader.
fn proposer_gathers(own: u64, mode: PFMode, round: PaxosRound) -> bool
    ensures { result ≡ proposer_gathers own mode round }
{
    mode.is_swift_paxos() && round.leader != own
}

// Who gathers the answers to the message.
#[tactic(auto, unfolding(crate::specs::Asked::gatherer_in))]
pub fn gatherer_in(own: u64, mode: PFMode, delegates: &PerProcess, msg: ConsensusMsg) -> u64
    ensures { result ≡ gatherer_in own mode delegates.now msg }
{
    match msg {
        ConsensusMsg::Prepare {
            round,
            rv: RoundV::FastV { proposer, .. },
            ..
        } if proposer_gathers(own, mode, round) => proposer,
        ConsensusMsg::Prepare { round, .. } | ConsensusMsg::Accept { round, .. } => {
            settings::delegate_in(delegates, mode, round.leader)
        }
        _ => 0,
    }
}

// What the handlers ask of the message.
pub fn heard_of(settings: &Settings, d: Delivery) -> Heard
    ensures { result ≡ heard_of settings.now d }
{
    let Delivery {
        message,
        said,
        held_requester,
    } = d;
    let mode = settings.mode;
    Heard {
        src: message.src,
        source_live: settings.is_live_replica(message.src),
        delegate: gatherer_in(settings.my_pid, mode, &settings.delegates, message.msg),
        requester: said.requester,
        committer: settings::committer_in(settings.committers.as_ref(), mode, said.requester),
        held_requester,
    }
}

// What a proposal and a new read hear: nothing.
fn nothing_heard() -> Heard
    ensures { result ≡ nothing_heard }
{
    Heard {
        src: 0,
        source_live: false,
        delegate: 0,
        requester: None,
        committer: None,
        held_requester: None,
    }
}

fn heard_in(settings: &Settings, call: Call) -> Heard
    ensures { result ≡ heard_in settings.now call }
{
    match call {
        Call::Propose(_) | Call::StartRead { .. } => nothing_heard(),
        Call::Receive(d) => heard_of(settings, d),
    }
}

// Whether the numbers of a proposal or a new read fit.
fn if_fit(fit: bool) -> Outcome
    ensures { result ≡ if_fit fit }
{
    if fit {
        return Ok(());
    }
    Err(Refusal::NumberTooLarge)
}

fn read_fits(tag: u64, arrival_slot: u64) -> bool
    ensures { result ≡ read_fits tag arrival_slot }
{
    crate::delivery::is_number(tag) && crate::delivery::is_slot(arrival_slot)
}

// A proposal and a new read are refused for their numbers, a message for all that is asked before it is handled.
#[tactic(auto, unfolding(crate::specs::Decision::admission_of))]
fn admission(process_count: u64, own: u64, core: Core, call: Call) -> Outcome
    ensures { result ≡ admission_of process_count own core call }
{
    match call {
        Call::Propose(v) => if_fit(crate::delivery::is_number(v)),
        Call::StartRead { tag, arrival_slot } => if_fit(read_fits(tag, arrival_slot)),
        Call::Receive(d) => d.admit(process_count, own, core),
    }
}

// A shard whose slots are spent refuses every call.
#[tactic(auto, unfolding(crate::specs::Decision::unless_spent))]
fn unless_spent(process_count: u64, own: u64, core: Core, call: Call) -> Outcome
    ensures { result ≡ unless_spent process_count own core call }
{
    if core.slot >= message::LARGEST_NUMBER {
        return Err(Refusal::NumberTooLarge);
    }
    admission(process_count, own, core, call)
}

// An unmade shard gives its number, before anything else.
fn unless_unmade(made: Outcome, process_count: u64, own: u64, core: Core, call: Call) -> Outcome
    ensures { result ≡ unless_unmade made process_count own core call }
{
    made?;
    unless_spent(process_count, own, core, call)
}

// What is decided of a call before it is handled, of a shard with these settings and this core: that it is refused, or what it is handled with.
#[tactic(auto, unfolding(crate::specs::Decision::decision_of))]
pub fn decision_of(
    made: Outcome,
    settings: &Settings,
    core: Core,
    call: Call,
) -> Result<Taken, Refusal>
    ensures { result ≡ decision_of made settings.now core call }
{
    unless_unmade(made, settings.process_count, settings.my_pid, core, call)?;
    Ok(Taken {
        asked: asked_of(settings),
        heard: heard_in(settings, call),
        call,
    })
}

pub fn refused_reply(why: Refusal) -> Reply
    ensures { result ≡ refused_reply why }
{
    Reply {
        outcome: Err(why),
        messages: no_messages(),
        commit: None,
        served_count: 0,
    }
}

pub fn sent_reply(messages: SentMessages) -> Reply
    ensures { result ≡ sent_reply messages }
{
    Reply {
        outcome: Ok(()),
        messages,
        commit: None,
        served_count: 0,
    }
}

// The fast mark of a commit, whoever asked for the value.
pub fn is_fast(a: Asked, core: Core) -> bool
    ensures { result ≡ is_fast a core }
{
    a.mode.has_fast_path() && !core.slot_left_fast_path
}

// The reply of a commit before reads are served.
pub fn committed_reply(a: Asked, v: u64, core: Core, messages: SentMessages) -> Reply
    ensures { result ≡ committed_reply a v core messages }
{
    Reply {
        outcome: Ok(()),
        messages,
        commit: Some(CommittedSlot {
            slot: core.slot,
            v,
            fast: is_fast(a, core),
        }),
        served_count: 0,
    }
}

// The first slot that is not decided here yet: the own one, or the next while a value is held.
fn next_readable(core: Core) -> u64
    ensures { result ≡ next_readable core }
{
    if core.paxos.max_rv.is_some() {
        return message::increment(core.slot);
    }
    core.slot
}

pub fn read_answer(own: u64, src: u64, id: ReadId, core: Core) -> Outgoing
    ensures { result ≡ read_answer own src id core }
{
    let response = ConsensusMsg::ReadResponse {
        id,
        next_readable_slot: next_readable(core),
    };
    Outgoing {
        destination: Destination::One(src),
        message: ConsensusMessage {
            msg: response,
            src: own,
            last_v: None,
        },
    }
}
