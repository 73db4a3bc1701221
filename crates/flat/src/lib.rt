// A flat form of the parts of a shard, of calls and of replies that has numbers only, for a host in C or Rust: no enum crosses `extern "C"`. 0 is no and
// any other number yes; what is not given is 0 where the engine writes it. Every flat form stands for some part or call, whatever numbers are in it.
// Functions with names and no From: hosts read their definitions by these names, and a message is read with two numbers besides.
#![tactic(auto)]

ghost use Rattle.std.specs.Prelude.{◌≡◌};
ghost use Rattle.flat.specs.Decode.{is_yes, decoded_option, decoded_round, decoded_promise, decoded_held, decoded_made, decoded_settings, decoded_core, decoded_msg, is_known, decoded_source, decoded_message, decoded_delivery};
ghost use Rattle.flat.specs.Encode.{encoded_bool, encoded_outcome, encoded_made, encoded_option, encoded_round, encoded_promise, encoded_held, encoded_core, encoded_msg, encoded_message, encoded_to, encoded_outgoing, encoded_commit, no_promise, no_flat_message};

use basics::tables::PerProcess;
use calls::CommittedSlot;
use calls::delivery::{Delivery, Said};
use message::{
    ConsensusMessage, ConsensusMsg, Outcome, PFMode, PaxosRound, ReadId, Refusal, RoundV,
};
use read_tracker::ReadTracker;
use round_state::PaxosState;
use settings::Settings;
use steps::{Core, Destination, Outgoing};

// A number, if it is given.
#[repr(C)]
#[derive(Clone, Copy)]
pub struct FlatOption {
    pub given: u64,
    pub n: u64,
}

#[repr(C)]
#[derive(Clone, Copy)]
pub struct FlatRound {
    pub given: u64,
    pub round_group: u64,
    pub leader: u64,
}

// A promise: of a proposer on the fast path, or with the round in which the value was accepted, if it was.
#[repr(C)]
#[derive(Clone, Copy)]
pub struct FlatPromise {
    pub fast: u64,
    pub proposer: u64,
    pub accept_round: FlatRound,
    pub v: u64,
}

#[repr(C)]
#[derive(Clone, Copy)]
pub struct FlatHeld {
    pub given: u64,
    pub promise: FlatPromise,
}

// Mode: 0 Paxos, 1 MultiPaxos, 2 MultiPaxos3P, 3 EPaxos, 4 Pando, 5 SwiftPaxos. The committers count where their flag is set: the C interface has the
// flag beside the table, and Settings an Option.
#[repr(C)]
#[derive(Clone, Copy)]
pub struct FlatSettings {
    pub process_count: u64,
    pub replica_count: u64,
    pub my_pid: u64,
    pub alive_replicas: u64,
    pub first_leader: u64,
    pub mode: u64,
    pub quorum: FlatOption,
    pub has_committers: u64,
    pub committers: PerProcess,
    pub delegates: PerProcess,
}

#[repr(C)]
#[derive(Clone, Copy)]
pub struct FlatCore {
    pub slot: u64,
    pub last_v: FlatOption,
    pub slot_left_fast_path: u64,
    pub round: FlatRound,
    pub max_rv: FlatHeld,
    pub prepared_set: u64,
    pub accepted_set: u64,
    pub next_id: u64,
    pub open_count: u64,
}

// Three tables of numbers, as a host lends them in arrays (C interface), and none of structs. They are changed where they stand (crates/direct_fast/src/half.rt): no function
// makes this form, or the two of reads (crates/arrays/src/reads.rt), whole, and definitions alone have them.
#[repr(C)]
#[derive(Clone, Copy)]
pub struct FlatFast {
    pub fast_answer_set: u64,
    pub fast_preaccepted: u64,
    pub fast_proposers: u64,
    pub swift_leader_answer: FlatOption,
    pub fast_proposer_to_v: PerProcess,
    pub epaxos_proposer_scores: PerProcess,
    pub swift_proposer_scores: PerProcess,
}

#[repr(C)]
#[derive(Clone, Copy)]
pub struct FlatOpenRead {
    pub id: u64,
    pub tag: u64,
    pub arrival_slot: u64,
    pub ready_count: u64,
    pub local_ready: u64,
}

#[repr(C)]
#[derive(Clone, Copy)]
pub struct FlatServedRead {
    pub id: u64,
    pub tag: u64,
    pub waited_for: u64,
    pub fast: u64,
}

// Kind: 1 Prepare, 2 Accept, 3 ForwardRequest, 4 Commit, 5 ReadRequest, 6 ReadResponse.
#[repr(C)]
#[derive(Clone, Copy)]
pub struct FlatMessage {
    pub kind: u64,
    pub slot: u64,
    pub round_group: u64,
    pub leader: u64,
    pub rv: FlatPromise,
    pub v: u64,
    pub id: u64,
    pub next_readable_slot: u64,
    pub src: u64,
    pub last_v: FlatOption,
}

// Kind: 0 a proposal of v, 1 a new read with the tag v, and else a message.
#[repr(C)]
#[derive(Clone, Copy)]
pub struct FlatCall {
    pub kind: u64,
    pub v: u64,
    pub arrival_slot: u64,
    pub message: FlatMessage,
    pub value_held: u64,
    pub requester: FlatOption,
    pub fast: u64,
    pub held_requester: FlatOption,
}

// Kind: 0 no message, 1 a message to the process `to`, 2 a message to every other process, with the one that is served first.
#[repr(C)]
#[derive(Clone, Copy)]
pub struct FlatOutgoing {
    pub kind: u64,
    pub to: u64,
    pub first: FlatOption,
    pub message: FlatMessage,
}

// The kinds of a call and of a message are numbers of the C interface, here and in the crates over arrays: any may stand in a host's array, and each is answered.

// The kinds of a call. Any other number is a message.
pub const PROPOSAL: u64 = 0;

pub const NEW_READ: u64 = 1;

// The kinds of a message.
pub const PREPARE: u64 = 1;

pub const ACCEPT: u64 = 2;

pub const FORWARD_REQUEST: u64 = 3;

pub const COMMIT: u64 = 4;

pub const READ_REQUEST: u64 = 5;

pub const READ_RESPONSE: u64 = 6;

// Where a message goes.
const TO_ONE: u64 = 1;

const TO_ALL: u64 = 2;

#[repr(C)]
#[derive(Clone, Copy)]
pub struct FlatCommit {
    pub given: u64,
    pub slot: u64,
    pub v: u64,
    pub fast: u64,
}

pub fn is_yes(n: u64) -> bool
    ensures { result ≡ is_yes n }
{
    n != 0
}

// A value, a process number or a set, if it is given.
#[tactic(auto, unfolding(crate::specs::Decode::decoded_option))]
pub fn decoded_option(f: FlatOption) -> Option<u64>
    ensures { result ≡ decoded_option f }
{
    if f.given == 0 { None } else { Some(f.n) }
}

#[tactic(auto, unfolding(crate::specs::Decode::decoded_round))]
pub fn decoded_round(f: FlatRound) -> Option<PaxosRound>
    ensures { result ≡ decoded_round f }
{
    if f.given == 0 {
        return None;
    }
    Some(PaxosRound {
        round_group: f.round_group,
        leader: f.leader,
    })
}

#[tactic(auto, unfolding(crate::specs::Decode::decoded_promise))]
pub fn decoded_promise(f: FlatPromise) -> RoundV
    ensures { result ≡ decoded_promise f }
{
    if f.fast == 0 {
        return RoundV::PaxosV {
            accept_round: decoded_round(f.accept_round),
            v: f.v,
        };
    }
    RoundV::FastV {
        proposer: f.proposer,
        v: f.v,
    }
}

#[tactic(auto, unfolding(crate::specs::Decode::decoded_held))]
pub fn decoded_held(f: FlatHeld) -> Option<RoundV>
    ensures { result ≡ decoded_held f }
{
    if f.given == 0 {
        return None;
    }
    Some(decoded_promise(f.promise))
}

// The mark of a shard: 0 is made, 17 is 17, and any other is 1, settings outside the limits. A mode that there is not is outside the limits, whatever the mark.
#[tactic(auto, unfolding(crate::specs::Decode::decoded_made))]
pub fn decoded_made(made: u64, mode: u64) -> Outcome
    ensures { result ≡ decoded_made made mode }
{
    if mode > 5 {
        return Err(Refusal::SettingsOutsideLimits);
    }
    match made {
        0 => Ok(()),
        17 => Err(Refusal::NotInCalendar),
        _ => Err(Refusal::SettingsOutsideLimits),
    }
}

pub fn decoded_settings(f: FlatSettings) -> Settings
    ensures { result ≡ decoded_settings f }
{
    let delegates = f.delegates;
    Settings {
        process_count: f.process_count,
        replica_count: f.replica_count,
        my_pid: f.my_pid,
        alive_replicas: f.alive_replicas,
        first_leader: f.first_leader,
        mode: PFMode::of_number(f.mode),
        quorum: decoded_option(f.quorum),
        committers: is_yes(f.has_committers).then_some(f.committers),
        delegates,
    }
}

pub fn decoded_core(f: FlatCore) -> Core
    ensures { result ≡ decoded_core f }
{
    let paxos = PaxosState {
        round: decoded_round(f.round),
        max_rv: decoded_held(f.max_rv),
        prepared_set: f.prepared_set,
        accepted_set: f.accepted_set,
    };
    let tracker = ReadTracker {
        next_id: f.next_id,
        open_count: f.open_count,
    };
    Core {
        slot: f.slot,
        last_v: decoded_option(f.last_v),
        slot_left_fast_path: is_yes(f.slot_left_fast_path),
        paxos,
        tracker,
    }
}

// What texts has in `flag_number` for lines: neither crate stands on the other, and what both do is `as`.
pub fn encoded_bool(b: bool) -> u64
    ensures { result ≡ encoded_bool b }
{
    b as u64
}

// Done is 0, and a refusal its number. `refusal` of refusals at this type, under the name by which hosts read the flat forms.
#[tactic(auto, unfolding(crate::specs::Encode::encoded_outcome))]
pub fn encoded_outcome(outcome: Outcome) -> u64
    ensures { result ≡ encoded_outcome outcome }
{
    basics::refusals::refusal(outcome)
}

// The number for which a shard, or the settings of a group, are not made, or 0. A mode that there is not is outside the limits.
#[tactic(auto, unfolding(crate::specs::Encode::encoded_made))]
pub fn encoded_made(made: Outcome, mode: u64) -> u64
    ensures { result ≡ encoded_made made mode }
{
    if mode <= 5 {
        return encoded_outcome(made);
    }
    1
}

#[tactic(auto, unfolding(crate::specs::Encode::encoded_option))]
pub fn encoded_option(option: Option<u64>) -> FlatOption
    ensures { result ≡ encoded_option option }
{
    match option {
        None => FlatOption { given: 0, n: 0 },
        Some(n) => FlatOption { given: 1, n },
    }
}

#[tactic(auto, unfolding(crate::specs::Encode::encoded_round))]
fn encode_round(round: Option<PaxosRound>) -> FlatRound
    ensures { result ≡ encoded_round round }
{
    match round {
        None => FlatRound {
            given: 0,
            round_group: 0,
            leader: 0,
        },
        Some(given) => FlatRound {
            given: 1,
            round_group: given.round_group,
            leader: given.leader,
        },
    }
}

#[tactic(auto, unfolding(crate::specs::Encode::encoded_promise, crate::specs::Encode::encoded_round))]
fn encode_promise(rv: RoundV) -> FlatPromise
    ensures { result ≡ encoded_promise rv }
{
    match rv {
        RoundV::FastV { proposer, v } => FlatPromise {
            fast: 1,
            proposer,
            accept_round: encode_round(None),
            v,
        },
        RoundV::PaxosV { accept_round, v } => FlatPromise {
            fast: 0,
            proposer: 0,
            accept_round: encode_round(accept_round),
            v,
        },
    }
}

fn no_promise() -> FlatPromise
    ensures { result ≡ no_promise }
{
    FlatPromise {
        fast: 0,
        proposer: 0,
        accept_round: FlatRound {
            given: 0,
            round_group: 0,
            leader: 0,
        },
        v: 0,
    }
}

#[tactic(auto, unfolding(crate::specs::Encode::encoded_held))]
fn encode_held(held: Option<RoundV>) -> FlatHeld
    ensures { result ≡ encoded_held held }
{
    match held {
        None => FlatHeld {
            given: 0,
            promise: no_promise(),
        },
        Some(rv) => FlatHeld {
            given: 1,
            promise: encode_promise(rv),
        },
    }
}

pub fn encoded_core(core: Core) -> FlatCore
    ensures { result ≡ encoded_core core }
{
    let paxos = core.paxos;
    FlatCore {
        slot: core.slot,
        last_v: encoded_option(core.last_v),
        slot_left_fast_path: encoded_bool(core.slot_left_fast_path),
        round: encode_round(paxos.round),
        max_rv: encode_held(paxos.max_rv),
        prepared_set: paxos.prepared_set,
        accepted_set: paxos.accepted_set,
        next_id: core.tracker.next_id,
        open_count: core.tracker.open_count,
    }
}

// A message of a kind that there is not is read as a ReadRequest, which `decoded_source` makes the engine refuse.
#[tactic(auto, unfolding(crate::specs::Decode::decoded_msg))]
pub fn decoded_msg(f: FlatMessage) -> ConsensusMsg
    ensures { result ≡ decoded_msg f }
{
    let round = PaxosRound {
        round_group: f.round_group,
        leader: f.leader,
    };
    match f.kind {
        PREPARE => ConsensusMsg::Prepare {
            slot: f.slot,
            round,
            rv: decoded_promise(f.rv),
        },
        ACCEPT => ConsensusMsg::Accept {
            slot: f.slot,
            round,
            v: f.v,
        },
        FORWARD_REQUEST => ConsensusMsg::ForwardRequest { v: f.v },
        COMMIT => ConsensusMsg::Commit {
            slot: f.slot,
            v: f.v,
        },
        READ_RESPONSE => ConsensusMsg::ReadResponse {
            id: ReadId(f.id),
            next_readable_slot: f.next_readable_slot,
        },
        _ => ConsensusMsg::ReadRequest { id: ReadId(f.id) },
    }
}

// Whether there is a message of this kind.
pub fn is_known(kind: u64) -> bool
    ensures { result ≡ is_known kind }
{
    PREPARE <= kind && kind <= READ_RESPONSE
}

// The source of a message. One of a kind that there is not counts as the member's own: a ReadRequest of its own is refused with 8, after 2 and 3.
#[tactic(auto, unfolding(crate::specs::Decode::decoded_source))]
pub fn decoded_source(process_count: u64, own: u64, f: FlatMessage) -> u64
    ensures { result ≡ decoded_source process_count own f }
{
    if is_known(f.kind) {
        return f.src;
    }
    if f.src < process_count {
        return own;
    }
    f.src
}

fn decode_message(process_count: u64, own: u64, f: FlatMessage) -> ConsensusMessage
    ensures { result ≡ decoded_message process_count own f }
{
    ConsensusMessage {
        msg: decoded_msg(f),
        src: decoded_source(process_count, own, f),
        last_v: decoded_option(f.last_v),
    }
}

pub fn decoded_delivery(process_count: u64, own: u64, f: FlatCall) -> Delivery
    ensures { result ≡ decoded_delivery process_count own f }
{
    let said = Said {
        value_held: is_yes(f.value_held),
        requester: decoded_option(f.requester),
        fast: is_yes(f.fast),
    };
    Delivery {
        message: decode_message(process_count, own, f.message),
        said,
        held_requester: decoded_option(f.held_requester),
    }
}

fn no_flat_message() -> FlatMessage
    ensures { result ≡ no_flat_message }
{
    FlatMessage {
        kind: 0,
        slot: 0,
        round_group: 0,
        leader: 0,
        rv: no_promise(),
        v: 0,
        id: 0,
        next_readable_slot: 0,
        src: 0,
        last_v: FlatOption { given: 0, n: 0 },
    }
}

// The message's own fields, in one without source and last value.
#[tactic(auto, unfolding(crate::specs::Encode::encoded_msg))]
fn encode_msg(msg: ConsensusMsg) -> FlatMessage
    ensures { result ≡ encoded_msg msg }
{
    let none = no_flat_message();
    match msg {
        ConsensusMsg::Prepare { slot, round, rv } => FlatMessage {
            kind: PREPARE,
            slot,
            round_group: round.round_group,
            leader: round.leader,
            rv: encode_promise(rv),
            ..none
        },
        ConsensusMsg::Accept { slot, round, v } => FlatMessage {
            kind: ACCEPT,
            slot,
            round_group: round.round_group,
            leader: round.leader,
            v,
            ..none
        },
        ConsensusMsg::ForwardRequest { v } => FlatMessage {
            kind: FORWARD_REQUEST,
            v,
            ..none
        },
        ConsensusMsg::Commit { slot, v } => FlatMessage {
            kind: COMMIT,
            slot,
            v,
            ..none
        },
        ConsensusMsg::ReadRequest { id } => FlatMessage {
            kind: READ_REQUEST,
            id: id.0,
            ..none
        },
        ConsensusMsg::ReadResponse {
            id,
            next_readable_slot,
        } => FlatMessage {
            kind: READ_RESPONSE,
            id: id.0,
            next_readable_slot,
            ..none
        },
    }
}

fn encode_message(message: ConsensusMessage) -> FlatMessage
    ensures { result ≡ encoded_message message }
{
    FlatMessage {
        src: message.src,
        last_v: encoded_option(message.last_v),
        ..encode_msg(message.msg)
    }
}

#[tactic(auto, unfolding(crate::specs::Encode::encoded_to))]
fn encode_to(destination: Destination, message: FlatMessage) -> FlatOutgoing
    ensures { result ≡ encoded_to destination message }
{
    match destination {
        Destination::One(p) => FlatOutgoing {
            kind: TO_ONE,
            to: p,
            first: FlatOption { given: 0, n: 0 },
            message,
        },
        Destination::All(first) => FlatOutgoing {
            kind: TO_ALL,
            to: 0,
            first: encoded_option(first),
            message,
        },
    }
}

#[tactic(auto, unfolding(crate::specs::Encode::encoded_outgoing))]
pub fn encoded_outgoing(message: Option<Outgoing>) -> FlatOutgoing
    ensures { result ≡ encoded_outgoing message }
{
    match message {
        None => FlatOutgoing {
            kind: 0,
            to: 0,
            first: FlatOption { given: 0, n: 0 },
            message: no_flat_message(),
        },
        Some(outgoing) => encode_to(outgoing.destination, encode_message(outgoing.message)),
    }
}

#[tactic(auto, unfolding(crate::specs::Encode::encoded_commit))]
pub fn encoded_commit(commit: Option<CommittedSlot>) -> FlatCommit
    ensures { result ≡ encoded_commit commit }
{
    match commit {
        None => FlatCommit {
            given: 0,
            slot: 0,
            v: 0,
            fast: 0,
        },
        Some(CommittedSlot { slot, v, fast }) => FlatCommit {
            given: 1,
            slot,
            v,
            fast: encoded_bool(fast),
        },
    }
}
