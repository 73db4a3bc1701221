// The arrays of numbers that a host lends, and the flat forms that they are: each function reads a flat form out of an array, or writes one into it. The arrays
// are the memory of the flat forms, so that a host keeps structs. Functions with names and no From: an array of numbers says by its length alone what it is, and
// what is written goes into an array that is lent.
#![tactic(auto)]

pub mod reads;

ghost use Rattle.std.specs.Prelude.{◌≡◌, Some};
ghost use Rattle.arrays.specs.Arrays.{setup_of, setup_numbers, core_of, core_numbers, flat_message_of, flat_call_of, outgoing_numbers, put_message, rest_numbers};
ghost use Rattle.flat.specs.Encode.{encoded_outgoing};

use crate::reads::ReadArrays;
use basics::tables::PerProcess;
use calls::CommittedSlot;
use flat::{
    FlatCall, FlatCore, FlatHeld, FlatMessage, FlatOption, FlatPromise, FlatRound, FlatSettings,
};
use steps::Outgoing;

// The arrays by name: of the settings without their tables, of the core, of a call, of a message of a reply, and of what a reply has besides messages.
pub type SetupArray = [u64; 10];

pub type CoreArray = [u64; 18];

pub type CallArray = [u64; 25];

pub type MessageArray = [u64; 20];

pub type RestArray = [u64; 5];

// The answers on the fast path, without their tables.
pub type AnswersArray = [u64; 5];

// The settings without their tables, and whether the shard is made. Flags and the mode are numbers, as the C interface has them: any may stand in a host's
// array, and each is answered.
#[derive(Clone, Copy)]
pub struct Setup {
    pub made: u64,
    pub process_count: u64,
    pub replica_count: u64,
    pub my_pid: u64,
    pub alive_replicas: u64,
    pub first_leader: u64,
    pub mode: u64,
    pub quorum: FlatOption,
    pub has_committers: u64,
}

// The two tables of the settings, which are lent to be read.
#[derive(Clone, Copy)]
pub struct Tables<'a> {
    pub committers: &'a PerProcess,
    pub delegates: &'a PerProcess,
}

// What a host lends is a struct of arrays: the memory of the header's struct, in which each array has a name and a place, so that a caller cannot put one in the
// place of another of its length. Any numbers may stand there. The settings of a shard: its mark with what is no table, and the two tables.
#[repr(C)]
#[derive(Clone, Copy)]
pub struct SettingsArrays {
    pub setup: SetupArray,
    pub committers: PerProcess,
    pub delegates: PerProcess,
}

// The fast half of a shard: the answers, and three tables by proposer. Tables of numbers, as a host lends them (C interface), and none of structs.
#[repr(C)]
#[derive(Clone, Copy)]
pub struct FastArrays {
    pub answers: AnswersArray,
    pub values: PerProcess,
    pub epaxos: PerProcess,
    pub swift: PerProcess,
}

// A shard. What is exported takes it whole, and lends its parts on.
#[repr(C)]
#[derive(Clone, Copy)]
pub struct ShardArrays {
    pub settings: SettingsArrays,
    pub core: CoreArray,
    pub fast: FastArrays,
    pub reads: ReadArrays,
}

pub fn setup_in(s: &SetupArray) -> Setup
    ensures { result ≡ setup_of s.now }
{
    let quorum = FlatOption {
        given: s[7],
        n: s[8],
    };
    Setup {
        made: s[0],
        process_count: s[1],
        replica_count: s[2],
        my_pid: s[3],
        alive_replicas: s[4],
        first_leader: s[5],
        mode: s[6],
        quorum,
        has_committers: s[9],
    }
}

// The mark of a shard, and its settings without their tables.
fn put_setup(s: &mut SetupArray, made: u64, f: FlatSettings)
    ensures { s.new ≡ setup_numbers made f }
{
    let quorum = f.quorum;
    *s = [
        made,
        f.process_count,
        f.replica_count,
        f.my_pid,
        f.alive_replicas,
        f.first_leader,
        f.mode,
        quorum.given,
        quorum.n,
        f.has_committers,
    ];
}

// The settings of a shard, with its mark and the two tables.
pub fn put_settings(s: &mut SettingsArrays, made: u64, f: FlatSettings)
    ensures setup { s.new.setup ≡ setup_numbers made f }
    ensures committers { s.new.committers ≡ f.committers }
    ensures delegates { s.new.delegates ≡ f.delegates }
{
    put_setup(&mut s.setup, made, f);
    let committers = f.committers;
    let delegates = f.delegates;
    s.committers = committers;
    s.delegates = delegates;
}

pub fn core_in(c: &CoreArray) -> FlatCore
    ensures { result ≡ core_of c.now }
{
    let last_v = FlatOption {
        given: c[1],
        n: c[2],
    };
    let round = FlatRound {
        given: c[4],
        round_group: c[5],
        leader: c[6],
    };
    let accept_round = FlatRound {
        given: c[10],
        round_group: c[11],
        leader: c[12],
    };
    let promise = FlatPromise {
        fast: c[8],
        proposer: c[9],
        accept_round,
        v: c[13],
    };
    FlatCore {
        slot: c[0],
        last_v,
        slot_left_fast_path: c[3],
        round,
        max_rv: FlatHeld {
            given: c[7],
            promise,
        },
        prepared_set: c[14],
        accepted_set: c[15],
        next_id: c[16],
        open_count: c[17],
    }
}

fn message_in(c: &CallArray) -> FlatMessage
    ensures { result ≡ flat_message_of c.now }
{
    let accept_round = FlatRound {
        given: c[9],
        round_group: c[10],
        leader: c[11],
    };
    let rv = FlatPromise {
        fast: c[7],
        proposer: c[8],
        accept_round,
        v: c[12],
    };
    let last_v = FlatOption {
        given: c[17],
        n: c[18],
    };
    FlatMessage {
        kind: c[3],
        slot: c[4],
        round_group: c[5],
        leader: c[6],
        rv,
        v: c[13],
        id: c[14],
        next_readable_slot: c[15],
        src: c[16],
        last_v,
    }
}

pub fn flat_call_of(c: &CallArray) -> FlatCall
    ensures { result ≡ flat_call_of c.now }
{
    let requester = FlatOption {
        given: c[20],
        n: c[21],
    };
    let held_requester = FlatOption {
        given: c[23],
        n: c[24],
    };
    FlatCall {
        kind: c[0],
        v: c[1],
        arrival_slot: c[2],
        message: message_in(c),
        value_held: c[19],
        requester,
        fast: c[22],
        held_requester,
    }
}

pub fn put_core(c: &mut CoreArray, f: FlatCore)
    ensures { c.new ≡ core_numbers f }
{
    let last_v = f.last_v;
    let round = f.round;
    let held = f.max_rv;
    let promise = held.promise;
    let accept_round = promise.accept_round;
    *c = [
        f.slot,
        last_v.given,
        last_v.n,
        f.slot_left_fast_path,
        round.given,
        round.round_group,
        round.leader,
        held.given,
        promise.fast,
        promise.proposer,
        accept_round.given,
        accept_round.round_group,
        accept_round.leader,
        promise.v,
        f.prepared_set,
        f.accepted_set,
        f.next_id,
        f.open_count,
    ];
}

// The numbers of a message that is sent.
pub fn put_sent(out: &mut MessageArray, sent: Outgoing)
    ensures { out.new ≡ outgoing_numbers (encoded_outgoing (Some sent)) }
{
    let f = flat::encoded_outgoing(Some(sent));
    let first = f.first;
    let message = f.message;
    let rv = message.rv;
    let accept_round = rv.accept_round;
    let last_v = message.last_v;
    *out = [
        f.kind,
        f.to,
        first.given,
        first.n,
        message.kind,
        message.slot,
        message.round_group,
        message.leader,
        rv.fast,
        rv.proposer,
        accept_round.given,
        accept_round.round_group,
        accept_round.leader,
        rv.v,
        message.v,
        message.id,
        message.next_readable_slot,
        message.src,
        last_v.given,
        last_v.n,
    ];
}

// The message's numbers, or 0 as the kind of a message that is not sent.
#[tactic(auto, unfolding(crate::specs::Arrays::put_message))]
pub fn put_message(out: &mut MessageArray, m: Option<Outgoing>)
    ensures { out.new ≡ put_message m out.old }
{
    match m {
        None => {
            out[0] = 0;
        }
        Some(sent) => {
            put_sent(out, sent);
        }
    }
}

// The commit and the number of the reads that are served.
pub fn put_rest(rest: &mut RestArray, commit: Option<CommittedSlot>, served_count: u64)
    ensures { rest.new ≡ rest_numbers commit served_count }
{
    let f = flat::encoded_commit(commit);
    *rest = [f.given, f.slot, f.v, f.fast, served_count];
}
