// A call on a shard that a host lends as arrays of numbers, changed in place. The arrays are the memory of a shard, of a call and of a reply as structs.
// A call that is refused writes nothing. EPaxos and SwiftPaxos are passed on where the fast half has to act: then too nothing is written.
#![tactic(auto)]

pub mod handlers;

ghost use Rattle.std.specs.Prelude.{◌≡◌, OnErr, Ok};
ghost use Rattle.arrays.specs.reads.Rows.{reads_in};
ghost use Rattle.arrays.specs.Arrays.{setup_of, core_of, flat_call_of};
ghost use Rattle.direct.specs.Direct.{tracker_of, flat_with_tracker, arrays_after, start_flat_read, count_response, flat_read_response, serving, serve_ready, is_response, concerns_slot, names_slot, of_older_round, is_older_message, classic_message, slot_call, flat_call_taken, call_made, LeftUnlessTaken};
ghost use Rattle.direct.specs.Stands.{memory_in, host_has, by_direct, DirectStands};

use crate::handlers::{NotTaken, ReplyInArrays};
use arrays::reads::ReadArrays;
use arrays::{CallArray, CoreArray, RestArray, SettingsArrays, Setup, ShardArrays, Tables};
use flat::{
    ACCEPT, COMMIT, FlatCall, FlatCore, FlatMessage, NEW_READ, PREPARE, PROPOSAL, READ_RESPONSE,
};
use message::{ConsensusMsg, PFMode, ReadId};
use read_tracker::{Opening, ReadTracker};

// setup, tables, core and reply are parameters of their own, here, in direct::handlers and in direct_fast: half of the functions take two or three of them, core is
// changed in some and read in others, and a struct of all would be lent and taken apart in each contract.

// What is done with the reads (`start_flat_read`, `count_response`, `serve_ready`, `flat_with_tracker`) has twins in consensus (`start_read`, `on_read_response`,
// `committed`, `with_tracker`). Those take a state with its table of 128 reads of either kind by value and hand it back; here the numbers that change are
// written where they stand. What both decide is one: `open_next` of a tracker, and the walks of crates/read_tracker/src/serving.rt.

// A new read, which everyone is asked for. The own answer counts at once where nothing is held.
#[tactic(auto, unfolding(crate::specs::Direct::opened_or_refused))]
fn start_flat_read(
    setup: Setup,
    core: &mut CoreArray,
    reads: &mut ReadArrays,
    f: FlatCall,
    reply: &mut ReplyInArrays,
) -> Result<(), NotTaken>
    ensures written { arrays_after result core.new (reads_in reads.new) reply.new
        ≡ start_flat_read setup core.old (reads_in reads.old) f reply.old }
    ensures refused { OnErr result (reads.new ≡ reads.old) }
{
    let c = arrays::core_in(core);
    let local_ready = c.max_rv.given == 0;
    let Opening { read, tracker } = tracker_of(c).open_next(f.v, f.arrival_slot, local_ready)?;
    reads.insert(c.open_count, read);
    arrays::put_core(core, flat_with_tracker(c, tracker));
    let asked = questions::decided::asked_of(setup);
    let request = ConsensusMsg::ReadRequest { id: read.id };
    reply.put_sent(asked.sends(flat::decoded_core(c), steps::to_all(), request));
    Ok(())
}

fn tracker_of(c: FlatCore) -> ReadTracker
    ensures { result ≡ tracker_of c }
{
    ReadTracker {
        next_id: c.next_id,
        open_count: c.open_count,
    }
}

// Without `inline` the core is copied for it, and a new read took a quarter longer.
#[inline(always)]
fn flat_with_tracker(mut c: FlatCore, tracker: ReadTracker) -> FlatCore
    ensures { result ≡ flat_with_tracker tracker c }
{
    c.next_id = tracker.next_id;
    c.open_count = tracker.open_count;
    c
}

// A response counts, of an older slot too.
#[tactic(auto, unfolding(crate::specs::Direct::count_response))]
fn count_response(
    setup: Setup,
    core: &mut CoreArray,
    reads: &mut ReadArrays,
    f: FlatCall,
    reply: &mut ReplyInArrays,
)
    ensures written { arrays_after (Ok tt) core.new (reads_in reads.new) reply.new
        ≡ count_response setup core.old (reads_in reads.old) f reply.old }
{
    let c = arrays::core_in(core);
    let majority = questions::counted::setup_majority(setup);
    let id = ReadId(f.message.id);
    let fast = flat::is_yes(f.fast);
    let counted = reads.receive_ready(tracker_of(c), id, majority, c.slot, fast);
    arrays::put_core(core, flat_with_tracker(c, counted.tracker));
    reply.put_served(counted.served_count);
}

// Where no read is open a response changes nothing.
#[tactic(auto, unfolding(crate::specs::Direct::flat_read_response))]
fn flat_read_response(
    setup: Setup,
    core: &mut CoreArray,
    reads: &mut ReadArrays,
    f: FlatCall,
    reply: &mut ReplyInArrays,
)
    ensures written { arrays_after (Ok tt) core.new (reads_in reads.new) reply.new
        ≡ flat_read_response setup core.old (reads_in reads.old) f reply.old }
{
    let c = arrays::core_in(core);
    if c.open_count == 0 {
        reply.put_served(0);
        return;
    }
    count_response(setup, core, reads, f, reply);
}

// After a commit: the reads that it has made ready.
#[tactic(auto, unfolding(crate::specs::Direct::serve_ready))]
pub fn serve_ready(setup: Setup, core: &mut CoreArray, reads: &mut ReadArrays, rest: &mut RestArray)
    ensures written { serving core.new (reads_in reads.new) rest.new ≡ serve_ready setup core.old (reads_in reads.old) rest.old }
{
    let c = arrays::core_in(core);
    let majority = questions::counted::setup_majority(setup);
    let ready = reads.commit_slot(tracker_of(c), majority, c.slot);
    arrays::put_core(core, flat_with_tracker(c, ready.tracker));
    rest[4] = ready.served_count;
}

#[tactic(auto, unfolding(crate::specs::Direct::is_response))]
fn is_response(f: FlatCall) -> bool
    ensures { result ≡ is_response f }
{
    f.kind != PROPOSAL && f.message.kind == READ_RESPONSE
}

// A proposal, a Prepare, an Accept, a ForwardRequest or a Commit: kinds 1 to 4.
#[tactic(auto, unfolding(crate::specs::Direct::concerns_slot))]
pub fn concerns_slot(f: FlatCall) -> bool
    ensures { result ≡ concerns_slot f }
{
    if f.kind == PROPOSAL {
        return true;
    }
    PREPARE <= f.message.kind && f.message.kind <= COMMIT
}

#[tactic(auto, unfolding(crate::specs::Direct::names_slot))]
fn names_slot(kind: u64) -> bool
    ensures { result ≡ names_slot kind }
{
    kind == PREPARE || kind == ACCEPT || kind == COMMIT
}

// Whether a Prepare or an Accept is of an older round.
#[tactic(auto, unfolding(crate::specs::Direct::of_older_round))]
fn of_older_round(c: FlatCore, m: FlatMessage) -> bool
    ensures { result ≡ of_older_round c m }
{
    m.kind != COMMIT && Some(questions::counted::round_in(m)) < flat::decoded_round(c.round)
}

// Whether the message is a Prepare or an Accept of an older slot or round, or a Commit of an older slot, which does nothing.
#[tactic(auto, unfolding(crate::specs::Direct::is_older_message))]
pub fn is_older_message(c: FlatCore, m: FlatMessage) -> bool
    ensures { result ≡ is_older_message c m }
{
    if !names_slot(m.kind) {
        return false;
    }
    if m.slot < c.slot {
        return true;
    }
    of_older_round(c, m)
}

// Takes the core out for this question alone, so that the compiler loads only the numbers that it asks for.
#[tactic(auto, unfolding(crate::specs::Direct::is_older_message))]
fn is_older_in(core: &CoreArray, m: FlatMessage) -> bool
    ensures { result ≡ is_older_message (core_of core.now) m }
{
    is_older_message(arrays::core_in(core), m)
}

// A message in the classic modes: what is old does nothing, and an answer that is only counted changes a set. The core handles the rest; where it commits,
// the open reads that became ready are served.
#[tactic(auto, unfolding(crate::specs::Direct::classic_message, crate::specs::Direct::served_after))]
fn classic_message(
    setup: Setup,
    tables: Tables<'_>,
    core: &mut CoreArray,
    reads: &mut ReadArrays,
    f: FlatCall,
    reply: &mut ReplyInArrays,
) -> Result<(), NotTaken>
    ensures written { arrays_after result core.new (reads_in reads.new) reply.new
        ≡ classic_message setup tables.entry.committers.now tables.entry.delegates.now core.old (reads_in reads.old) f reply.old }
    ensures refused { OnErr result (reads.new ≡ reads.old) }
{
    let message = f.message;
    if is_older_in(core, message) {
        reply.put_served(0);
        return Ok(());
    }
    let c = arrays::core_in(core);
    if questions::counted::only_counts(setup, tables.delegates, c, message) {
        arrays::put_core(core, questions::counted::with_counted(setup, c, message));
        reply.put_served(0);
        return Ok(());
    }
    if crate::handlers::handled_in_arrays(setup, tables, core, f, reply)? {
        serve_ready(setup, core, reads, &mut reply.rest);
    }
    Ok(())
}

// What concerns a slot is passed on in EPaxos and SwiftPaxos, since the fast half has to act.
#[tactic(auto, unfolding(crate::specs::Direct::slot_call, crate::specs::Direct::served_after))]
fn slot_call(
    setup: Setup,
    tables: Tables<'_>,
    core: &mut CoreArray,
    reads: &mut ReadArrays,
    f: FlatCall,
    reply: &mut ReplyInArrays,
) -> Result<(), NotTaken>
    ensures written { arrays_after result core.new (reads_in reads.new) reply.new
        ≡ slot_call setup tables.entry.committers.now tables.entry.delegates.now core.old (reads_in reads.old) f reply.old }
    ensures refused { OnErr result (reads.new ≡ reads.old) }
{
    if PFMode::of_number(setup.mode).has_fast_path() {
        return Err(NotTaken::PassedOn);
    }
    if f.kind == PROPOSAL {
        crate::handlers::propose_in_arrays(setup, core, f.v, reply)?;
        return Ok(());
    }
    classic_message(setup, tables, core, reads, f, reply)
}

// A call that was not refused, other than a new read.
#[tactic(auto, unfolding(crate::specs::Direct::flat_call_taken, crate::specs::Direct::served_after))]
fn flat_call_taken(
    setup: Setup,
    tables: Tables<'_>,
    core: &mut CoreArray,
    reads: &mut ReadArrays,
    f: FlatCall,
    reply: &mut ReplyInArrays,
) -> Result<(), NotTaken>
    ensures written { arrays_after result core.new (reads_in reads.new) reply.new
        ≡ flat_call_taken setup tables.entry.committers.now tables.entry.delegates.now core.old (reads_in reads.old) f reply.old }
    ensures refused { OnErr result (reads.new ≡ reads.old) }
{
    if is_response(f) {
        flat_read_response(setup, core, reads, f, reply);
        return Ok(());
    }
    if concerns_slot(f) {
        return slot_call(setup, tables, core, reads, f, reply);
    }
    crate::handlers::answer_request(setup, core, f.message, reply)?;
    Ok(())
}

// A call on the parts of a shard.
#[tactic(auto, unfolding(crate::specs::Direct::if_admitted))]
fn call_made(
    settings: &SettingsArrays,
    core: &mut CoreArray,
    reads: &mut ReadArrays,
    call: &CallArray,
    reply: &mut ReplyInArrays,
) -> Result<(), NotTaken>
    ensures written { arrays_after result core.new (reads_in reads.new) reply.new
        ≡ call_made (setup_of settings.now.setup) settings.now.committers settings.now.delegates core.old (reads_in reads.old) (flat_call_of call.now) reply.old }
    ensures refused { OnErr result (reads.new ≡ reads.old) }
{
    questions::decided::refusal_of(&settings.setup, core, call)?;
    let s = arrays::setup_in(&settings.setup);
    let f = arrays::flat_call_of(call);
    if f.kind == NEW_READ {
        return start_flat_read(s, core, reads, f, reply);
    }
    let tables = Tables {
        committers: &settings.committers,
        delegates: &settings.delegates,
    };
    flat_call_taken(s, tables, core, reads, f, reply)
}

// A call on a shard that is lent: what is left in its arrays stands for the engine's call of the shard that they stood for (`stands`), and which numbers are left
// is `by_direct` (`numbers`). 0: it was taken, and core, reads and reply are written. 1 to 12, or 17: it is refused with this number. 255: it has to go to
// the fast half, and nothing is written.
#[tactic(auto, unfolding(crate::specs::Direct::direct_call))]
pub fn chanbook_direct_call(
    shard: &mut ShardArrays,
    call: &CallArray,
    reply: &mut ReplyInArrays,
) -> u64
    ensures stands { DirectStands (memory_in shard.old) (flat_call_of call.now) reply.old (host_has result shard.new reply.new) }
    ensures numbers { host_has result shard.new reply.new ≡ by_direct (memory_in shard.old) (flat_call_of call.now) reply.old }
    ensures kept { (shard.new.settings ≡ shard.old.settings) × (shard.new.fast ≡ shard.old.fast) }
    ensures left_unless_taken { LeftUnlessTaken result shard.old.reads shard.new.reads }
{
    crate::handlers::call_number(call_made(
        &shard.settings,
        &mut shard.core,
        &mut shard.reads,
        call,
        reply,
    ))
}
