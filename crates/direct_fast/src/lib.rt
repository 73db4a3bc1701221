// A call in EPaxos or SwiftPaxos on a shard that a host lends as arrays of numbers, changed in place: what `chanbook_direct_call` passes on. A call
// that is refused writes nothing. It stands in a library of its own, so that the handlers, which the classic modes share, have one caller in each.
#![tactic(auto)]

pub mod finish;
pub mod half;

ghost use Rattle.std.specs.Prelude.{◌≡◌, Ok, OnErr};
ghost use Rattle.arrays.specs.reads.Rows.{reads_in};
ghost use Rattle.arrays.specs.Arrays.{setup_of, flat_call_of};
ghost use Rattle.direct.specs.Direct.{fast_half_acts, LeftUnlessTaken};
ghost use Rattle.direct.specs.Stands.{memory_in, host_has};
ghost use Rattle.direct_fast.specs.DirectFast.{fast_step, holds_value, half_answer, fast_leaves, put_fast, fast_written, fast_direct, fast_handled, is_old, fast_made};
ghost use Rattle.direct_fast.specs.FastStands.{by_fast, FastStands};

use crate::finish::HalfAnswer;
use arrays::reads::ReadArrays;
use arrays::{CallArray, CoreArray, FastArrays, SettingsArrays, Setup, ShardArrays, Tables};
use direct::handlers::{NotTaken, ReplyInArrays};
use fast_state::{FastAnswers, FastTables};
use flat::{COMMIT, FlatCall, FlatCore, NEW_READ, PROPOSAL};
use message::{PFMode, Refusal};
use steps::{Asked, ChangeStep, Core};

// Whether the fast half has a part in the call: in EPaxos and SwiftPaxos, in what concerns a slot and is no new read.
#[tactic(auto, unfolding(direct::specs::Direct::fast_half_acts))]
fn fast_half_acts(setup: Setup, f: FlatCall) -> bool
    ensures { result ≡ fast_half_acts setup f }
{
    let mode = PFMode::of_number(setup.mode);
    if f.kind == NEW_READ {
        return false;
    }
    if mode.has_fast_path() {
        return direct::concerns_slot(f);
    }
    false
}

// Whether the call is a message that is too old to do anything.
#[tactic(auto, unfolding(crate::specs::DirectFast::is_old))]
fn is_old(c: FlatCore, f: FlatCall) -> bool
    ensures { result ≡ is_old c f }
{
    if f.kind == PROPOSAL {
        return false;
    }
    direct::is_older_message(c, f.message)
}

// The step of a proposal, of a Commit of the own slot, or of what the rounds handle.
#[tactic(auto, unfolding(crate::specs::DirectFast::fast_step))]
fn fast_step(
    asked: Asked,
    setup: Setup,
    tables: Tables<'_>,
    core: Core,
    answers: FastAnswers,
    half: &FastArrays,
    f: FlatCall,
) -> Result<ChangeStep, Refusal>
    ensures { result ≡ fast_step asked setup tables.entry.committers.now tables.entry.delegates.now core answers half.now f }
{
    let message = f.message;
    if f.kind == PROPOSAL {
        return propose::propose_change(asked, f.v, core, answers, &half.epaxos, &half.swift);
    }
    if message.kind == COMMIT {
        return Ok(core.commits_silent(message.v).unchanged(answers));
    }
    let heard = questions::decided::heard_of(setup, tables, f);
    let msg = flat::decoded_msg(message);
    let scores = FastTables {
        values: &half.values,
        epaxos_scores: &half.epaxos,
        swift_scores: &half.swift,
    };
    paxos_family::process_change(asked, heard, msg, core, answers, scores)
}

// Whether the host holds the value: the one that it proposes, and that of a Commit, which refusal 6 has asked for.
#[tactic(auto, unfolding(crate::specs::DirectFast::holds_value))]
fn holds_value(f: FlatCall) -> bool
    ensures { result ≡ holds_value f }
{
    if f.kind == PROPOSAL {
        return true;
    }
    if f.message.kind == COMMIT {
        return true;
    }
    flat::is_yes(f.value_held)
}

// All that is not refused ends here, so that the end has one caller.
#[tactic(auto, unfolding(crate::specs::DirectFast::half_answer))]
fn half_answer(
    setup: Setup,
    tables: Tables<'_>,
    core: Core,
    half: &FastArrays,
    f: FlatCall,
) -> Result<HalfAnswer, Refusal>
    ensures { result ≡ half_answer setup tables.entry.committers.now tables.entry.delegates.now core half.now f }
{
    let asked = questions::decided::asked_of(setup);
    let answers = crate::half::answers_in(&half.answers);
    let step = fast_step(asked, setup, tables, core, answers, half, f);
    crate::finish::fast_finish(asked, holds_value(f), step)
}

// What is answered to a call that is taken, written into the arrays. Hands back whether open reads may have become ready.
fn put_fast(
    core: &mut CoreArray,
    half: &mut FastArrays,
    reply: &mut ReplyInArrays,
    x: HalfAnswer,
) -> bool
    ensures written { fast_leaves (Ok result) core.new half.new reply.new ≡ put_fast x half.old reply.old }
{
    crate::half::put_after(half, x.after);
    direct::handlers::put_taken(core, reply, x.answer)
}

// The answer to a call that is not too old, written into the arrays. A refusal writes nothing.
#[tactic(auto, unfolding(crate::specs::DirectFast::put_answered))]
fn fast_written(
    setup: Setup,
    tables: Tables<'_>,
    core: &mut CoreArray,
    half: &mut FastArrays,
    f: FlatCall,
    reply: &mut ReplyInArrays,
) -> Result<bool, Refusal>
    ensures written { fast_leaves result core.new half.new reply.new
        ≡ fast_written setup tables.entry.committers.now tables.entry.delegates.now core.old half.old f reply.old }
{
    let decoded = flat::decoded_core(arrays::core_in(core));
    let x = half_answer(setup, tables, decoded, half, f)?;
    Ok(put_fast(core, half, reply, x))
}

// What is old does nothing. Where a value is committed, the open reads that became ready are served.
#[tactic(auto, unfolding(crate::specs::DirectFast::fast_handled, direct::specs::Direct::served_after))]
fn fast_handled(
    setup: Setup,
    tables: Tables<'_>,
    core: &mut CoreArray,
    half: &mut FastArrays,
    reads: &mut ReadArrays,
    f: FlatCall,
    reply: &mut ReplyInArrays,
) -> Result<(), NotTaken>
    ensures written { fast_direct result core.new half.new (reads_in reads.new) reply.new
        ≡ fast_handled setup tables.entry.committers.now tables.entry.delegates.now core.old half.old (reads_in reads.old) f reply.old }
    ensures refused { OnErr result (reads.new ≡ reads.old) }
{
    if is_old(arrays::core_in(core), f) {
        reply.put_served(0);
        return Ok(());
    }
    if fast_written(setup, tables, core, half, f, reply)? {
        direct::serve_ready(setup, core, reads, &mut reply.rest);
    }
    Ok(())
}

// A call on the parts of a shard. What the fast half has no part in is passed on.
#[tactic(auto, unfolding(crate::specs::DirectFast::fast_made, crate::specs::DirectFast::fast_unless_refused))]
fn fast_made(
    settings: &SettingsArrays,
    core: &mut CoreArray,
    half: &mut FastArrays,
    reads: &mut ReadArrays,
    call: &CallArray,
    reply: &mut ReplyInArrays,
) -> Result<(), NotTaken>
    ensures written { fast_direct result core.new half.new (reads_in reads.new) reply.new
        ≡ fast_made (setup_of settings.now.setup) settings.now.committers settings.now.delegates core.old half.old (reads_in reads.old) (flat_call_of call.now) reply.old }
    ensures refused { OnErr result (reads.new ≡ reads.old) }
{
    let s = arrays::setup_in(&settings.setup);
    let f = arrays::flat_call_of(call);
    if !fast_half_acts(s, f) {
        return Err(NotTaken::PassedOn);
    }
    questions::decided::refusal_of(&settings.setup, core, call)?;
    let tables = Tables {
        committers: &settings.committers,
        delegates: &settings.delegates,
    };
    fast_handled(s, tables, core, half, reads, f, reply)
}

// A call on a shard that is lent: what is left in its arrays stands for the engine's call of the shard that they stood for (`stands`), and which numbers are left
// is `by_fast` (`numbers`). 0: it was taken, and core, fast half, reads and reply are written. 1 to 12, or 17: it is refused with this number. 255: it goes
// to `chanbook_direct_call`, since the fast half has no part in it, and nothing is written.
#[tactic(auto, unfolding(crate::specs::DirectFast::fast_call))]
pub fn chanbook_fast_call(
    shard: &mut ShardArrays,
    call: &CallArray,
    reply: &mut ReplyInArrays,
) -> u64
    ensures stands { FastStands (memory_in shard.old) (flat_call_of call.now) reply.old (host_has result shard.new reply.new) }
    ensures numbers { host_has result shard.new reply.new ≡ by_fast (memory_in shard.old) (flat_call_of call.now) reply.old }
    ensures kept { shard.new.settings ≡ shard.old.settings }
    ensures left_unless_taken { LeftUnlessTaken result shard.old.reads shard.new.reads }
{
    direct::handlers::call_number(fast_made(
        &shard.settings,
        &mut shard.core,
        &mut shard.fast,
        &mut shard.reads,
        call,
        reply,
    ))
}
