// What is decided of a call before it is handled, and what the handlers ask of the settings and of a message, on the flat forms: each question looks at the
// numbers that it needs, so that no table and no message is copied for a call that is refused or ignored.
#![tactic(auto)]

ghost use Rattle.std.specs.Prelude.{◌≡◌, cond, [], None, Some, option_copied};
ghost use Rattle.arrays.specs.Arrays.{settings_of, setup_of, core_of, flat_call_of};
ghost use Rattle.calls.specs.Asked.{asked_of, heard_of};
ghost use Rattle.calls.specs.Decision.{admission_of};
ghost use Rattle.calls.specs.delivery.Admit.{admit, ready};
ghost use Rattle.calls.specs.delivery.Limits.{numbers_fit, processes_fit};
ghost use Rattle.flat.specs.Decode.{is_yes, decoded_call, decoded_core, decoded_delivery, decoded_settings};
ghost use Rattle.questions.specs.decided.Refusals.{is_small, is_below, is_plain, unfit, refusal_of};

use arrays::{CallArray, CoreArray, Setup, SetupArray, Tables};
use basics::tables::PerProcess;
use flat::{FlatCall, FlatCore};
use message::{Outcome, PFMode, PaxosRound, Refusal};
use round_state::Member;
use steps::{Asked, Heard};

// Whether a message has no large number at all, whatever its kind: neither its own nor what the host adds to it. Nearly all have none, and this is
// one test of all bits together.
#[tactic(auto, unfolding(crate::specs::decided::Refusals::is_small))]
fn is_small(f: FlatCall) -> bool
    ensures { result ≡ is_small f }
{
    let m = f.message;
    let at = m.rv.accept_round;
    let round = m.round_group | m.leader;
    let promise = m.rv.proposer | at.round_group | at.leader | m.rv.v;
    let own = m.v | m.id | m.next_readable_slot | m.src;
    let added = m.last_v.n | f.requester.n | f.held_requester.n;
    message::limits::is_number(round | promise | own | added) && message::limits::is_slot(m.slot)
}

// Whether every number that can be a process is below the count, whatever the kind.
#[tactic(auto, unfolding(crate::specs::decided::Refusals::is_below))]
fn is_below(n: u64, f: FlatCall) -> bool
    ensures { result ≡ is_below n f }
{
    let m = f.message;
    m.src < n
        && m.leader < n
        && m.rv.proposer < n
        && m.rv.accept_round.leader < n
        && f.requester.n < n
        && f.held_requester.n < n
}

// A message of a kind that there is, whose numbers and processes fit at sight.
#[tactic(auto, unfolding(crate::specs::decided::Refusals::is_plain))]
fn is_plain(n: u64, f: FlatCall) -> bool
    ensures { result ≡ is_plain n f }
{
    flat::is_known(f.message.kind) && is_small(f) && is_below(n, f)
}

// Each question reads the call for itself, so that what it does not ask is not read.
fn is_plain_in(n: u64, call: &CallArray) -> bool
    ensures { result ≡ is_plain n (flat_call_of call.now) }
{
    is_plain(n, arrays::flat_call_of(call))
}

// Refusal 2: whether no number is too large.
fn numbers_fit_in(process_count: u64, own: u64, call: &CallArray) -> bool
    ensures { result ≡ numbers_fit (decoded_delivery process_count own (flat_call_of call.now)) }
{
    flat::decoded_delivery(process_count, own, arrays::flat_call_of(call)).numbers_fit()
}

// Refusal 3: whether every process number is below the count.
fn processes_fit_in(process_count: u64, own: u64, call: &CallArray) -> bool
    ensures { result ≡ processes_fit process_count (decoded_delivery process_count own (flat_call_of call.now)) }
{
    flat::decoded_delivery(process_count, own, arrays::flat_call_of(call)).processes_fit(
        process_count,
    )
}

// Refusals 2 and 3. Not delivery's `admit`, which is a Delivery's, by value, and asks all: here one test of all numbers comes first, which has no like there,
// and each question reads the call out of the array for itself.
fn unfit(process_count: u64, own: u64, call: &CallArray) -> Outcome
    ensures { result ≡ unfit (numbers_fit (decoded_delivery process_count own (flat_call_of call.now))) (processes_fit process_count (decoded_delivery process_count own (flat_call_of call.now))) }
{
    if is_plain_in(process_count, call) {
        return Ok(());
    }
    if !numbers_fit_in(process_count, own, call) {
        return Err(Refusal::NumberTooLarge);
    }
    if !processes_fit_in(process_count, own, call) {
        return Err(Refusal::NoSuchProcess);
    }
    Ok(())
}

// Refusals 5, and 4 before 6. Of another slot than the own one neither 4 nor 6 is asked. The process count is there for the contract alone. Not `ready` of a
// Delivery, which is made of the whole message with the host's words: of another slot nothing but the slot is read here. What both ask is one (`is_ahead`,
// `is_own_slot`, `is_other_last`, `needs_value`).
#[tactic(auto, unfolding(calls::specs::delivery::Admit::ready, calls::specs::delivery::Admit::other_last_value, calls::specs::delivery::Admit::value_awaited))]
fn ready(process_count: u64, own: u64, core: FlatCore, f: FlatCall) -> Outcome
    ensures { result ≡ ready own (decoded_core core) (decoded_delivery process_count own f) }
{
    let msg = flat::decoded_msg(f.message);
    let slot = msg.get_slot();
    let at = flat::decoded_core(core);
    if calls::delivery::is_ahead(at, slot) {
        return Err(Refusal::SlotAhead);
    }
    if !calls::delivery::is_own_slot(at, slot) {
        return Ok(());
    }
    if calls::delivery::is_other_last(at, flat::decoded_option(f.message.last_v)) {
        return Err(Refusal::OtherLastValue);
    }
    if calls::delivery::needs_value(own, msg) && !flat::is_yes(f.value_held) {
        return Err(Refusal::ValueNotHeld);
    }
    Ok(())
}

fn ready_in(process_count: u64, own: u64, core: &CoreArray, call: &CallArray) -> Outcome
    ensures { result ≡ ready own (decoded_core (core_of core.now)) (decoded_delivery process_count own (flat_call_of call.now)) }
{
    ready(
        process_count,
        own,
        arrays::core_in(core),
        arrays::flat_call_of(call),
    )
}

// A message: 2, 3, then 5, or 4 before 6.
#[tactic(auto, unfolding(calls::specs::delivery::Admit::admit))]
fn message_refusal(process_count: u64, own: u64, core: &CoreArray, call: &CallArray) -> Outcome
    ensures { result ≡ admit process_count own (decoded_core (core_of core.now)) (decoded_delivery process_count own (flat_call_of call.now)) }
{
    unfit(process_count, own, call)?;
    ready_in(process_count, own, core, call)
}

// A proposal and a new read are refused for their numbers.
#[tactic(auto, unfolding(calls::specs::Decision::admission_of, flat::specs::Decode::decoded_call))]
fn call_refusal(process_count: u64, own: u64, core: &CoreArray, call: &CallArray) -> Outcome
    ensures { result ≡ admission_of process_count own (decoded_core (core_of core.now)) (decoded_call process_count own (flat_call_of call.now)) }
{
    let f = arrays::flat_call_of(call);
    let fits = match f.kind {
        flat::PROPOSAL => message::limits::is_number(f.v),
        flat::NEW_READ => message::limits::is_number(f.v)
            && message::limits::is_slot(f.arrival_slot),
        _ => return message_refusal(process_count, own, core, call),
    };
    if fits {
        return Ok(());
    }
    Err(Refusal::NumberTooLarge)
}

// Why a call is refused before it is handled: 1 of a shard that is not made, 2 of one whose slots are spent, and then what refuses the call. Not by calls'
// `unless_unmade` and `unless_spent`, which go on to a Call by value: they hand a made shard's call to `admit`, and this one to the questions above.
#[tactic(auto, unfolding(calls::specs::Decision::unless_spent))]
pub fn refusal_of(setup: &SetupArray, core: &CoreArray, call: &CallArray) -> Outcome
    ensures { result ≡ refusal_of (setup_of setup.now) (core_of core.now) (flat_call_of call.now) }
{
    let s = arrays::setup_in(setup);
    flat::decoded_made(s.made, s.mode)?;
    let c = arrays::core_in(core);
    if c.slot >= message::LARGEST_NUMBER {
        return Err(Refusal::NumberTooLarge);
    }
    call_refusal(s.process_count, s.my_pid, core, call)
}

// What the handlers ask of the settings. None of it is in the tables. Not by calls::asked_of, which takes the settings with their tables: they would be copied.
pub fn asked_of(setup: Setup) -> Asked
    ensures { result ≡ asked_of (decoded_settings (settings_of setup [] [])) }
{
    let mode = PFMode::of_number(setup.mode);
    let member = Member {
        my_pid: setup.my_pid,
        replica: basics::sets::contains(setup.alive_replicas, setup.my_pid),
        quorums: quorum::row_of(setup.replica_count),
    };
    Asked {
        member,
        mode,
        starting_round: PaxosRound::starting(mode, setup.first_leader),
        first_leader: setup.first_leader,
        quorum: flat::decoded_option(setup.quorum),
    }
}

// The table of committers, where committers are given.
fn table_given(flag: u64, table: &PerProcess) -> Option<&PerProcess>
    ensures { option_copied result ≡ cond (is_yes flag) (Some table.now) None }
{
    flat::is_yes(flag).then_some(table)
}

// What the handlers ask of a message. Not by calls::heard_of, which takes the settings with their tables: they would be copied.
pub fn heard_of(setup: Setup, tables: Tables<'_>, f: FlatCall) -> Heard
    ensures { result ≡ heard_of (decoded_settings (settings_of setup tables.entry.committers.now tables.entry.delegates.now)) (decoded_delivery setup.process_count setup.my_pid f) }
{
    let src = flat::decoded_source(setup.process_count, setup.my_pid, f.message);
    let requester = flat::decoded_option(f.requester);
    let mode = PFMode::of_number(setup.mode);
    let msg = flat::decoded_msg(f.message);
    let given = table_given(setup.has_committers, tables.committers);
    Heard {
        src,
        source_live: basics::sets::contains(setup.alive_replicas, src),
        delegate: calls::gatherer_in(setup.my_pid, mode, tables.delegates, msg),
        requester,
        committer: settings::committer_in(given, mode, requester),
        held_requester: flat::decoded_option(f.held_requester),
    }
}
