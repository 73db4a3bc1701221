// Proposals, Commits, Prepares and Accepts in the classic modes on arrays that are lent: the core is taken out, handled by value, and written back with
// the reply. A ReadRequest writes the reply alone, and a refusal nothing. Each function that is large has one caller, so that it is compiled into it and
// its values stay in registers. Proposals, and steps that commit nothing, have a way of their own for the same reason.
#![tactic(auto)]

ghost use Rattle.std.specs.Prelude.{◌≡◌, Ok};
ghost use Rattle.arrays.specs.Arrays.{core_of};
ghost use Rattle.direct.specs.handlers.Handled.{put_reply, put_served, not_taken_number, call_number, left_with, serves_no_read, put_taken, asked_in, put_step, put_processed, handled_in_arrays, answer_request};
ghost use Rattle.direct.specs.declared.handlers.NotTaken.TheVariants.{Refused};
ghost use Rattle.propose.specs.Propose.{propose_classic};
ghost use Rattle.calls.specs.Replies.{sent_reply};
ghost use Rattle.direct.specs.handlers.CoreAnswers.{core_sends, core_committed, core_on_commit};
ghost use Rattle.steps.specs.Steps.{one_message};
ghost use Rattle.flat.specs.Decode.{decoded_core};

use arrays::{CoreArray, MessageArray, RestArray, Setup, Tables};
use basics::refusals::Refused;
use calls::Reply;
use flat::{COMMIT, FlatCall, FlatMessage};
use message::{Outcome, ReadId, Refusal};
use steps::{Asked, Core, CoreStep, Next, Outgoing, SentMessages, no_messages};

// Why a call is not taken: it is refused, or has to go to the other of the two functions for hosts.
#[derive(Clone, Copy, PartialEq, Eq, Debug)]
pub enum NotTaken {
    Refused(Refusal),
    PassedOn,
}

impl From<Refusal> for NotTaken {
    ghost from_gives = { λ why given. given ≡ Refused why };

    fn from(why: Refusal) -> NotTaken {
        NotTaken::Refused(why)
    }
}

impl Refused for NotTaken {
    ghost refusal_number = { not_taken_number };

    // As a host is told of it. No refusal has the number 255.
    fn number(self) -> u64 {
        match self {
            NotTaken::Refused(why) => why.number(),
            NotTaken::PassedOn => 255,
        }
    }
}

// What a host is told of a call: 0 where it is taken. `refusal` of refusals at this type, under the name by which direct and direct_fast cite its definition.
pub fn call_number(outcome: Result<(), NotTaken>) -> u64
    ensures { result ≡ call_number outcome }
{
    basics::refusals::refusal(outcome)
}

// What a call makes of the core, and its reply before reads are served. Where reads were open as it committed, some may have become ready.
#[derive(Clone, Copy)]
pub struct CoreAnswer {
    pub core: Core,
    pub reply: Reply,
    pub reads_open: bool,
}

// The core with what is sent.
pub fn core_sends(core: Core, messages: SentMessages) -> CoreAnswer
    ensures { result ≡ core_sends core messages }
{
    CoreAnswer {
        core,
        reply: calls::sent_reply(messages),
        reads_open: false,
    }
}

// The commit of a value, before reads are served.
#[tactic(auto, unfolding(crate::specs::handlers::CoreAnswers::core_committed))]
pub fn core_committed(a: Asked, v: u64, core: Core, messages: SentMessages) -> CoreAnswer
    ensures { result ≡ core_committed a v core messages }
{
    CoreAnswer {
        core: paxos_family::next_core(a, v, core),
        reply: calls::committed_reply(a, v, core, messages),
        reads_open: core.tracker.open_count > 0,
    }
}

// A Commit of an older slot does nothing. The own slot's commits, from any source and at any member. What is older is answered before (`is_older_message`);
// without the test the compiler keeps other numbers of the call in registers, and calls that never come here took up to a seventh longer (docs/BENCHMARKS.md).
#[tactic(auto, unfolding(crate::specs::handlers::CoreAnswers::core_on_commit))]
fn core_on_commit(a: Asked, slot: u64, v: u64, core: Core) -> CoreAnswer
    ensures { result ≡ core_on_commit a slot v core }
{
    if slot < core.slot {
        return core_sends(core, no_messages());
    }
    core_committed(a, v, core, no_messages())
}

// A reply as a host lends it: three messages, and the rest, behind the number that its call handed back, which the host writes. Any numbers may stand in it.
#[repr(C)]
#[derive(Clone, Copy)]
pub struct ReplyInArrays {
    pub outcome: u64,
    pub first: MessageArray,
    pub second: MessageArray,
    pub third: MessageArray,
    pub rest: RestArray,
}

impl ReplyInArrays {
    #[inline(always)]
    #[tactic(auto, unfolding(crate::specs::handlers::Handled::put_reply))]
    fn put_reply(&mut self, reply: Reply)
        ensures { self.new ≡ put_reply reply self.old }
    {
        let messages = reply.messages;
        arrays::put_message(&mut self.first, messages.first);
        arrays::put_message(&mut self.second, messages.second);
        arrays::put_message(&mut self.third, messages.third);
        arrays::put_rest(&mut self.rest, reply.commit, reply.served_count);
    }

    // The reply of a call that commits nothing and serves no read. Without `inline`, since two functions call it, the messages are copied for it, and a
    // proposal took twice as long (docs/DECISIONS.md 57).
    #[inline(always)]
    #[tactic(auto, unfolding(crate::specs::handlers::Handled::put_reply))]
    fn put_messages(&mut self, messages: SentMessages)
        ensures { self.new ≡ put_reply (sent_reply messages) self.old }
    {
        arrays::put_message(&mut self.first, messages.first);
        arrays::put_message(&mut self.second, messages.second);
        arrays::put_message(&mut self.third, messages.third);
        arrays::put_rest(&mut self.rest, None, 0);
    }

    // The reply of a call that sends and commits nothing, and has served so many reads.
    #[tactic(auto, unfolding(crate::specs::handlers::Handled::put_reply, arrays::specs::Arrays::put_message))]
    pub fn put_served(&mut self, served_count: u64)
        ensures { self.new ≡ put_served served_count self.old }
    {
        arrays::put_message(&mut self.first, None);
        arrays::put_message(&mut self.second, None);
        arrays::put_message(&mut self.third, None);
        arrays::put_rest(&mut self.rest, None, served_count);
    }

    // The reply of a call that sends one message.
    #[tactic(auto, unfolding(crate::specs::handlers::Handled::put_reply, arrays::specs::Arrays::put_message))]
    pub fn put_sent(&mut self, sent: Outgoing)
        ensures { self.new ≡ put_reply (sent_reply (one_message sent)) self.old }
    {
        arrays::put_sent(&mut self.first, sent);
        arrays::put_message(&mut self.second, None);
        arrays::put_message(&mut self.third, None);
        arrays::put_rest(&mut self.rest, None, 0);
    }
}

// What the core answers to a call that is taken, written into the arrays. Hands back whether open reads may have become ready, so that they have to be
// served. Without `inline`, since it has two callers, the references of the reply stand in memory for every call, and a new read and a call that is refused
// took a quarter longer.
#[inline(always)]
pub fn put_taken(core: &mut CoreArray, reply: &mut ReplyInArrays, a: CoreAnswer) -> bool
    ensures written { left_with (Ok result) core.new reply.new ≡ put_taken a reply.old }
{
    arrays::put_core(core, flat::encoded_core(a.core));
    reply.put_reply(a.reply);
    a.reads_open
}

// The answer to a ReadRequest, which leaves the core as it is. One's own is refused: nothing is sent to oneself.
#[tactic(auto, unfolding(crate::specs::handlers::Handled::answer_request))]
pub fn answer_request(
    setup: Setup,
    core: &CoreArray,
    message: FlatMessage,
    reply: &mut ReplyInArrays,
) -> Outcome
    ensures written { left_with (serves_no_read result) core.now reply.new ≡ answer_request setup core.now message reply.old }
{
    let own = setup.my_pid;
    let src = flat::decoded_source(setup.process_count, own, message);
    if src == own {
        return Err(Refusal::Panic);
    }
    let decoded = flat::decoded_core(arrays::core_in(core));
    reply.put_sent(calls::read_answer(own, src, ReadId(message.id), decoded));
    Ok(())
}

// A proposal. It commits nothing, so that nothing but the core and the messages is to be written.
#[tactic(auto, unfolding(crate::specs::handlers::Handled::put_step))]
pub fn propose_in_arrays(
    setup: Setup,
    core: &mut CoreArray,
    v: u64,
    reply: &mut ReplyInArrays,
) -> Outcome
    ensures written { left_with (serves_no_read result) core.new reply.new
        ≡ put_step (propose_classic (asked_in setup) v (decoded_core (core_of core.old))) core.old reply.old }
{
    let asked = questions::decided::asked_of(setup);
    let decoded = flat::decoded_core(arrays::core_in(core));
    let step = propose::propose_classic(asked, v, decoded)?;
    arrays::put_core(core, flat::encoded_core(step.state));
    reply.put_messages(step.messages);
    Ok(())
}

// The step of a message. Most commit nothing, so that nothing but the core and the messages is to be written. A commit needs its value.
#[tactic(auto, unfolding(crate::specs::handlers::Handled::put_processed, crate::specs::handlers::Handled::put_next))]
fn put_processed(
    asked: Asked,
    held: bool,
    core: &mut CoreArray,
    reply: &mut ReplyInArrays,
    step: CoreStep,
) -> Result<bool, Refusal>
    ensures written { left_with result core.new reply.new ≡ put_processed asked held (Ok step) core.old reply.old }
{
    if let Next::Commits(v) = step.next {
        if !held {
            return Err(Refusal::ValueNotHeld);
        }
        let decided = core_committed(asked, v, step.state, step.messages);
        return Ok(put_taken(core, reply, decided));
    }
    arrays::put_core(core, flat::encoded_core(step.state));
    reply.put_messages(step.messages);
    Ok(false)
}

// A Commit, or what the rounds handle.
#[tactic(auto, unfolding(crate::specs::handlers::Handled::handled_in_arrays, crate::specs::handlers::Handled::put_processed))]
pub fn handled_in_arrays(
    setup: Setup,
    tables: Tables<'_>,
    core: &mut CoreArray,
    f: FlatCall,
    reply: &mut ReplyInArrays,
) -> Result<bool, Refusal>
    ensures written { left_with result core.new reply.new
        ≡ handled_in_arrays setup tables.entry.committers.now tables.entry.delegates.now core.old f reply.old }
{
    let asked = questions::decided::asked_of(setup);
    let decoded = flat::decoded_core(arrays::core_in(core));
    let message = f.message;
    if message.kind == COMMIT {
        let committed = core_on_commit(asked, message.slot, message.v, decoded);
        return Ok(put_taken(core, reply, committed));
    }
    let heard = questions::decided::heard_of(setup, tables, f);
    let held = flat::is_yes(f.value_held);
    let msg = flat::decoded_msg(message);
    let step = paxos_family::process_classic(asked, heard, msg, decoded)?;
    put_processed(asked, held, core, reply, step)
}
