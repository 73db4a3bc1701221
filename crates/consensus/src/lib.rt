// The shard and its calls: what the Rust's consensus.rs does around the handlers. A call takes the shard by value and hands back the next
// one with its reply. It is decided whether the call is taken, it is handled, and the last step of its handler becomes the answer. All of this works on the
// state, which is what calls change, so that the settings stay where they are.
#![tactic(auto)]

ghost use Rattle.std.specs.Prelude.{◌≡◌, not};
ghost use Rattle.fast_state.specs.Adopt.{lowest_best};
ghost use Rattle.steps.specs.Steps.{on_rounds};
ghost use Rattle.consensus.specs.Answers.{state_with_rounds, with_tracker, track, refused, sent_answer, served_answer, committed, finish};
ghost use Rattle.consensus.specs.Handle.{on_commit, on_read_request, on_read_response, after_insert, start_read, proposing, processed, process_message, handle, handle_call};
ghost use Rattle.consensus.specs.Call.{new_core, new_state, new_shard, state_call, call_of};

use calls::delivery::Delivery;
use calls::{Call, CommittedSlot, Reply, Taken};
use fast_state::{FastState, PaxosFamilyRoundState};
use message::{ConsensusMsg, Outcome, ReadId, Refusal};
use read_tracker::serving::Tracked;
use read_tracker::{Inserted, ReadTable, ReadTracker};
use settings::Settings;
use steps::{
    Asked, Core, CoreStep, Heard, Next, Rounds, RoundsStep, SentMessages, Step, no_messages,
    one_message,
};

// What calls may change of a shard: its rounds, and the table of its reads. The mark and the settings, which no call changes, stand beside it in `Shard`.
#[derive(Clone, Copy)]
pub struct State {
    pub rounds: Rounds,
    pub table: ReadTable,
}

// What a call makes of the state, and its reply.
#[derive(Clone, Copy)]
pub struct StateAnswer {
    pub state: State,
    pub reply: Reply,
}

// A shard. One whose settings are outside the limits is not made, and remembers why.
#[derive(Clone, Copy)]
pub struct Shard {
    pub made: Outcome,
    pub settings: Settings,
    pub state: State,
}

#[derive(Clone, Copy)]
pub struct Answer {
    pub shard: Shard,
    pub reply: Reply,
}

fn new_core(settings: Settings) -> Core
    ensures { result ≡ new_core settings }
{
    let round_state = PaxosFamilyRoundState::new(settings.starting_round());
    Core {
        slot: 0,
        last_v: None,
        slot_left_fast_path: false,
        paxos: round_state.paxos,
        tracker: ReadTracker::new(),
    }
}

fn new_state(settings: Settings) -> State
    ensures { result ≡ new_state settings }
{
    State {
        rounds: Rounds {
            core: new_core(settings),
            fast: FastState::no_answers(),
        },
        table: ReadTable::new(),
    }
}

fn state_with_rounds(mut state: State, rounds: Rounds) -> State
    ensures { result ≡ state_with_rounds state rounds }
{
    state.rounds = rounds;
    state
}

fn with_tracker(mut core: Core, tracker: ReadTracker) -> Core
    ensures { result ≡ with_tracker tracker core }
{
    core.tracker = tracker;
    core
}

// Rounds with their reads counted anew.
fn track(rounds: Rounds, tracker: ReadTracker) -> Rounds
    ensures { result ≡ track tracker rounds }
{
    Rounds {
        core: with_tracker(rounds.core, tracker),
        fast: rounds.fast,
    }
}

// A refusal hands back its number alone and leaves the state.
fn refused(state: State, why: Refusal) -> StateAnswer
    ensures { result ≡ refused why state }
{
    StateAnswer {
        state,
        reply: calls::refused_reply(why),
    }
}

fn sent_answer(state: State, messages: SentMessages) -> StateAnswer
    ensures { result ≡ sent_answer state messages }
{
    StateAnswer {
        state,
        reply: calls::sent_reply(messages),
    }
}

// These rounds and what has become of the reads, with the number of those that are served.
fn served_answer(
    rounds: Rounds,
    reads: Tracked,
    messages: SentMessages,
    commit: Option<CommittedSlot>,
) -> StateAnswer
    ensures { result ≡ served_answer rounds reads messages commit }
{
    StateAnswer {
        state: State {
            rounds: track(rounds, reads.tracker),
            table: reads.table,
        },
        reply: Reply {
            outcome: Ok(()),
            messages,
            commit,
            served_count: reads.served_count,
        },
    }
}

// The commit of a value, and the reads that it has made ready.
#[tactic(auto, unfolding(crate::specs::Answers::committed))]
fn committed(state: State, a: Asked, v: u64, s: Rounds, messages: SentMessages) -> StateAnswer
    ensures { result ≡ committed state a v s messages }
{
    let next = paxos_family::next_slot(a, v, s);
    let majority = a.member.quorums.majority;
    let reads = read_tracker::serving::serve_at_commit(
        s.core.tracker,
        state.table,
        majority,
        next.core.slot,
    );
    let commit = CommittedSlot {
        slot: s.core.slot,
        v,
        fast: calls::is_fast(a, s.core),
    };
    served_answer(next, reads, messages, Some(commit))
}

// A step becomes an answer. What is refused leaves the old state, and a commit needs its value.
fn finish(state: State, a: Asked, held: bool, step: Result<RoundsStep, Refusal>) -> StateAnswer
    ensures { result ≡ finish state a held step }
{
    match step {
        Ok(step) => match step.next {
            Next::Stays | Next::Continues => sent_answer(
                state_with_rounds(state, step.state),
                step.messages,
            ),
            Next::Commits(v) if held => committed(state, a, v, step.state, step.messages),
            Next::Commits(_) => refused(state, Refusal::ValueNotHeld),
        },
        Err(why) => refused(state, why),
    }
}

// A Commit of an older slot does nothing. The own slot's commits, from any source and at any member.
#[tactic(auto, unfolding(crate::specs::Handle::on_commit))]
fn on_commit(state: State, a: Asked, slot: u64, v: u64) -> StateAnswer
    ensures { result ≡ on_commit state a slot v }
{
    if slot < state.rounds.core.slot {
        return sent_answer(state, no_messages());
    }
    committed(state, a, v, state.rounds, no_messages())
}

// Answered at any member. The Rust's sink asserts that nothing is sent to oneself.
#[tactic(auto, unfolding(crate::specs::Handle::on_read_request))]
fn on_read_request(state: State, a: Asked, src: u64, id: ReadId) -> StateAnswer
    ensures { result ≡ on_read_request state a src id }
{
    let own = a.member.my_pid;
    if src == own {
        return refused(state, Refusal::Panic);
    }
    let core = state.rounds.core;
    sent_answer(state, one_message(calls::read_answer(own, src, id, core)))
}

// A response counts, of an older slot too.
#[tactic(auto, unfolding(crate::specs::Handle::on_read_response))]
fn on_read_response(state: State, a: Asked, id: ReadId, fast: bool) -> StateAnswer
    ensures { result ≡ on_read_response state a id fast }
{
    let core = state.rounds.core;
    let majority = a.member.quorums.majority;
    let reads = read_tracker::serving::receive_ready(
        core.tracker,
        state.table,
        id,
        majority,
        core.slot,
        fast,
    );
    served_answer(state.rounds, reads, no_messages(), None)
}

fn after_insert(state: State, a: Asked, inserted: Result<Inserted, Refusal>) -> StateAnswer
    ensures { result ≡ after_insert state a inserted }
{
    match inserted {
        Err(why) => refused(state, why),
        Ok(ins) => {
            let request = ConsensusMsg::ReadRequest { id: ins.id };
            let message = a.sends(state.rounds.core, steps::to_all(), request);
            StateAnswer {
                state: State {
                    rounds: track(state.rounds, ins.tracker),
                    table: ins.table,
                },
                reply: calls::sent_reply(one_message(message)),
            }
        }
    }
}

// A new read, which everyone is asked for. The own answer counts at once where nothing is held.
#[tactic(auto, unfolding(crate::specs::Handle::start_read))]
fn start_read(state: State, a: Asked, tag: u64, arrival_slot: u64) -> StateAnswer
    ensures { result ≡ start_read state a tag arrival_slot }
{
    let core = state.rounds.core;
    let local_ready = core.paxos.max_rv.is_none();
    let inserted = read_tracker::insert_read(
        core.tracker,
        state.table,
        tag,
        arrival_slot,
        local_ready,
    );
    after_insert(state, a, inserted)
}

// A step of the core, with the fast half as it is.
fn on_rounds(fast: FastState, step: CoreStep) -> RoundsStep
    ensures { result ≡ on_rounds fast step }
{
    Step {
        state: Rounds {
            core: step.state,
            fast,
        },
        messages: step.messages,
        next: step.next,
    }
}

#[tactic(auto, unfolding(crate::specs::Handle::proposing))]
fn proposing(a: Asked, v: u64, s: Rounds) -> Result<RoundsStep, Refusal>
    ensures { result ≡ proposing a v s }
{
    if a.mode.has_fast_path() {
        return propose::propose_fast(a, v, s);
    }
    let step = propose::propose_classic(a, v, s.core)?;
    Ok(on_rounds(s.fast, step))
}

#[tactic(auto, unfolding(crate::specs::Handle::processed))]
fn processed(a: Asked, heard: Heard, msg: ConsensusMsg, s: Rounds) -> Result<RoundsStep, Refusal>
    ensures { result ≡ processed lowest_best a heard msg s }
{
    if a.mode.has_fast_path() {
        return paxos_family::process_fast(a, heard, msg, s);
    }
    let step = paxos_family::process_classic(a, heard, msg, s.core)?;
    Ok(on_rounds(s.fast, step))
}

#[tactic(auto, unfolding(crate::specs::Handle::process_message))]
fn process_message(state: State, a: Asked, heard: Heard, d: Delivery) -> StateAnswer
    ensures { result ≡ process_message lowest_best state a heard d }
{
    let step = processed(a, heard, d.message.msg, state.rounds);
    finish(state, a, d.said.value_held, step)
}

// The Rust's full_process_message.
#[tactic(auto, unfolding(crate::specs::Handle::handle))]
fn handle(state: State, a: Asked, heard: Heard, d: Delivery, msg: ConsensusMsg) -> StateAnswer
    ensures { result ≡ handle lowest_best state a heard d msg }
{
    match msg {
        ConsensusMsg::Prepare { .. }
        | ConsensusMsg::Accept { .. }
        | ConsensusMsg::ForwardRequest { .. } => process_message(state, a, heard, d),
        ConsensusMsg::Commit { slot, v } => on_commit(state, a, slot, v),
        ConsensusMsg::ReadRequest { id } => on_read_request(state, a, d.message.src, id),
        ConsensusMsg::ReadResponse { id, .. } => on_read_response(state, a, id, d.said.fast),
    }
}

// A call that is taken. The host holds the value that it proposes.
#[tactic(auto, unfolding(crate::specs::Handle::handle_call))]
fn handle_call(state: State, a: Asked, heard: Heard, call: Call) -> StateAnswer
    ensures { result ≡ handle_call lowest_best state a heard call }
{
    match call {
        Call::Propose(v) => finish(state, a, true, proposing(a, v, state.rounds)),
        Call::StartRead { tag, arrival_slot } => start_read(state, a, tag, arrival_slot),
        Call::Receive(d) => handle(state, a, heard, d, d.message.msg),
    }
}

// A call that is decided on. A shard that is lent takes its state out for it, and writes it back.
#[tactic(auto, unfolding(crate::specs::Call::state_call))]
pub fn state_call(state: State, decision: Result<Taken, Refusal>) -> StateAnswer
    ensures { result ≡ state_call lowest_best state decision }
{
    match decision {
        Err(why) => refused(state, why),
        Ok(taken) => handle_call(state, taken.asked, taken.heard, taken.call),
    }
}

impl Shard {
    // A shard as it begins. Settings outside the limits give one that is not made.
    #[tactic(auto, unfolding(crate::specs::Call::new_shard))]
    pub fn new(settings: Settings) -> Shard
        ensures { result ≡ new_shard settings }
    {
        let state = new_state(settings);
        if settings.within_limits() {
            return Shard {
                made: Ok(()),
                settings,
                state,
            };
        }
        Shard {
            made: Err(Refusal::SettingsOutsideLimits),
            settings,
            state,
        }
    }

    // A call, whole.
    #[tactic(auto, unfolding(crate::specs::Call::call_with))]
    pub fn call(mut self, call: Call) -> Answer
        ensures { result ≡ call_of self call }
    {
        let decision = calls::decision_of(self.made, &self.settings, self.state.rounds.core, call);
        let answer = state_call(self.state, decision);
        self.state = answer.state;
        Answer {
            shard: self,
            reply: answer.reply,
        }
    }

    // The three kinds of call by their names. An unmade or spent shard refuses them as it refuses `call`.
    pub fn propose(self, v: u64) -> Answer
        ensures { result ≡ call_of self (Call.Propose v) }
    {
        self.call(Call::Propose(v))
    }

    pub fn start_read(self, tag: u64, arrival_slot: u64) -> Answer
        ensures { result ≡ call_of self (Call.StartRead tag arrival_slot) }
    {
        self.call(Call::StartRead { tag, arrival_slot })
    }

    pub fn receive(self, delivery: Delivery) -> Answer
        ensures { result ≡ call_of self (Call.Receive delivery) }
    {
        self.call(Call::Receive(delivery))
    }
}
