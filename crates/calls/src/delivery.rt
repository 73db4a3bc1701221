// A message that comes in, with the words of the host, and what is decided of it before it is handled: whether its numbers and processes are
// within the limits, and whether the shard is ready for it (the Rust's ready_to_process).
#![tactic(auto)]

ghost use Rattle.std.specs.Prelude.{◌≡◌};
ghost use Rattle.calls.specs.delivery.Limits.{numbers_fit, processes_fit};
ghost use Rattle.calls.specs.delivery.Admit.{is_ahead, is_own_slot, is_other_last, needs_value, other_last_value, value_awaited, ready, admit};

pub use message::limits::{is_number, is_slot};
use message::limits::{msg_numbers, msg_processes, number_given, requester_below};
use message::{ConsensusMessage, ConsensusMsg, Outcome, Refusal};
use steps::Core;

// What the host says of a message besides it (document 01): whether it holds the message's value, the value's requester, and the fast mark of a read.
#[derive(Clone, Copy, PartialEq, Eq, Debug)]
pub struct Said {
    pub value_held: bool,
    pub requester: Option<u64>,
    pub fast: bool,
}

// A message that comes in, with the host's words. The requester of the value in the held promise belongs to the call and not to
// the message.
#[derive(Clone, Copy, PartialEq, Eq, Debug)]
pub struct Delivery {
    pub message: ConsensusMessage,
    pub said: Said,
    pub held_requester: Option<u64>,
}

impl Delivery {
    // Whether no number of the message, nor of what the host adds to it, is too large.
    #[tactic(auto, unfolding(crate::specs::delivery::Limits::numbers_fit))]
    pub fn numbers_fit(self) -> bool
        ensures { result ≡ numbers_fit self }
    {
        msg_numbers(self.message.msg)
            && is_number(self.message.src)
            && number_given(self.message.last_v)
            && number_given(self.said.requester)
            && number_given(self.held_requester)
    }

    // Whether every process number is below the count n: source, leaders, proposer and both requesters.
    #[tactic(auto, unfolding(crate::specs::delivery::Limits::processes_fit))]
    pub fn processes_fit(self, n: u64) -> bool
        ensures { result ≡ processes_fit n self }
    {
        self.message.src < n
            && msg_processes(n, self.message.msg)
            && requester_below(n, self.said.requester)
            && requester_below(n, self.held_requester)
    }
}

pub fn is_ahead(core: Core, slot: Option<u64>) -> bool
    ensures { result ≡ is_ahead core slot }
{
    slot.is_some_and(|n| core.slot < n)
}

#[tactic(auto, using(message::proofs::Comparisons::process_equal))]
pub fn is_own_slot(core: Core, slot: Option<u64>) -> bool
    ensures { result ≡ is_own_slot core slot }
{
    slot == Some(core.slot)
}

// Whether a last value is given that is not the own one.
#[tactic(auto, using(message::proofs::Comparisons::values_equal))]
pub fn is_other_last(core: Core, last_v: Option<u64>) -> bool
    ensures { result ≡ is_other_last core last_v }
{
    last_v.is_some() && last_v != core.last_v
}

// Whether the message waits for its value: a Commit does, and a Prepare or an Accept of a round that oneself leads.
pub fn needs_value(own: u64, msg: ConsensusMsg) -> bool
    ensures { result ≡ needs_value own msg }
{
    match msg {
        ConsensusMsg::Prepare { round, .. } | ConsensusMsg::Accept { round, .. } => {
            round.leader == own
        }
        ConsensusMsg::Commit { .. } => true,
        ConsensusMsg::ForwardRequest { .. }
        | ConsensusMsg::ReadRequest { .. }
        | ConsensusMsg::ReadResponse { .. } => false,
    }
}

impl Delivery {
    #[tactic(auto, unfolding(crate::specs::delivery::Admit::other_last_value))]
    pub fn other_last_value(self, core: Core) -> bool
        ensures { result ≡ other_last_value core self }
    {
        is_own_slot(core, self.message.msg.get_slot()) && is_other_last(core, self.message.last_v)
    }

    #[tactic(auto, unfolding(crate::specs::delivery::Admit::value_awaited))]
    fn value_awaited(self, own: u64, core: Core) -> bool
        ensures { result ≡ value_awaited own core self }
    {
        is_own_slot(core, self.message.msg.get_slot())
            && needs_value(own, self.message.msg)
            && !self.said.value_held
    }

    // What the Rust's ready_to_process decides. Its assertion on the last value comes before it asks for the value.
    #[tactic(auto, unfolding(crate::specs::delivery::Admit::ready))]
    fn ready(self, own: u64, core: Core) -> Outcome
        ensures { result ≡ ready own core self }
    {
        if is_ahead(core, self.message.msg.get_slot()) {
            return Err(Refusal::SlotAhead);
        }
        if self.other_last_value(core) {
            return Err(Refusal::OtherLastValue);
        }
        if self.value_awaited(own, core) {
            return Err(Refusal::ValueNotHeld);
        }
        Ok(())
    }

    // What is decided before a message is handled, in document 01's order, at a member with this number in a group of so many processes.
    #[tactic(auto, unfolding(crate::specs::delivery::Admit::admit))]
    pub fn admit(self, process_count: u64, own: u64, core: Core) -> Outcome
        ensures { result ≡ admit process_count own core self }
    {
        if !self.numbers_fit() {
            return Err(Refusal::NumberTooLarge);
        }
        if !self.processes_fit(process_count) {
            return Err(Refusal::NoSuchProcess);
        }
        self.ready(own, core)
    }
}
