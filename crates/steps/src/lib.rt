// What the handlers work on: the part of a shard that they change, what they ask of the settings and of a message, and the steps that they
// are chains of. A step hands back the next state, the messages to send, and how the call goes on. A handler that is refused hands back the refusal alone,
// and the shard that made the call stays as it was, so that nothing has to be undone.
#![tactic(auto)]

pub mod enter;

ghost use Rattle.std.specs.Prelude.{◌≡◌};
ghost use Rattle.fast_state.specs.Fast.{unchanged};
ghost use Rattle.steps.specs.Steps.{no_messages, one_message, two_messages, also, sends, to_all, first_served, held_rv, held_value, with_paxos, left_fast_path, stays, continues, commits_with, with_change, change_rounds, goes_on};

use fast_state::{FastAnswers, FastChange, FastState};
use message::{ConsensusMessage, ConsensusMsg, PFMode, PaxosRound, RoundV};
use read_tracker::ReadTracker;
use round_state::{Member, PaxosState};

// What a call may change in every mode: slot, last committed value, whether the slot has left the fast path, the Paxos half of the round state, and the next
// read id with the number of open reads. Paxos, MultiPaxos, MultiPaxos3P and Pando change nothing else, so their handlers take the core alone.
#[derive(Clone, Copy)]
pub struct Core {
    pub slot: u64,
    pub last_v: Option<u64>,
    pub slot_left_fast_path: bool,
    pub paxos: PaxosState,
    pub tracker: ReadTracker,
}

// The core with the fast half of the round state, which EPaxos and SwiftPaxos alone change: what the handlers of all modes change. The table of the reads
// stands above it, in consensus' `State`.
#[derive(Clone, Copy)]
pub struct Rounds {
    pub core: Core,
    pub fast: FastState,
}

// What the handlers ask of the settings, in definitions the parameter a. `asked_of` (crates/calls) answers it once a call, so that no handler reads the settings.
#[derive(Clone, Copy, PartialEq, Eq, Debug)]
pub struct Asked {
    pub member: Member,
    pub mode: PFMode,
    pub starting_round: Option<PaxosRound>,
    pub first_leader: u64,
    pub quorum: Option<u64>,
}

// What the handlers ask of a Prepare or an Accept besides its fields, in definitions the parameter h: its source, whether that is a live replica, who gathers
// the promises of its round, and the requesters that the host names for its value and for the value in the held promise, with the committer of the first. A
// proposal and a new read come from no message: theirs is `nothing_heard` (crates/calls).
#[derive(Clone, Copy, PartialEq, Eq, Debug)]
pub struct Heard {
    pub src: u64,
    pub source_live: bool,
    pub delegate: u64,
    pub requester: Option<u64>,
    pub committer: Option<u64>,
    pub held_requester: Option<u64>,
}

// Where a message goes: to one process, or to every other process, with the one that is served first.
#[derive(Clone, Copy, PartialEq, Eq, Debug)]
pub enum Destination {
    One(u64),
    All(Option<u64>),
}

#[derive(Clone, Copy, PartialEq, Eq, Debug)]
pub struct Outgoing {
    pub destination: Destination,
    pub message: ConsensusMessage,
}

// At most three messages, in the order in which they are sent.
#[derive(Clone, Copy, PartialEq, Eq, Debug)]
pub struct SentMessages {
    pub first: Option<Outgoing>,
    pub second: Option<Outgoing>,
    pub third: Option<Outgoing>,
}

// How a call goes on after a step: it stays at that (`Stays`), the next step of the handler follows (`Continues`), or a value is committed (`Commits`).
#[derive(Clone, Copy, PartialEq, Eq, Debug)]
pub enum Next {
    Stays,
    Continues,
    Commits(u64),
}

impl Next {
    // Whether the handler goes on with the step's core.
    pub fn goes_on(self) -> bool
        ensures { result ≡ goes_on self }
    {
        matches!(self, Next::Continues)
    }
}

// A step: the state after it, the messages that it sends, and how the call goes on.
#[derive(Clone, Copy)]
pub struct Step<S> {
    pub state: S,
    pub messages: SentMessages,
    pub next: Next,
}

pub type CoreStep = Step<Core>;

pub type RoundsStep = Step<Rounds>;

// A step in EPaxos and SwiftPaxos, which says besides what changes in the fast half. No `Step` of core and change together: nothing that is said of a `Step`
// is said of this one, and each reader of its core would name the two.
#[derive(Clone, Copy)]
pub struct ChangeStep {
    pub core: Core,
    pub messages: SentMessages,
    pub next: Next,
    pub change: FastChange,
}

pub fn no_messages() -> SentMessages
    ensures { result ≡ no_messages }
{
    SentMessages {
        first: None,
        second: None,
        third: None,
    }
}

pub fn one_message(m: Outgoing) -> SentMessages
    ensures { result ≡ one_message m }
{
    SentMessages {
        first: Some(m),
        second: None,
        third: None,
    }
}

pub fn two_messages(m: Outgoing, n: Outgoing) -> SentMessages
    ensures { result ≡ two_messages m n }
{
    SentMessages {
        first: Some(m),
        second: Some(n),
        third: None,
    }
}

impl SentMessages {
    // One message more, behind those that there are. No call sends more than two; document 01 leaves room for three.
    pub fn also(mut self, m: Outgoing) -> SentMessages
        ensures { result ≡ also self m }
    {
        if self.first.is_none() {
            self.first = Some(m);
        } else if self.second.is_none() {
            self.second = Some(m);
        } else {
            self.third = Some(m);
        }
        self
    }
}

// Every other process, in no order.
pub fn to_all() -> Destination
    ensures { result ≡ to_all }
{
    Destination::All(None)
}

// What is held. No caller comes here with nothing held: the Rust unwraps.
pub fn held_rv(held: Option<RoundV>) -> RoundV
    ensures { result ≡ held_rv held }
{
    held.unwrap_or(RoundV::PaxosV {
        accept_round: None,
        v: 0,
    })
}

pub fn held_value(held: Option<RoundV>) -> u64
    ensures { result ≡ held_value held }
{
    held_rv(held).get_v()
}

impl Core {
    pub fn with_paxos(mut self, p: PaxosState) -> Core
        ensures { result ≡ with_paxos p self }
    {
        self.paxos = p;
        self
    }

    pub fn left_fast_path(mut self) -> Core
        ensures { result ≡ left_fast_path self }
    {
        self.slot_left_fast_path = true;
        self
    }

    pub fn stays(self, messages: SentMessages) -> CoreStep
        ensures { result ≡ stays self messages }
    {
        CoreStep {
            state: self,
            messages,
            next: Next::Stays,
        }
    }

    pub fn continues(self, messages: SentMessages) -> CoreStep
        ensures { result ≡ continues self messages }
    {
        CoreStep {
            state: self,
            messages,
            next: Next::Continues,
        }
    }

    pub fn commits(self, v: u64, messages: SentMessages) -> CoreStep
        ensures { result ≡ commits_with v self messages }
    {
        CoreStep {
            state: self,
            messages,
            next: Next::Commits(v),
        }
    }

    // The same where nothing is sent, and with the fast half as it is.
    pub fn stays_silent(self) -> CoreStep
        ensures { result ≡ stays self no_messages }
    {
        self.stays(no_messages())
    }

    pub fn commits_silent(self, v: u64) -> CoreStep
        ensures { result ≡ commits_with v self no_messages }
    {
        self.commits(v, no_messages())
    }

    pub fn stays_unchanged(self, answers: FastAnswers) -> ChangeStep
        ensures { result ≡ with_change (unchanged answers) (stays self no_messages) }
    {
        self.stays_silent().unchanged(answers)
    }
}

impl Step<Core> {
    pub fn with_change(self, change: FastChange) -> ChangeStep
        ensures { result ≡ with_change change self }
    {
        ChangeStep {
            core: self.state,
            messages: self.messages,
            next: self.next,
            change,
        }
    }

    // With the fast half as it is.
    pub fn unchanged(self, answers: FastAnswers) -> ChangeStep
        ensures { result ≡ with_change (unchanged answers) self }
    {
        self.with_change(answers.unchanged())
    }
}

impl ChangeStep {
    // The change made to the fast half.
    pub fn change_rounds(self, fast: FastState) -> RoundsStep
        ensures { result ≡ change_rounds fast self }
    {
        RoundsStep {
            state: Rounds {
                core: self.core,
                fast: fast.changed(self.change),
            },
            messages: self.messages,
            next: self.next,
        }
    }
}

impl Asked {
    // What the member sends carries its number and the last value that it committed.
    pub fn sends(self, core: Core, destination: Destination, msg: ConsensusMsg) -> Outgoing
        ensures { result ≡ sends self core destination msg }
    {
        Outgoing {
            destination,
            message: ConsensusMessage {
                msg,
                src: self.member.my_pid,
                last_v: core.last_v,
            },
        }
    }

    // Whom a Commit is served to first: the requester of its value, where that is another process.
    pub fn first_served(self, requester: Option<u64>) -> Option<u64>
        ensures { result ≡ first_served self requester }
    {
        requester.filter(|p| *p != self.member.my_pid)
    }
}
