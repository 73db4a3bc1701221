// Modes, rounds, promises, messages and refusals: the Rust's message.rs of consensus and of paxos_family, PFModeSetting, document 01's table, and what
// document 02 adds to it.
#![tactic(auto)]

pub mod limits;

ghost use Rattle.std.specs.Prelude.{◌≡◌, ◌-◌};
ghost use Rattle.message.specs.Modes.{mode_of_number, is_multi_paxos, is_swift_paxos, has_fast_path};
ghost use Rattle.message.specs.Rounds.{increment, starting_round, next_leader_round};
ghost use Rattle.message.specs.Promises.{accept_round_of, value_of};
ghost use Rattle.message.specs.Refusals.{refusal_number};
ghost use Rattle.message.specs.Messages.{msg_slot};

use basics::refusals::Refused;

// The modes of the paxos family: the Rust's PFModeSetting, whose tables stand beside it in the settings.
#[derive(Clone, Copy, PartialEq, Eq, Debug)]
pub enum PFMode {
    Paxos,
    MultiPaxos,
    MultiPaxos3P,
    EPaxos,
    Pando,
    SwiftPaxos,
}

impl PFMode {
    // The mode of a number in flat forms and lines. A number that names none is refused where it is read, and has a mode here, so that each flat form
    // stands for some settings.
    #[tactic(auto, unfolding(crate::specs::Modes::mode_of_number))]
    pub fn of_number(n: u64) -> PFMode
        ensures { result ≡ mode_of_number n }
    {
        match n {
            1 => PFMode::MultiPaxos,
            2 => PFMode::MultiPaxos3P,
            3 => PFMode::EPaxos,
            4 => PFMode::Pando,
            5 => PFMode::SwiftPaxos,
            _ => PFMode::Paxos,
        }
    }

    pub fn is_multi_paxos(self) -> bool
        ensures { result ≡ is_multi_paxos self }
    {
        matches!(self, PFMode::MultiPaxos | PFMode::MultiPaxos3P)
    }

    pub fn is_swift_paxos(self) -> bool
        ensures { result ≡ is_swift_paxos self }
    {
        matches!(self, PFMode::SwiftPaxos)
    }

    // Whether a slot can commit before a majority has accepted.
    pub fn has_fast_path(self) -> bool
        ensures { result ≡ has_fast_path self }
    {
        matches!(self, PFMode::EPaxos | PFMode::SwiftPaxos)
    }
}

// A round, ordered by group and then by leader: the order of its fields. No round, as `None`, comes before every round.
#[derive(Clone, Copy, PartialEq, Eq, PartialOrd, Ord, Debug, Default)]
pub struct PaxosRound {
    pub round_group: u64,
    pub leader: u64,
}

// A promise: the value that a process proposed on the fast path, or a value with the round in which it was accepted, if it was.
#[derive(Clone, Copy, PartialEq, Eq, Debug)]
pub enum RoundV {
    FastV {
        proposer: u64,
        v: u64,
    },
    PaxosV {
        accept_round: Option<PaxosRound>,
        v: u64,
    },
}

// Identifies a read among those that a process issued for one shard. It is never a slot.
#[derive(Clone, Copy, PartialEq, Eq, Debug)]
pub struct ReadId(pub u64);

// The six messages: the Rust's ConsensusMsg, with its PaxosMsg in line.
#[derive(Clone, Copy, PartialEq, Eq, Debug)]
pub enum ConsensusMsg {
    Prepare {
        slot: u64,
        round: PaxosRound,
        rv: RoundV,
    },
    Accept {
        slot: u64,
        round: PaxosRound,
        v: u64,
    },
    ForwardRequest {
        v: u64,
    },
    Commit {
        slot: u64,
        v: u64,
    },
    ReadRequest {
        id: ReadId,
    },
    ReadResponse {
        id: ReadId,
        next_readable_slot: u64,
    },
}

// A message with its source and the last value that the source had committed.
#[derive(Clone, Copy, PartialEq, Eq, Debug)]
pub struct ConsensusMessage {
    pub msg: ConsensusMsg,
    pub src: u64,
    pub last_v: Option<u64>,
}

// Why a call is refused, with the numbers of documents 01 and 02.
#[derive(Clone, Copy, PartialEq, Eq, Debug)]
pub enum Refusal {
    SettingsOutsideLimits = 1,
    NumberTooLarge = 2,
    NoSuchProcess = 3,
    OtherLastValue = 4,
    SlotAhead = 5,
    ValueNotHeld = 6,
    SourceNotLive = 7,
    Panic = 8,
    AcceptUnlikeHeld = 9,
    SecondFastAnswer = 10,
    ProposalNotAllowed = 11,
    NoRoomForRead = 12,
    // A window of the group's settings has a date or a time that there is not, or an end that is not after its start (document 02, E8). The mark of a shard
    // that is not made gives it, and no handler.
    NotInCalendar = 17,
}

// What became of a call, or of a step of it.
pub type Outcome = Result<(), Refusal>;

impl Refused for Refusal {
    ghost refusal_number = { refusal_number };

    // The number by which document 01 or 02 names the refusal.
    fn number(self) -> u64 {
        self as u64
    }
}

// The largest number that a call, settings or a register may name, 2^63−1, and the largest slot: the one before it, so that the slot after it is a number still.
pub const LARGEST_NUMBER: u64 = 9223372036854775807;

pub const LARGEST_SLOT: u64 = 9223372036854775806;

// One more. The largest number has none after it and stays; no number that a call may hold is that large. A function beside the library's, since the
// contracts above cite its definition.
#[tactic(auto, unfolding(crate::specs::Rounds::increment))]
pub fn increment(n: u64) -> u64
    ensures { result ≡ increment n }
{
    n.saturating_add(1)
}

impl PaxosRound {
    pub const DEFAULT: PaxosRound = PaxosRound {
        round_group: 0,
        leader: 0,
    };

    // The round in which a slot starts: the first leader's in the two modes that have one from the start.
    pub fn starting(mode: PFMode, first_leader: u64) -> Option<PaxosRound>
        ensures { result ≡ starting_round mode first_leader }
    {
        if mode.is_multi_paxos() {
            return Some(PaxosRound::DEFAULT.next_leader_round(first_leader));
        }
        None
    }

    // The first round of my_pid that does not come before this one. (The group of a round that a call may hold is not the largest number.)
    #[tactic(auto, unfolding(crate::specs::Rounds::next_leader_round))]
    pub fn next_leader_round(self, my_pid: u64) -> PaxosRound
        ensures { result ≡ next_leader_round self my_pid }
    {
        if my_pid >= self.leader {
            return PaxosRound {
                round_group: self.round_group,
                leader: my_pid,
            };
        }
        PaxosRound {
            round_group: increment(self.round_group),
            leader: my_pid,
        }
    }
}

impl RoundV {
    pub fn get_v(self) -> u64
        ensures { result ≡ value_of self }
    {
        match self {
            RoundV::FastV { v, .. } | RoundV::PaxosV { v, .. } => v,
        }
    }

    pub fn get_accept_round(self) -> Option<PaxosRound>
        ensures { result ≡ accept_round_of self }
    {
        match self {
            RoundV::FastV { .. } => None,
            RoundV::PaxosV { accept_round, .. } => accept_round,
        }
    }
}

impl ConsensusMsg {
    // The slot that the message names, if it names one.
    pub fn get_slot(self) -> Option<u64>
        ensures { result ≡ msg_slot self }
    {
        match self {
            ConsensusMsg::Prepare { slot, .. }
            | ConsensusMsg::Accept { slot, .. }
            | ConsensusMsg::Commit { slot, .. } => Some(slot),
            ConsensusMsg::ReadResponse {
                next_readable_slot,
                ..
            } => Some(next_readable_slot),
            ConsensusMsg::ForwardRequest { .. } | ConsensusMsg::ReadRequest { .. } => None,
        }
    }
}
