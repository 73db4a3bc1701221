// The messages under way in a group run, each with the member that it goes to.
#![tactic(auto)]

ghost use Rattle.std.specs.Prelude.{◌≡◌};
ghost use Rattle.group_runs.specs.network.Network.{no_parcel, new_network, posted, without_message, posted_to_other, posted_to_all, posted_to, under};

use message::{ConsensusMessage, ConsensusMsg};
use steps::{Destination, Outgoing};

// A message on its way to one member.
#[derive(Clone, Copy)]
pub struct Parcel {
    pub member: u64,
    pub message: ConsensusMessage,
}

// The messages under way, in the first count places. A buffer with its count, and no vector: `at` answers for every place, also one behind the count,
// where the message that was taken out still stands, and any count is answered.
#[derive(Clone, Copy)]
pub struct Network {
    pub parcels: [Parcel; 128],
    pub count: u64,
}

// What stands in a place where nothing was sent.
fn no_parcel() -> Parcel
    ensures { result ≡ no_parcel }
{
    Parcel {
        member: 0,
        message: ConsensusMessage {
            msg: ConsensusMsg::ForwardRequest { v: 0 },
            src: 0,
            last_v: None,
        },
    }
}

impl Network {
    pub fn new() -> Network
        ensures { result ≡ new_network }
    {
        let none = no_parcel();
        Network {
            parcels: [none; 128],
            count: 0,
        }
    }

    // One more message under way. Where there is no room it is lost.
    #[tactic(auto, unfolding(crate::specs::network::Network::posted))]
    fn with(mut self, member: u64, message: ConsensusMessage) -> Network
        ensures { result ≡ posted self member message }
    {
        if self.count < 128 {
            let at = self.count as usize;
            self.parcels[at] = Parcel { member, message };
            self.count = self.count + 1;
            return self;
        }
        self
    }

    // The message is no more under way: the last one takes its place.
    #[tactic(auto, unfolding(crate::specs::network::Network::without_message))]
    pub fn without(mut self, i: u64) -> Network
        ensures { result ≡ without_message self i }
    {
        if self.count > 128 {
            return self;
        }
        if i < self.count {
            let at = i as usize;
            let end = (self.count - 1) as usize;
            let last = self.parcels[end];
            self.parcels[at] = last;
            self.count = self.count - 1;
            return self;
        }
        self
    }

    // The message at a place, also one that is no more under way.
    #[tactic(auto, unfolding(crate::specs::network::Network::under))]
    pub fn at(self, i: u64) -> Parcel
        ensures { result ≡ under self i }
    {
        if i < 128 {
            let at = i as usize;
            return self.parcels[at];
        }
        no_parcel()
    }

    // To one member, but not to the source.
    #[tactic(auto, unfolding(crate::specs::network::Network::posted_to_other))]
    fn with_other(self, member: u64, message: ConsensusMessage) -> Network
        ensures { result ≡ posted_to_other self member message }
    {
        if member == message.src {
            return self;
        }
        self.with(member, message)
    }

    // To every other member of n.
    #[tactic(auto, unfolding(crate::specs::network::Network::posted_to_all))]
    fn with_all(self, n: u64, message: ConsensusMessage) -> Network
        ensures { result ≡ posted_to_all self n message }
    {
        let mut network = self;
        for member in 0..n {
            network = network.with_other(member, message);
        }
        network
    }

    // A message is sent, in a group of n members.
    pub fn sent(self, n: u64, outgoing: Outgoing) -> Network
        ensures { result ≡ posted_to self n outgoing.destination outgoing.message }
    {
        let destination = outgoing.destination;
        let message = outgoing.message;
        match destination {
            Destination::One(p) => self.with(p, message),
            Destination::All(_) => self.with_all(n, message),
        }
    }
}
