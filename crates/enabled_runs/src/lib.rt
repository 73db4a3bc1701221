// The short runs of three offices (request E12): what an event is, which runs are enabled, how they are listed, and the theorems on the listing.
// The code that lists them is in crates office_runs and short_runs.
#![tactic(auto)]

use steps::Outgoing;

// A member's one proposal, or the delivery to a member of the message at a place among all sent.
#[derive(Clone, Copy)]
pub enum RunEvent {
    Proposes(u64),
    Delivers { member: u64, place: u64 },
}

// A sent message: the member whose call handed it back, and what it handed back.
#[derive(Clone, Copy)]
pub struct Sending {
    pub source: u64,
    pub outgoing: Outgoing,
}

#[derive(Clone, Copy)]
pub struct CommitBy {
    pub member: u64,
    pub slot: u64,
    pub v: u64,
}
