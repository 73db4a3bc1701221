// The settings of a group, as its host makes them for one member, their limits, and what the engine asks of them.
#![tactic(auto)]

ghost use Rattle.std.specs.Prelude.{◌≡◌, option_copied};
ghost use Rattle.settings.specs.Settings.{counts_fit, members_fit, committers_fit, quorum_fits, mode_fits, within_limits};
ghost use Rattle.settings.specs.Questions.{quorums_of, is_replica, is_live_replica, delegate_in, committer_for, committer_in, starting_round_of};

use basics::tables::PerProcess;
use message::{PFMode, PaxosRound};
use quorum::QuorumRow;

// The tables have a place for each process. Committers are given for all processes or for none, as in the Rust;
// delegates count in Pando alone, and the fixed quorum in SwiftPaxos alone.
#[derive(Clone, Copy)]
pub struct Settings {
    pub process_count: u64,
    pub replica_count: u64,
    pub my_pid: u64,
    pub alive_replicas: u64,
    pub first_leader: u64,
    pub mode: PFMode,
    pub quorum: Option<u64>,
    pub committers: Option<PerProcess>,
    pub delegates: PerProcess,
}

// The delegate of a leader: in Pando that of the table, and else the leader itself. The tables are lent, here and below, since a host keeps them in
// memory of its own.
#[tactic(auto, unfolding(crate::specs::Questions::delegate_in))]
pub fn delegate_in(delegates: &PerProcess, mode: PFMode, leader: u64) -> u64
    ensures { result ≡ delegate_in delegates.now mode leader }
{
    match mode {
        PFMode::Pando => basics::tables::look_up(delegates, leader),
        _ => leader,
    }
}

#[tactic(auto, unfolding(crate::specs::Questions::committer_for))]
fn committer_for(committers: &PerProcess, requester: Option<u64>) -> Option<u64>
    ensures { result ≡ committer_for committers.now requester }
{
    requester.map(|p| basics::tables::look_up(committers, p))
}

// The process that commits a value by the settings, from the value's requester.
#[tactic(auto, unfolding(crate::specs::Questions::committer_in))]
pub fn committer_in(
    committers: Option<&PerProcess>,
    mode: PFMode,
    requester: Option<u64>,
) -> Option<u64>
    ensures { result ≡ committer_in (option_copied committers.entry) mode requester }
{
    match committers {
        Some(table) => committer_for(table, requester),
        None if mode.is_swift_paxos() => requester,
        None => None,
    }
}

#[tactic(auto, unfolding(crate::specs::Settings::committers_fit))]
fn committers_fit(committers: Option<&PerProcess>, count: u64) -> bool
    ensures { result ≡ committers_fit (option_copied committers.entry) count }
{
    committers.is_none_or(|table| basics::tables::all_below(table, count))
}

#[tactic(auto, unfolding(crate::specs::Settings::quorum_fits))]
fn quorum_fits(quorum: Option<u64>, count: u64) -> bool
    ensures { result ≡ quorum_fits quorum count }
{
    quorum.is_none_or(|s| basics::sets::fits(s, count))
}

impl Settings {
    // 1 to 64 processes, and 1 to as many replicas.
    #[tactic(auto, unfolding(crate::specs::Settings::counts_fit))]
    fn counts_fit(self) -> bool
        ensures { result ≡ counts_fit self }
    {
        1 <= self.process_count
            && self.process_count <= 64
            && 1 <= self.replica_count
            && self.replica_count <= self.process_count
    }

    // The own number, the first leader and the live set are below the process count, and the live set is no larger than the replica count.
    #[tactic(auto, unfolding(crate::specs::Settings::members_fit))]
    fn members_fit(self) -> bool
        ensures { result ≡ members_fit self }
    {
        self.my_pid < self.process_count
            && self.first_leader < self.process_count
            && basics::sets::fits(self.alive_replicas, self.process_count)
            && basics::sets::size(self.alive_replicas) <= self.replica_count
    }

    #[tactic(auto, unfolding(crate::specs::Settings::mode_fits))]
    fn mode_fits(self) -> bool
        ensures { result ≡ mode_fits self self.mode }
    {
        match self.mode {
            PFMode::Pando => basics::tables::all_below(&self.delegates, self.process_count),
            PFMode::SwiftPaxos => quorum_fits(self.quorum, self.process_count),
            _ => true,
        }
    }

    // Whether the settings are within the limits; where they are not, no shard is made of them.
    #[tactic(auto, unfolding(crate::specs::Settings::within_limits))]
    pub fn within_limits(self) -> bool
        ensures { result ≡ within_limits self }
    {
        self.counts_fit()
            && self.members_fit()
            && committers_fit(self.committers.as_ref(), self.process_count)
            && self.mode_fits()
    }

    // Whether process p is in the live set: what document 01 calls a live replica.
    pub fn is_live_replica(&self, p: u64) -> bool
        ensures { result ≡ is_live_replica self.now p }
    {
        basics::sets::contains(self.alive_replicas, p)
    }

    pub fn is_replica(&self) -> bool
        ensures { result ≡ is_replica self.now }
    {
        self.is_live_replica(self.my_pid)
    }

    // The quorums for the replica count, a majority among them.
    pub fn quorums(&self) -> QuorumRow
        ensures { result ≡ quorums_of self.now }
    {
        quorum::row_of(self.replica_count)
    }

    // The round in which each slot starts.
    pub fn starting_round(&self) -> Option<PaxosRound>
        ensures { result ≡ starting_round_of self.now }
    {
        PaxosRound::starting(self.mode, self.first_leader)
    }
}
