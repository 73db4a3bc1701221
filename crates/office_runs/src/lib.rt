// A run of the three offices of request E12, event after event: the group by value, and what the run has brought so far.
#![tactic(auto)]

pub mod listing;

ghost use Rattle.std.specs.Prelude.{◌≡◌};
ghost use Rattle.basics.specs.sets.Sets.{insert};
ghost use Rattle.enabled_runs.specs.Listing.{is_commit_message, is_sent_to};
ghost use Rattle.enabled_runs.specs.Offices.{office_settings, requester_of_value, message_requester, requester_of_held, heard_by};
ghost use Rattle.office_runs.specs.Runs.{office, value_proposed, no_sending, sending_at, with_last, with_message, with_messages, with_commit_by, new_run, office_shard, run_with_answer, run_after_proposal, after_delivery, trial_of};

use calls::delivery::{Delivery, Said};
use calls::{Call, CommittedSlot};
use consensus::{Answer, Shard};
use enabled_runs::{CommitBy, RunEvent, Sending};
use message::{ConsensusMessage, ConsensusMsg, PFMode, RoundV};
use settings::Settings;
use steps::{Destination, Outgoing, SentMessages};

// What a run has brought, in time order: the first count places are filled. An array with its count, without heap, and no
// ArrayVec: that is not Copy, and the lister passes one run on to each event that may come next. Network, of group runs, has the shape too, and is a type of
// its own: its message goes out of the middle, a place behind the count is read there, and one type for both would be a third crate for one function of five
// lines, cited by two definitions that stand for texts of two documents.
#[derive(Clone, Copy)]
pub struct SoFar<T, const N: usize> {
    pub places: [T; N],
    pub count: u64,
}

// The group of three after a run, the set of those that have proposed, and what the run has brought. A call hands back at most three messages and
// one commit, so that in each of these there is room for five events.
#[derive(Clone, Copy)]
pub struct OfficeRun {
    pub members: [Shard; 3],
    pub proposed: u64,
    pub sent: SoFar<Sending, 15>,
    pub events: SoFar<RunEvent, 5>,
    pub commits: SoFar<CommitBy, 5>,
}

// ---- the group and its hosts

// "All three are live, member 0 is first leader, no committer is set."
fn office_settings(member: u64) -> Settings
    ensures { result ≡ office_settings member }
{
    let delegates = [0u64; 64];
    Settings {
        process_count: 3,
        replica_count: 3,
        my_pid: member,
        alive_replicas: 7,
        first_leader: 0,
        mode: PFMode::Paxos,
        quorum: None,
        committers: None,
        delegates,
    }
}

fn new_office(member: u64) -> Shard
    ensures { result ≡ office member }
{
    Shard::new(office_settings(member))
}

// "member 0, 1 or 2 proposes value 10, 11 or 12"; another number is no member.
#[tactic(auto, unfolding(crate::specs::Runs::value_proposed))]
fn value_proposed(member: u64) -> u64
    ensures { result ≡ value_proposed member }
{
    if member < 3 { 10 + member } else { 10 }
}

// "names the member that proposes a value as its requester"
fn requester_of_value(v: u64) -> Option<u64>
    ensures { result ≡ requester_of_value v }
{
    Some(v.saturating_sub(10))
}

#[tactic(auto, unfolding(enabled_runs::specs::Offices::message_requester))]
fn message_requester(msg: ConsensusMsg) -> Option<u64>
    ensures { result ≡ message_requester msg }
{
    match msg {
        ConsensusMsg::Prepare { rv, .. } => requester_of_value(rv.get_v()),
        ConsensusMsg::Accept { v, .. } => requester_of_value(v),
        ConsensusMsg::ForwardRequest { v } => requester_of_value(v),
        ConsensusMsg::Commit { v, .. } => requester_of_value(v),
        ConsensusMsg::ReadRequest { .. } | ConsensusMsg::ReadResponse { .. } => None,
    }
}

#[tactic(auto, unfolding(enabled_runs::specs::Offices::requester_of_held))]
fn requester_of_held(held: Option<RoundV>) -> Option<u64>
    ensures { result ≡ requester_of_held held }
{
    held.and_then(|rv| requester_of_value(rv.get_v()))
}

// What the host of a shard makes of a message: "each host holds all values".
fn heard_by(shard: Shard, message: ConsensusMessage) -> Delivery
    ensures { result ≡ heard_by shard message }
{
    let state = shard.state;
    let rounds = state.rounds;
    let core = rounds.core;
    let paxos = core.paxos;
    let held = paxos.max_rv;
    let msg = message.msg;
    Delivery {
        message,
        said: Said {
            value_held: true,
            requester: message_requester(msg),
            fast: false,
        },
        held_requester: requester_of_held(held),
    }
}

#[tactic(auto, unfolding(enabled_runs::specs::Listing::is_commit_message))]
fn is_commit_message(msg: ConsensusMsg) -> bool
    ensures { result ≡ is_commit_message msg }
{
    matches!(msg, ConsensusMsg::Commit { slot: _, v: _ })
}

// Whether the message was sent to the member. "A Commit counts as sent to every other member."
#[tactic(auto, unfolding(enabled_runs::specs::Listing::is_sent_to))]
fn is_sent_to(sending: Sending, member: u64) -> bool
    ensures { result ≡ is_sent_to sending member }
{
    let outgoing = sending.outgoing;
    let message = outgoing.message;
    let source = message.src;
    if sending.source != source {
        return false;
    }
    if is_commit_message(message.msg) {
        return source != member;
    }
    match outgoing.destination {
        Destination::One(p) => p == member,
        Destination::All(_) => source != member,
    }
}

// ---- what a run has brought

// What stands in a place where nothing was sent.
fn no_sending() -> Sending
    ensures { result ≡ no_sending }
{
    Sending {
        source: 0,
        outgoing: Outgoing {
            destination: Destination::One(0),
            message: ConsensusMessage {
                msg: ConsensusMsg::ForwardRequest { v: 0 },
                src: 0,
                last_v: None,
            },
        },
    }
}

impl<T: Copy, const N: usize> SoFar<T, N> {
    // With one more at the end. One that comes where all places are filled is not kept.
    #[tactic(auto, unfolding(crate::specs::Runs::with_last))]
    fn with(mut self, last: T) -> SoFar<T, N>
        ensures { result ≡ with_last self last }
    {
        if self.count < N as u64 {
            self.places[self.count as usize] = last;
            self.count += 1;
        }
        self
    }
}

impl SoFar<Sending, 15> {
    #[tactic(auto, unfolding(crate::specs::Runs::with_message))]
    fn with_message(self, source: u64, message: Option<Outgoing>) -> SoFar<Sending, 15>
        ensures { result ≡ with_message self source message }
    {
        match message {
            None => self,
            Some(outgoing) => self.with(Sending { source, outgoing }),
        }
    }

    // With the messages of a call, in the order of sending.
    #[tactic(auto, unfolding(crate::specs::Runs::with_messages))]
    fn with_messages(self, source: u64, messages: SentMessages) -> SoFar<Sending, 15>
        ensures { result ≡ with_messages self source messages }
    {
        let one = self.with_message(source, messages.first);
        let two = one.with_message(source, messages.second);
        two.with_message(source, messages.third)
    }

    #[tactic(auto, unfolding(crate::specs::Runs::sending_at))]
    fn at(self, place: u64) -> Sending
        ensures { result ≡ sending_at self place }
    {
        if place < 15 {
            let at = place as usize;
            return self.places[at];
        }
        no_sending()
    }
}

impl SoFar<CommitBy, 5> {
    // With the commit of a call, if there is one.
    #[tactic(auto, unfolding(crate::specs::Runs::with_commit_by))]
    fn with_commit(self, member: u64, commit: Option<CommittedSlot>) -> SoFar<CommitBy, 5>
        ensures { result ≡ with_commit_by self member commit }
    {
        match commit {
            None => self,
            Some(CommittedSlot { slot, v, fast: _ }) => self.with(CommitBy { member, slot, v }),
        }
    }
}

// ---- runs

impl OfficeRun {
    // The run without events.
    pub fn new() -> OfficeRun
        ensures { result ≡ new_run }
    {
        let no_event = RunEvent::Proposes(0);
        let no_commit = CommitBy {
            member: 0,
            slot: 0,
            v: 0,
        };
        OfficeRun {
            members: [new_office(0), new_office(1), new_office(2)],
            proposed: 0,
            sent: SoFar {
                places: [no_sending(); 15],
                count: 0,
            },
            events: SoFar {
                places: [no_event; 5],
                count: 0,
            },
            commits: SoFar {
                places: [no_commit; 5],
                count: 0,
            },
        }
    }

    #[tactic(auto, unfolding(crate::specs::Runs::office_shard))]
    fn shard_of(self, member: u64) -> Shard
        ensures { result ≡ office_shard self member }
    {
        if member < 3 {
            let at = member as usize;
            return self.members[at];
        }
        new_office(0)
    }

    // After a call on a member, which was the event.
    #[tactic(auto, unfolding(crate::specs::Runs::run_with_answer))]
    fn with_answer(mut self, member: u64, event: RunEvent, answer: Answer) -> OfficeRun
        ensures { result ≡ run_with_answer self member event answer }
    {
        let reply = answer.reply;
        self.sent = self.sent.with_messages(member, reply.messages);
        self.events = self.events.with(event);
        self.commits = self.commits.with_commit(member, reply.commit);
        if member < 3 {
            self.members[member as usize] = answer.shard;
        }
        self
    }

    // "a member's one proposal, where it is not refused"
    #[tactic(auto, unfolding(crate::specs::Runs::run_after_proposal, crate::specs::Runs::run_if_taken))]
    fn after_proposal(self, member: u64) -> Option<OfficeRun>
        ensures { result ≡ run_after_proposal self member }
    {
        if basics::sets::contains(self.proposed, member) {
            return None;
        }
        let shard = self.shard_of(member);
        let answer = shard.call(Call::Propose(value_proposed(member)));
        let reply = answer.reply;
        if reply.outcome.is_err() {
            return None;
        }
        let mut run = self.with_answer(member, RunEvent::Proposes(member), answer);
        run.proposed = basics::sets::insert(run.proposed, member);
        Some(run)
    }

    // "the delivery of one sent message to one member it was sent to .. a refused delivery is an event"
    #[tactic(auto, unfolding(crate::specs::Runs::after_delivery, crate::specs::Runs::after_message))]
    fn after_delivery(self, member: u64, place: u64) -> Option<OfficeRun>
        ensures { result ≡ after_delivery self member place }
    {
        if place >= self.sent.count {
            return None;
        }
        let sending = self.sent.at(place);
        if !is_sent_to(sending, member) {
            return None;
        }
        let shard = self.shard_of(member);
        let heard = heard_by(shard, sending.outgoing.message);
        let answer = shard.call(Call::Receive(heard));
        Some(self.with_answer(member, RunEvent::Delivers { member, place }, answer))
    }

    // The run with an event more, or none where the event may not come next.
    #[tactic(auto, unfolding(crate::specs::Runs::trial_of))]
    pub fn trial(self, event: RunEvent) -> Option<OfficeRun>
        ensures { result ≡ trial_of self event }
    {
        match event {
            RunEvent::Proposes(member) => self.after_proposal(member),
            RunEvent::Delivers { member, place } => self.after_delivery(member, place),
        }
    }
}
