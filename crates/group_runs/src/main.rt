// Random runs of groups, and demand 3's claim checked on the log of each. A run is legal: a message is delivered only to a member that it
// was sent to. It may be lost, late, delivered twice, or before one that was sent earlier; members stop; and what the host adds is any.
// Where document 02 says on which answer the leader commits (E14), its commits are counted by the answers that it has heard.
#![tactic(auto)]

mod network;
mod run_checks;

use crate::network::{Network, Parcel};
use crate::run_checks::{Log, next_random};
use arrayvec::ArrayString;
use basics::refusals::Refused;
use basics::tables::PerProcess;
use calls::delivery::{Delivery, Said};
use calls::{Call, CommittedSlot, Reply};
use group_by_value::Group;
use message::{ConsensusMessage, ConsensusMsg, Outcome, PFMode};
use settings::Settings;
use std::fmt::{self, Write};
use steps::SentMessages;

const RUNS: u64 = 1000;

const TURNS: u64 = 100;

// The modes that are run, each under its name and from a seed of its own.
const MODES: [(&str, PFMode, u64); 5] = [
    ("Paxos", PFMode::Paxos, 1),
    ("MultiPaxos", PFMode::MultiPaxos, 2),
    ("MultiPaxos3P", PFMode::MultiPaxos3P, 3),
    ("Pando", PFMode::Pando, 4),
    ("EPaxos", PFMode::EPaxos, 5),
];

// What is counted in the runs of a mode. Places 1 to 12 of refusals count the refusals of these numbers. Place n of on_answers counts the
// leader's commits on the n-th answer, and otherwise those that do not come on the answer of majority less one.
#[derive(Clone, Copy)]
struct Counts {
    runs: u64,
    calls: u64,
    commits: u64,
    failed: u64,
    refusals: PerProcess,
    on_answers: PerProcess,
    otherwise: u64,
}

// How a run goes: how many turns of its beginning are proposals, so that several go on in one slot; in 256ths of its turns, up to where
// the later ones are proposals, and up to where messages are delivered and not lost; among how many of the latest messages most
// deliveries choose; and the requester that the host names in all calls, where it is a steady one.
#[derive(Clone, Copy)]
struct Habits {
    first_proposals: u64,
    proposals: u64,
    delivered: u64,
    recent: u64,
    requester: Option<u64>,
}

// What there is of a run besides the group: the generator's last number, the members that have stopped, those whose answers the leader has
// heard in its slot, the messages under way, the log and the counts.
#[derive(Drop)]
struct World {
    settings: Settings,
    habits: Habits,
    random: u64,
    last_called: u64,
    stopped: u64,
    side: u64,
    heard: u64,
    network: Network,
    log: Log,
    counts: Counts,
}

// The next call, and the member that it is made to.
type NextCall = (u64, Call);

// The remainder, and 0 where there is none.
fn remainder(x: u64, n: u64) -> u64 {
    x.checked_rem(n).unwrap_or(0)
}

// One more in the place n of a table, where it has that place.
fn prefix_count(table: &mut PerProcess, n: u64) {
    if let Some(count) = table.get_mut(n as usize) {
        *count = count.saturating_add(1);
    }
}

// A number below n for each process, from the generator.
fn random_table(seed: u64, n: u64) -> PerProcess {
    let mut table = [0; 64];
    let mut x = seed;
    for entry in table.iter_mut() {
        x = next_random(x);
        *entry = remainder(x / 8, n);
    }
    table
}

// The first count processes, or all of them but the first where spare is 0.
fn first_processes(count: u64, spare: u64) -> u64 {
    let first = if spare == 0 { 1 } else { 0 };
    (first..count).fold(0, |set, p| basics::sets::insert(set, p))
}

// How many processes there are: 3 to 5 in three runs of four, and else 1 to 9.
fn processes_of(x: u64) -> u64 {
    if x % 4 == 0 {
        x / 4 % 9 + 1
    } else {
        x / 4 % 3 + 3
    }
}

// How many of n processes are replicas: all in most runs, and in a few none, which is outside the limits.
fn replicas_of(n: u64, x: u64) -> u64 {
    if x % 64 == 1 {
        0
    } else if x % 4 == 0 {
        remainder(x / 4, n).saturating_add(1)
    } else {
        n
    }
}

// The settings of a run.
fn random_settings(mode: PFMode, seed: u64) -> Settings {
    let a = next_random(seed);
    let b = next_random(a);
    let process_count = processes_of(a / 8);
    let replica_count = replicas_of(process_count, b / 8);
    Settings {
        process_count,
        replica_count,
        my_pid: 0,
        alive_replicas: first_processes(replica_count, b / 4096 % 8),
        first_leader: remainder(b / 65536, replica_count),
        mode,
        quorum: None,
        committers: (a / 4096 % 2 == 0).then(|| random_table(a, process_count)),
        delegates: random_table(b, process_count),
    }
}

// What the host names as a requester: none, a process, and seldom a number that is no process.
fn random_requester(x: u64, n: u64) -> Option<u64> {
    if x % 4 == 0 {
        None
    } else if x / 4 % 64 == 0 {
        Some(n)
    } else {
        Some(remainder(x / 256, n))
    }
}

// A value: one of a thousand, and seldom a number that is too large.
fn random_value(x: u64) -> u64 {
    if x % 64 == 0 {
        9223372036854775808
    } else {
        x / 64 % 1000
    }
}

fn random_habits(x: u64) -> Habits {
    Habits {
        first_proposals: 1 + x / 4096 % 6,
        proposals: 8 + x % 3 * 16,
        delivered: 238 - x / 4 % 4 * 4,
        recent: 4 + x / 16 % 4 * 8,
        requester: (x / 64 % 4 > 0).then_some(x / 256 % 16),
    }
}

// A line's counts, each after a comma: the refusals by number, and the leader's commits by the answers that they came on.
impl fmt::Display for Counts {
    fn fmt<W: fmt::Write>(&self, f: &mut fmt::Formatter<W>) -> fmt::Result {
        write!(
            f,
            ",{},{},{},{}",
            self.runs, self.calls, self.commits, self.failed
        )?;
        for n in self.refusals[1..13].iter().chain(&self.on_answers[1..5]) {
            write!(f, ",{n}")?;
        }
        write!(f, ",{}", self.otherwise)
    }
}

impl Counts {
    fn new() -> Counts {
        Counts {
            runs: 0,
            calls: 0,
            commits: 0,
            failed: 0,
            refusals: [0; 64],
            on_answers: [0; 64],
            otherwise: 0,
        }
    }

    fn add_call(&mut self, outcome: Outcome, commit: Option<CommittedSlot>) {
        self.calls = self.calls.saturating_add(1);
        if let Err(why) = outcome {
            prefix_count(&mut self.refusals, why.number());
        }
        if commit.is_some() {
            self.commits = self.commits.saturating_add(1);
        }
    }

    // A commit of the leader that has heard so many answers.
    fn add_leader_commit(&mut self, majority: u64, answers: u64) {
        prefix_count(&mut self.on_answers, answers);
        if answers.saturating_add(1) != majority {
            self.otherwise = self.otherwise.saturating_add(1);
        }
    }

    fn add_run(&mut self, passes: bool) {
        self.runs = self.runs.saturating_add(1);
        if !passes {
            self.failed = self.failed.saturating_add(1);
        }
    }
}

fn post_all(mut network: Network, n: u64, messages: SentMessages) -> Network {
    for message in [messages.first, messages.second, messages.third] {
        if let Some(outgoing) = message {
            network = network.sent(n, outgoing);
        }
    }
    network
}

// The terms of E14: MultiPaxos or MultiPaxos3P, no committers, a majority of at least two, and a leader that is a live replica.
fn has_terms(settings: &Settings) -> bool {
    settings.committers.is_none()
        && settings.quorums().majority >= 2
        && settings.mode.is_multi_paxos()
        && settings.is_live_replica(settings.first_leader)
}

// Those whose answers were heard, with the one that a message brings: an Accept of the slot from a live replica other than the leader.
fn with_heard(settings: &Settings, heard: u64, slot: u64, message: ConsensusMessage) -> u64 {
    let source = message.src;
    match message.msg {
        ConsensusMsg::Accept { slot: named, .. }
            if named == slot
                && source != settings.first_leader
                && settings.is_live_replica(source) => { basics::sets::insert(heard, source) }
        _ => heard,
    }
}

// The same after a call of the leader that was not refused.
fn heard_after(settings: &Settings, heard: u64, slot: u64, call: Call) -> u64 {
    match call {
        Call::Receive(delivery) => with_heard(settings, heard, slot, delivery.message),
        _ => heard,
    }
}

impl World {
    fn new(settings: Settings, seed: u64, counts: Counts) -> World {
        World {
            settings,
            habits: random_habits(seed / 65536),
            random: seed,
            last_called: 0,
            stopped: 0,
            side: seed / 8,
            heard: 0,
            network: Network::new(),
            log: Log::new(),
            counts,
        }
    }

    // Who proposes: the first leader, any member, or the one that was called last, which may be at a slot that is new to it.
    fn proposer(&self, x: u64) -> u64 {
        match x % 4 {
            0 => self.settings.first_leader,
            1 => self.last_called,
            _ => remainder(x / 4, self.settings.process_count),
        }
    }

    fn proposal(&self, x: u64) -> Option<NextCall> {
        let member = self.proposer(x % 1024);
        let v = random_value(x / 1024);
        self.unless_stopped(member, Call::Propose(v))
    }

    fn read(&self, x: u64) -> Option<NextCall> {
        let member = remainder(x % 64, self.settings.process_count);
        let call = Call::StartRead {
            tag: x / 64 % 1024,
            arrival_slot: random_value(x / 65536) % 8,
        };
        self.unless_stopped(member, call)
    }

    fn requester(&self, x: u64, n: u64) -> Option<u64> {
        match self.habits.requester {
            Some(p) => Some(remainder(p, n)),
            None => random_requester(x, n),
        }
    }

    // A delivery of a message, with what the host says.
    fn delivery(&self, parcel: Parcel, x: u64) -> Option<NextCall> {
        let n = self.settings.process_count;
        let delivery = Delivery {
            message: parcel.message,
            said: Said {
                value_held: x % 16 > 0,
                requester: self.requester(x / 64, n),
                fast: x / 16 % 2 == 0,
            },
            held_requester: self.requester(x / 4194304, n),
        };
        self.unless_stopped(parcel.member, Call::Receive(delivery))
    }

    fn unless_stopped(&self, member: u64, call: Call) -> Option<NextCall> {
        if member < self.settings.process_count && !basics::sets::contains(self.stopped, member) {
            Some((member, call))
        } else {
            None
        }
    }

    // The place of the message that comes next.
    fn next_place(&self, x: u64) -> u64 {
        let count = self.network.count;
        if x % 4 == 0 {
            return remainder(x / 4, count);
        }
        let back = remainder(x / 4, self.habits.recent);
        if back < count {
            return count - 1 - back;
        }
        remainder(x / 4, count)
    }

    // After a delivery: the message is kept, so that it may come again, in one of eight cases.
    fn delivered(&mut self, place: u64, x: u64) {
        if x % 8 != 0 {
            self.network = self.network.without(place);
        }
    }

    fn stop(&mut self, x: u64) {
        self.stopped = basics::sets::insert(
            self.stopped,
            remainder(x, self.settings.process_count),
        );
    }

    // Whether the message goes from one side of the group to the other.
    fn crosses(&self, parcel: &Parcel) -> bool {
        basics::sets::contains(self.side, parcel.message.src)
            != basics::sets::contains(self.side, parcel.member)
    }

    // A turn in which a message under way is lost or delivered, or, where it goes to the other side of the group, mostly waits.
    fn message_turn(&mut self, lost: bool, x: u64, said: u64) -> Option<NextCall> {
        let place = self.next_place(x);
        let parcel = self.network.at(place);
        if lost {
            self.delivered(place, 1);
            return None;
        }
        if x / 1048576 % 8 > 0 && self.crosses(&parcel) {
            return None;
        }
        self.delivered(place, x / 4096);
        self.delivery(parcel, said)
    }

    // One turn: a proposal, a member that stops, other sides, a new read, or a message.
    fn turn(&mut self, number: u64) -> Option<NextCall> {
        let a = next_random(self.random);
        let b = next_random(a);
        self.random = b;
        let kind = a / 8 % 256;
        if number < self.habits.first_proposals || kind < self.habits.proposals {
            return self.proposal(b / 8);
        }
        match kind {
            255 => {
                self.stop(b / 8);
                None
            }
            243..=254 => {
                // the sides of the group change
                self.side = b / 8;
                None
            }
            239..=242 => self.read(b / 8),
            _ if self.network.count == 0 => None,
            _ => self.message_turn(kind > self.habits.delivered, a / 2048, b / 8),
        }
    }

    // A call of the leader: a commit is counted by the answers that it has heard, and a new slot begins without any.
    fn led(&mut self, call: Call, outcome: Outcome, commit: Option<CommittedSlot>) {
        if outcome.is_err() {
            return;
        }
        let slot = self.log.slot_of(self.settings.first_leader);
        self.heard = heard_after(&self.settings, self.heard, slot, call);
        if commit.is_some() {
            self.counts.add_leader_commit(
                self.settings.quorums().majority,
                basics::sets::size(self.heard),
            );
            self.heard = 0;
        }
    }

    // What the call handed back goes into the log, the counts and the network.
    fn logged(&mut self, n: u64, member: u64, call: Call, reply: Reply) {
        if let Call::Propose(v) = call
            && reply.outcome.is_ok()
        {
            self.log.proposed(member, v);
        }
        if let Some(CommittedSlot { slot, v, .. }) = reply.commit {
            self.log.committed(member, slot, v);
        }
        self.network = post_all(self.network, n, reply.messages);
        self.counts.add_call(reply.outcome, reply.commit);
        self.last_called = member;
    }

    fn answered(&mut self, member: u64, call: Call, reply: Reply) {
        if member == self.settings.first_leader && has_terms(&self.settings) {
            self.led(call, reply.outcome, reply.commit);
        }
        self.logged(self.settings.process_count, member, call, reply);
    }
}

// One run.
fn run(settings: Settings, seed: u64, counts: Counts) -> Counts {
    let mut group = Group::new(settings);
    let mut world = World::new(settings, seed, counts);
    for i in 0..TURNS {
        if let Some((member, call)) = world.turn(i) {
            let answer = group.call(member, call);
            group = answer.group;
            world.answered(member, call, answer.reply);
        }
    }
    let passes = world.log.passes();
    world.counts.add_run(passes);
    world.counts
}

fn runs(mode: PFMode, first_seed: u64) -> Counts {
    let mut counts = Counts::new();
    let mut seed = first_seed;
    for _ in 0..RUNS {
        seed = next_random(next_random(next_random(seed)));
        counts = run(random_settings(mode, seed), seed, counts);
    }
    counts
}

// Writes a line. The name of a mode, 21 counts of at most 20 digits and what parts them have fewer than 512 bytes.
fn write_line(name: &str, counts: &Counts) {
    let mut line = ArrayString::<512>::new();
    let _ = write!(line, "{name}{counts}\n");
    io::write_all(1, line.as_str().as_bytes());
}

// Where standard output is closed the runs are made all the same, and their lines are lost.
fn main(_rt: HostRuntime) {
    io::write_all(
        1,
        b"mode,runs,calls,commits,failed,1,2,3,4,5,6,7,8,9,10,11,12,on 1,on 2,on 3,on 4,otherwise\n",
    );
    for (name, mode, seed) in MODES {
        write_line(name, &runs(mode, seed));
    }
}
