// What a response and a commit do with the open reads: which of them are served, and which stay open. The Rust's read_tracker.rs,
// `receive_ready` and `commit_slot`.
#![tactic(auto)]

ghost use Rattle.std.specs.Prelude.{ℕ, List, ◌≡◌, ◌<◌, ◌≤◌, length, position, slice_index_or, slice_set, take};
ghost use Rattle.basics.specs.elements.Places.{at_front, without};
ghost use Rattle.read_tracker.specs.declared.OpenRead.{OpenRead};
ghost use Rattle.read_tracker.specs.declared.ServedRead.{ServedRead};
ghost use Rattle.read_tracker.specs.serving.Serving.{has_id, with_table, receive_ready, serve_at_commit};

use crate::{OpenRead, ReadTable, ReadTracker, ServedRead};
use basics::elements::remove_at;
use message::ReadId;

// The tracker after a response or a commit, and how many reads that served: they stand in the first places of the served ones.
#[derive(Clone, Copy)]
pub struct Counted {
    pub tracker: ReadTracker,
    pub served_count: u64,
}

// The same with the table: all that is left of the reads, `Counted` being what a host's arrays need of it.
#[derive(Clone, Copy)]
pub struct Tracked {
    pub tracker: ReadTracker,
    pub table: ReadTable,
    pub served_count: u64,
}

impl Counted {
    fn with_table(self, table: ReadTable) -> Tracked
        ensures { result ≡ with_table self table.reads table.served }
    {
        Tracked {
            tracker: self.tracker,
            table,
            served_count: self.served_count,
        }
    }
}

// A row of open reads, whatever it is made of.
pub trait OpenReads {
    ghost reads: { Self → List OpenRead };

    // What a row that lends its places keeps: the reference that it holds. That it stays the same is a clause of each method, here and in the two functions
    // over rows: it compares what stood before with what stands after, and a type speaks of one of them.
    ghost lent: { Self → ℕ };

    fn get(&self, at: usize) -> OpenRead
        requires { at < length (reads self.now) }
        ensures { (d : OpenRead) → result ≡ slice_index_or (reads self.now) at d };

    fn put(&mut self, at: usize, read: OpenRead)
        requires { at < length (reads self.old) }
        ensures reads { reads self.new ≡ slice_set (reads self.old) at read }
        ensures same_reference { lent self.new ≡ lent self.old };

    // The first `places` reads without the one at place `at`: the later ones move one place down.
    fn remove(&mut self, at: usize, places: usize)
        requires { (at < places) × (places ≤ length (reads self.old)) }
        ensures reads { reads self.new ≡ at_front (without at (take places (reads self.old))) (reads self.old) }
        ensures same_reference { lent self.new ≡ lent self.old };
}

// A row of served reads, whatever it is made of. Not one trait with the row above: of a served row no read is looked at or taken out, so a common one would
// have the one method that both have, over a type of reads that each function would name again.
pub trait ServedReads {
    ghost served: { Self → List ServedRead };

    ghost lent: { Self → ℕ };

    fn put_served(&mut self, at: usize, read: ServedRead)
        requires { at < length (served self.old) }
        ensures served { served self.new ≡ slice_set (served self.old) at read }
        ensures same_reference { lent self.new ≡ lent self.old };
}

impl OpenReads for [OpenRead; 128] {
    ghost reads = { λ l. l };

    ghost lent = { λ _. 0 };

    fn get(&self, at: usize) -> OpenRead {
        self[at]
    }

    fn put(&mut self, at: usize, read: OpenRead) {
        self[at] = read;
    }

    fn remove(&mut self, at: usize, places: usize) {
        remove_at(self, at, places);
    }
}

impl ServedReads for [ServedRead; 128] {
    ghost served = { λ l. l };

    ghost lent = { λ _. 0 };

    fn put_served(&mut self, at: usize, read: ServedRead) {
        self[at] = read;
    }
}

// The place of the first of the open reads that has this id. By index: a row of reads lends no slice of them. The ids are compared by their numbers: by `==` of
// the ids the check did not find the proof (the goal `returns-then-eq`).
#[tactic(auto, using(crate::proofs::serving::Responses::search_more, crate::proofs::serving::Responses::search_none))]
fn find<O: OpenReads>(open: &O, open_places: usize, id: ReadId) -> Option<usize>
    requires { open_places ≤ length (O.reads «open».now) }
    ensures { result ≡ position (has_id id) (take open_places (O.reads «open».now)) }
{
    for i in 0..open_places {
        if open.get(i).id.0 == id.0 {
            return Some(i);
        }
    }
    None
}

// tracker, read_quorum and slot are parameters of their own: the first is a part of the shard, the second of the settings, and the third the shard's or a
// commit's.

// One response, to reads that stand in rows that are lent. `fast` says whether this one completed the quorum the moment it arrived.
pub fn receive_ready_in<O: OpenReads, S: ServedReads>(
    open: &mut O,
    served: &mut S,
    mut tracker: ReadTracker,
    id: ReadId,
    read_quorum: u64,
    slot: u64,
    fast: bool,
) -> Counted
    requires { (length (O.reads «open».old) ≡ 128) × (length (S.served served.old) ≡ 128) }
    ensures same_open { O.lent «open».new ≡ O.lent «open».old }
    ensures same_served { S.lent served.new ≡ S.lent served.old }
    ensures answer { with_table result (O.reads «open».new) (S.served served.new) ≡ receive_ready tracker (record { reads = O.reads «open».old; served = S.served served.old }) id read_quorum slot fast }
{
    let open_places = tracker.open_places();
    tracker.open_count = open_places as u64;
    let Some(at) = find(open, open_places, id) else {
        return Counted {
            tracker,
            served_count: 0,
        };
    };
    let read = open.get(at).after_response();
    if read.has_quorum(read_quorum) {
        open.remove(at, open_places);
        served.put_served(0, read.serve(slot, fast));
        tracker.open_count -= 1;
        return Counted {
            tracker,
            served_count: 1,
        };
    }
    open.put(at, read);
    Counted {
        tracker,
        served_count: 0,
    }
}

// One response.
pub fn receive_ready(
    tracker: ReadTracker,
    mut table: ReadTable,
    id: ReadId,
    read_quorum: u64,
    slot: u64,
    fast: bool,
) -> Tracked
    ensures { result ≡ receive_ready tracker table id read_quorum slot fast }
{
    let counted = receive_ready_in(
        &mut table.reads,
        &mut table.served,
        tracker,
        id,
        read_quorum,
        slot,
        fast,
    );
    counted.with_table(table)
}

// The reads that the newly committed slot has made ready are served in the order of their ids. No answer completed their quorum as it
// arrived, so none of them is fast. The others move to the front.
pub fn commit_slot_in<O: OpenReads, S: ServedReads>(
    open: &mut O,
    served: &mut S,
    tracker: ReadTracker,
    read_quorum: u64,
    slot: u64,
) -> Counted
    requires { (length (O.reads «open».old) ≡ 128) × (length (S.served served.old) ≡ 128) }
    ensures same_open { O.lent «open».new ≡ O.lent «open».old }
    ensures same_served { S.lent served.new ≡ S.lent served.old }
    ensures answer { with_table result (O.reads «open».new) (S.served served.new) ≡ serve_at_commit tracker (record { reads = O.reads «open».old; served = S.served served.old }) read_quorum slot }
{
    // counted by hand, and by the index: each read goes to the next place of one row or of the other, and a row lends no slice to go through
    let mut kept_count: usize = 0;
    let mut served_count: usize = 0;
    let open_places = tracker.open_places();
    for i in 0..open_places {
        let read = open.get(i).after_commit();
        if read.has_quorum(read_quorum) {
            served.put_served(served_count, read.serve(slot, false));
            served_count += 1;
        } else {
            open.put(kept_count, read);
            kept_count += 1;
        }
    }
    Counted {
        tracker: ReadTracker {
            next_id: tracker.next_id,
            open_count: kept_count as u64,
        },
        served_count: served_count as u64,
    }
}

pub fn serve_at_commit(
    tracker: ReadTracker,
    mut table: ReadTable,
    read_quorum: u64,
    slot: u64,
) -> Tracked
    ensures { result ≡ serve_at_commit tracker table read_quorum slot }
{
    let counted = commit_slot_in(
        &mut table.reads,
        &mut table.served,
        tracker,
        read_quorum,
        slot,
    );
    counted.with_table(table)
}
