// The reads of a shard in arrays that a host lends, changed in place: 128 open reads of five numbers (id, tag, arrival_slot, ready_count,
// local_ready), and 128 served ones of four (id, tag, waited_for, fast). A flag is 0 for no and any other number for yes. The contracts are
// those of crates/read_tracker/src/serving.rt, on the reads that the numbers stand for.
#![tactic(auto)]

ghost use Rattle.std.specs.Prelude.{◌≡◌, ◌<◌, ◌≤◌, get_or, length, set, take};
ghost use Rattle.basics.specs.elements.Places.{without, at_front};
ghost use Rattle.read_tracker.specs.serving.Serving.{receive_ready, serve_at_commit};
ghost use Rattle.read_tracker.specs.Reads.{new_table, no_read};
ghost use Rattle.arrays.specs.reads.Rows.{open_rows, served_rows, reads_in, tracked_in};

use message::ReadId;
use read_tracker::serving::{Counted, OpenReads, ServedReads};
use read_tracker::{OpenRead, ReadTracker, ServedRead};

// The arrays by name: of the open reads, and of the reads that the last call served.
pub type OpenReadsArray = [u64; 640];

pub type ServedReadsArray = [u64; 512];

// The array of open reads, five numbers each, as a row of reads.
#[derive(Drop)]
struct OpenRows<'a> {
    numbers: &'a mut OpenReadsArray,
}

impl OpenReads for OpenRows<'_> {
    ghost reads = { λ rows. open_rows rows.numbers.now };

    ghost lent = { λ rows. rows.numbers.ghost_name };

    fn get(&self, at: usize) -> OpenRead {
        have_open(self.numbers);
        open_at(self.numbers, at)
    }

    fn put(&mut self, at: usize, read: OpenRead) {
        put_open(self.numbers, at, read);
    }

    fn remove(&mut self, at: usize, places: usize) {
        have_open(self.numbers);
        remove(self.numbers, at, places);
    }
}

// The array of served reads, four numbers each, as a row of reads.
#[derive(Drop)]
struct ServedRows<'a> {
    numbers: &'a mut ServedReadsArray,
}

impl ServedReads for ServedRows<'_> {
    ghost served = { λ rows. served_rows rows.numbers.now };

    ghost lent = { λ rows. rows.numbers.ghost_name };

    fn put_served(&mut self, at: usize, read: ServedRead) {
        have_served(self.numbers);
        put_served_read(self.numbers, at, read);
    }
}

// There are 128 open reads, and 128 served ones. A proof knows how many numbers an array has where the array itself is passed on: these functions do
// nothing but say it.
#[tactic(auto, using(crate::proofs::reads::Rows::open_length))]
fn have_open(numbers: &OpenReadsArray)
    ensures { length (open_rows numbers.now) ≡ 128 }
{}

#[tactic(auto, using(crate::proofs::reads::Rows::served_length))]
fn have_served(numbers: &ServedReadsArray)
    ensures { length (served_rows numbers.now) ≡ 128 }
{}

// A read out of its numbers and into them, by functions with names and no From: the numbers stand at a place of an array that is lent.

// The open read at place i.
#[tactic(auto, using(crate::proofs::reads::Rows::open_at))]
fn open_at(open: &OpenReadsArray, i: usize) -> OpenRead
    requires { i < 128 }
    ensures { result ≡ get_or (open_rows «open».now) i no_read }
{
    let at = 5 * i;
    OpenRead {
        id: ReadId(open[at]),
        tag: open[at + 1],
        arrival_slot: open[at + 2],
        ready_count: open[at + 3],
        local_ready: open[at + 4] != 0,
    }
}

// The read goes to place i, if there is such a place.
#[tactic(auto, using(crate::proofs::reads::Rows::open_set, crate::proofs::reads::Rows::open_past))]
fn put_open(open: &mut OpenReadsArray, i: usize, read: OpenRead)
    ensures { open_rows «open».new ≡ set (open_rows «open».old) i read }
{
    if i < 128 {
        let at = 5 * i;
        open[at] = read.id.0;
        open[at + 1] = read.tag;
        open[at + 2] = read.arrival_slot;
        open[at + 3] = read.ready_count;
        open[at + 4] = read.local_ready as u64;
    }
}

#[tactic(auto, using(crate::proofs::reads::Rows::served_set))]
fn put_served_read(served: &mut ServedReadsArray, i: usize, read: ServedRead)
    requires { i < 128 }
    ensures { served_rows served.new ≡ set (served_rows served.old) i read }
{
    let at = 4 * i;
    served[at] = read.id.0;
    served[at + 1] = read.tag;
    served[at + 2] = read.waited_for;
    served[at + 3] = read.fast as u64;
}

// The first `open_places` reads without the one at place `at`: the later ones move one place down. Not basics::elements::remove_at, and no copy_within: each is put
// anew, so that a flag that a host wrote as another number than 0 and 1 is then 1, as in every read that is put.
#[tactic(auto, using(crate::proofs::reads::Rows::open_length, crate::proofs::reads::Moving::move_start, crate::proofs::reads::Moving::move_more))]
fn remove(open: &mut OpenReadsArray, at: usize, open_places: usize)
    requires { (at < open_places) × (open_places ≤ 128) }
    ensures { open_rows «open».new ≡ at_front (without at (take open_places (open_rows «open».old))) (open_rows «open».old) }
{
    for i in at + 1..open_places {
        let read = open_at(open, i);
        put_open(open, i - 1, read);
    }
}

// Puts an open read at place `at`. Where there is no such place, nothing changes. For a caller that has the open reads alone, which in this repository none
// is but the method below: that is this one where both arrays are lent together.
pub fn insert_open_read(open: &mut OpenReadsArray, at: u64, read: OpenRead)
    ensures { open_rows «open».new ≡ set (open_rows «open».old) at read }
{
    put_open(open, at as usize, read);
}

// The arrays of the open and of the served reads, which are lent as one. Any numbers may stand in them.
#[repr(C)]
#[derive(Clone, Copy)]
pub struct ReadArrays {
    pub reads: OpenReadsArray,
    pub served: ServedReadsArray,
}

impl ReadArrays {
    // The reads of a new shard: none.
    #[tactic(auto, using(crate::proofs::reads::Rows::zeros_new))]
    pub fn clear(&mut self)
        ensures { reads_in self.new ≡ new_table }
    {
        self.reads = [0; 640];
        self.served = [0; 512];
    }

    // Puts an open read, as `insert_open_read` above does, into the array of open reads.
    pub fn insert(&mut self, at: u64, read: OpenRead)
        ensures reads { open_rows self.new.reads ≡ set (open_rows self.old.reads) at read }
        ensures served { self.new.served ≡ self.old.served }
    {
        insert_open_read(&mut self.reads, at, read);
    }

    // One response. `fast` says whether this one completed the quorum the moment it arrived.
    pub fn receive_ready(
        &mut self,
        tracker: ReadTracker,
        id: ReadId,
        read_quorum: u64,
        slot: u64,
        fast: bool,
    ) -> Counted
        ensures { tracked_in result self.new ≡ receive_ready tracker (reads_in self.old) id read_quorum slot fast }
    {
        have_open(&self.reads);
        have_served(&self.served);
        let mut open = OpenRows {
            numbers: &mut self.reads,
        };
        let mut served = ServedRows {
            numbers: &mut self.served,
        };
        read_tracker::serving::receive_ready_in(
            &mut open,
            &mut served,
            tracker,
            id,
            read_quorum,
            slot,
            fast,
        )
    }

    // The reads that the newly committed slot has made ready are served in the order of their ids. No answer completed their quorum as it
    // arrived, so none of them is fast. The others move to the front.
    pub fn commit_slot(&mut self, tracker: ReadTracker, read_quorum: u64, slot: u64) -> Counted
        ensures { tracked_in result self.new ≡ serve_at_commit tracker (reads_in self.old) read_quorum slot }
    {
        have_open(&self.reads);
        have_served(&self.served);
        let mut open = OpenRows {
            numbers: &mut self.reads,
        };
        let mut served = ServedRows {
            numbers: &mut self.served,
        };
        read_tracker::serving::commit_slot_in(&mut open, &mut served, tracker, read_quorum, slot)
    }
}
