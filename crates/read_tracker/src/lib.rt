// The reads of a shard that are not served yet (the Rust's read_tracker.rs): their table, a new read, and what one answer adds to a read.
// The Rust's map is a table of 128 places, the open reads in front, in the order of their ids.
#![tactic(auto)]

pub mod serving;

ghost use Rattle.std.specs.Prelude.{◌≡◌, ◌<◌, OnOk};
ghost use Rattle.read_tracker.specs.Reads.{new_tracker, new_table, new_read, open_next, insert_read, open_places, after_response, after_commit, has_quorum, serve};

use message::{ReadId, Refusal, increment};

// A read that waits for its quorum: the Rust's ReadOnlyCommand with its id. The host keeps the command under the tag.
#[derive(Clone, Copy)]
pub struct OpenRead {
    pub id: ReadId,
    pub tag: u64,
    pub arrival_slot: u64,
    pub ready_count: u64,
    pub local_ready: bool,
}

// A read that is served: the Rust's command with its CommitReport.
#[derive(Clone, Copy)]
pub struct ServedRead {
    pub id: ReadId,
    pub tag: u64,
    pub waited_for: u64,
    pub fast: bool,
}

// What each call changes of the reads: the id of the next one, and how many are open.
#[derive(Clone, Copy)]
pub struct ReadTracker {
    pub next_id: u64,
    pub open_count: u64,
}

// The open reads stand in the first open_count places. A call puts the reads that it serves into the first places of `served`. Arrays whose count stands in
// the tracker, and no vectors: the memory is fixed, without heap, and any count is answered (open_places).
#[derive(Clone, Copy)]
pub struct ReadTable {
    pub reads: [OpenRead; 128],
    pub served: [ServedRead; 128],
}

// A new read, whose place in the table is the old open_count, and the tracker that has counted it.
#[derive(Clone, Copy)]
pub struct Opening {
    pub read: OpenRead,
    pub tracker: ReadTracker,
}

// The tracker and the table after a new read, and its id.
#[derive(Clone, Copy)]
pub struct Inserted {
    pub tracker: ReadTracker,
    pub table: ReadTable,
    pub id: ReadId,
}

impl ReadTable {
    pub fn new() -> ReadTable
        ensures { result ≡ new_table }
    {
        let empty = OpenRead {
            id: ReadId(0),
            tag: 0,
            arrival_slot: 0,
            ready_count: 0,
            local_ready: false,
        };
        let none = ServedRead {
            id: ReadId(0),
            tag: 0,
            waited_for: 0,
            fast: false,
        };
        ReadTable {
            reads: [empty; 128],
            served: [none; 128],
        }
    }
}

impl ReadTracker {
    pub fn new() -> ReadTracker
        ensures { result ≡ new_tracker }
    {
        ReadTracker {
            next_id: 0,
            open_count: 0,
        }
    }

    // How many places of the table hold open reads. There are no more than 128, whatever the count says. The library's `min`, in one place for its callers.
    pub fn open_places(self) -> usize
        ensures { result ≡ open_places self }
    {
        self.open_count.min(128) as usize
    }

    // tag and arrival_slot, here and in the calls that bring them, are two numbers of the host's and parameters of their own: a struct of the two would be made
    // for one read and taken apart into it.

    // A new read, under the next id, without the table. Refused where 128 reads are open, or where the ids are spent: the last one is 2^63-1. So the place
    // of a read that is opened, open_count, is below 128.
    #[tactic(auto, unfolding(crate::specs::Reads::open_next))]
    pub fn open_next(
        self,
        tag: u64,
        arrival_slot: u64,
        local_ready: bool,
    ) -> Result<Opening, Refusal>
        ensures opened { result ≡ open_next self tag arrival_slot local_ready }
        ensures place { OnOk result (self.open_count < 128) }
    {
        if self.open_count >= 128 || self.next_id > message::LARGEST_NUMBER {
            return Err(Refusal::NoRoomForRead);
        }
        Ok(Opening {
            read: OpenRead::new(ReadId(self.next_id), tag, arrival_slot, local_ready),
            tracker: ReadTracker {
                next_id: self.next_id + 1,
                open_count: self.open_count + 1,
            },
        })
    }
}

impl OpenRead {
    // The read as it is inserted: the own answer counts if it is there.
    fn new(id: ReadId, tag: u64, arrival_slot: u64, local_ready: bool) -> OpenRead
        ensures { result ≡ new_read id tag arrival_slot local_ready }
    {
        let ready_count = local_ready as u64;
        OpenRead {
            id,
            tag,
            arrival_slot,
            ready_count,
            local_ready,
        }
    }

    // What one response adds.
    #[tactic(auto, unfolding(crate::specs::Reads::after_response))]
    pub fn after_response(mut self) -> OpenRead
        ensures { result ≡ after_response self }
    {
        self.ready_count = increment(self.ready_count);
        self
    }

    // The own answer, which a commit gives to each read that misses it.
    #[tactic(auto, unfolding(crate::specs::Reads::after_commit))]
    pub fn after_commit(mut self) -> OpenRead
        ensures { result ≡ after_commit self }
    {
        if self.local_ready {
            return self;
        }
        self.ready_count = increment(self.ready_count);
        self.local_ready = true;
        self
    }

    pub fn has_quorum(self, read_quorum: u64) -> bool
        ensures { result ≡ has_quorum read_quorum self }
    {
        self.ready_count >= read_quorum
    }

    pub fn serve(self, slot: u64, fast: bool) -> ServedRead
        ensures { result ≡ serve slot fast self }
    {
        let id = self.id;
        ServedRead {
            id,
            tag: self.tag,
            waited_for: slot.saturating_sub(self.arrival_slot),
            fast,
        }
    }
}

// A new read in the table, behind the open ones.
#[tactic(auto, unfolding(crate::specs::Reads::insert_read))]
pub fn insert_read(
    tracker: ReadTracker,
    mut table: ReadTable,
    tag: u64,
    arrival_slot: u64,
    local_ready: bool,
) -> Result<Inserted, Refusal>
    ensures { result ≡ insert_read tracker table tag arrival_slot local_ready }
{
    let Opening {
        read,
        tracker: after,
    } = tracker.open_next(tag, arrival_slot, local_ready)?;
    table.reads[tracker.open_count as usize] = read;
    Ok(Inserted {
        tracker: after,
        table,
        id: read.id,
    })
}
