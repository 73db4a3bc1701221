// A shard as bytes: its numbers, its proposers and its open reads (docs/ORACLE.md, "Answer lines", 5 to 7). No `Display`, as `texts` says.
#![tactic(auto)]

ghost use Rattle.std.specs.Prelude.{◌≡◌};
ghost use Rattle.texts.specs.Text.{put, first_places};
ghost use Rattle.lines_written.specs.shards.Shard.{core_text, sets_text, if_proposer, proposers_below, open_text, shard_text};

use fast_state::FastState;
use message::Outcome;
use read_tracker::OpenRead;
use steps::{Core, Rounds};
use texts::Output;

// `shard slot LAST left_fast_path ROUND HELD`.
#[tactic(auto, using(texts::proofs::Putting::put_append), unfolding(crate::specs::shards::Shard::core_text, texts::specs::Text::put))]
fn put_core(out: &mut Output, core: &Core)
    ensures { out.new ≡ put (core_text core.now) out.old }
{
    out.put_fields(b" | shard", &[core.slot]);
    crate::promises::put_optional_value(out, core.last_v);
    out.put_field(texts::flag_number(core.slot_left_fast_path));
    crate::promises::put_optional_round(out, core.paxos.round);
    crate::promises::put_held(out, core.paxos.max_rv);
}

// `prepared_set accepted_set fast_answer_set fast_preaccepted fast_proposers SWIFT next_id`.
#[tactic(auto, using(texts::proofs::Putting::put_append), unfolding(crate::specs::shards::Shard::sets_text, texts::specs::Text::put))]
fn put_sets(out: &mut Output, rounds: &Rounds)
    ensures { out.new ≡ put (sets_text rounds.now) out.old }
{
    let prepared = rounds.core.paxos.prepared_set;
    let accepted = rounds.core.paxos.accepted_set;
    let answered = rounds.fast.fast_answer_set;
    let preaccepted = rounds.fast.fast_preaccepted;
    let proposers = rounds.fast.fast_proposers;
    out.put_fields(b"", &[prepared, accepted, answered, preaccepted, proposers]);
    crate::promises::put_optional_value(out, rounds.fast.swift_leader_answer);
    out.put_field(rounds.core.tracker.next_id);
}

#[tactic(auto, using(texts::proofs::Putting::put_nothing), unfolding(crate::specs::shards::Shard::if_proposer, crate::specs::shards::Shard::proposer_text))]
fn put_if_proposer(out: &mut Output, fast: &FastState, p: u64)
    ensures { out.new ≡ put (if_proposer fast.now p) out.old }
{
    if basics::sets::contains(fast.fast_proposers, p) {
        let v = basics::tables::look_up(&fast.fast_proposer_to_v, p);
        let epaxos_score = basics::tables::look_up(&fast.epaxos_proposer_scores, p);
        let swift_score = basics::tables::look_up(&fast.swift_proposer_scores, p);
        out.put_fields(b" | proposer", &[p, v, epaxos_score, swift_score]);
    }
}

#[tactic(auto, using(crate::proofs::shards::Proposers::one_proposer_more, crate::proofs::shards::Proposers::no_proposers, crate::proofs::shards::Proposers::none_below, texts::proofs::Putting::put_nothing))]
fn put_proposers(out: &mut Output, fast: &FastState)
    ensures { out.new ≡ put (proposers_below fast.now 64) out.old }
{
    if fast.fast_proposers == 0 {
        return;
    }
    for p in 0..64u64 {
        put_if_proposer(out, fast, p);
    }
}

#[tactic(auto, unfolding(crate::specs::shards::Shard::open_text))]
fn put_open_read(out: &mut Output, read: &OpenRead)
    ensures { out.new ≡ put (open_text read.now) out.old }
{
    let ready = texts::flag_number(read.local_ready);
    out.put_fields(
        b" | read",
        &[
            read.id.0,
            read.tag,
            read.arrival_slot,
            read.ready_count,
            ready,
        ],
    );
}

// Puts the reads in the first open_count places, of which there are 128. Why it is a loop of its own, and why the array comes with its count:
// `put_served_text` of `lines_written::replies`.
#[tactic(auto, using(texts::proofs::Putting::reached_next, texts::proofs::Putting::reached_all), unfolding(texts::specs::Text::first_places))]
fn put_open(out: &mut Output, reads: &[OpenRead; 128], open_count: u64)
    ensures { out.new ≡ put (first_places open_text reads.now open_count) out.old }
{
    let open = &reads[..open_count.min(128) as usize];
    for read in open {
        put_open_read(out, read);
    }
}

// The shard's numbers, its proposers and its open reads.
#[tactic(auto, using(texts::proofs::Putting::put_append), unfolding(crate::specs::shards::Shard::shard_text, crate::specs::shards::Shard::made_text))]
pub fn put_shard(out: &mut Output, rounds: &Rounds, reads: &[OpenRead; 128], made: Outcome)
    ensures { out.new ≡ put (shard_text rounds.now reads.now made) out.old }
{
    match made {
        Ok(()) => {
            put_core(out, &rounds.core);
            put_sets(out, rounds);
            put_proposers(out, &rounds.fast);
            put_open(out, reads, rounds.core.tracker.open_count);
        }
        Err(_) => out.put_bytes(b" | not_made"),
    }
}
