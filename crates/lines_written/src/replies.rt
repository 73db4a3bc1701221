// A reply as bytes: its outcome, messages, commit and served reads (docs/ORACLE.md, "Answer lines", 1 to 4). No `Display`, as `texts` says.
#![tactic(auto)]

ghost use Rattle.std.specs.Prelude.{◌≡◌};
ghost use Rattle.texts.specs.Text.{put, first_places};
ghost use Rattle.lines_written.specs.replies.Reply.{outcome_text, commit_text, served_text, reply_text};

use basics::refusals::Refused;
use calls::{CommittedSlot, Reply};
use message::Outcome;
use read_tracker::ServedRead;
use texts::Output;

#[tactic(auto, unfolding(crate::specs::replies::Reply::outcome_text))]
fn put_outcome_text(out: &mut Output, outcome: Outcome)
    ensures { out.new ≡ put (outcome_text outcome) out.old }
{
    match outcome {
        Ok(()) => out.put_bytes(b"done"),
        Err(why) => out.put_fields(b"refused", &[why.number()]),
    }
}

#[tactic(auto, using(texts::proofs::Putting::put_nothing), unfolding(crate::specs::replies::Reply::commit_text))]
fn put_commit(out: &mut Output, commit: Option<CommittedSlot>)
    ensures { out.new ≡ put (commit_text commit) out.old }
{
    if let Some(CommittedSlot { slot, v, fast }) = commit {
        out.put_fields(b" | commit", &[slot, v, texts::flag_number(fast)]);
    }
}

#[tactic(auto, unfolding(crate::specs::replies::Reply::served_text))]
fn put_served_read(out: &mut Output, read: &ServedRead)
    ensures { out.new ≡ put (served_text read.now) out.old }
{
    let mark = texts::flag_number(read.fast);
    out.put_fields(b" | served", &[read.id.0, read.tag, read.waited_for, mark]);
}

// Puts the reads in the first served_count places, of which there are 128. The array comes with its count, and no slice in their place: the count is that
// of the reply, and any count has an answer here.
// One loop for these and the open reads of `lines_written::shards` would be a trait that neither crate may implement for them, or a closure with its text as
// a ghost value: no plainer than the two lines.
#[tactic(auto, using(texts::proofs::Putting::reached_next, texts::proofs::Putting::reached_all), unfolding(texts::specs::Text::first_places))]
fn put_served_text(out: &mut Output, served: &[ServedRead; 128], served_count: u64)
    ensures { out.new ≡ put (first_places served_text served.now served_count) out.old }
{
    let reads = &served[..served_count.min(128) as usize];
    for read in reads {
        put_served_read(out, read);
    }
}

#[tactic(auto, using(texts::proofs::Putting::put_append), unfolding(crate::specs::replies::Reply::reply_text, texts::specs::Text::put))]
pub fn put_reply_text(out: &mut Output, reply: Reply, served: &[ServedRead; 128])
    ensures { out.new ≡ put (reply_text reply served.now) out.old }
{
    put_outcome_text(out, reply.outcome);
    crate::messages::put_messages_text(out, reply.messages);
    put_commit(out, reply.commit);
    put_served_text(out, served, reply.served_count);
}
