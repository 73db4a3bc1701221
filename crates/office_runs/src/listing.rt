// The parts of a line of the listing of short runs (request E12): events and commits, joined by blanks.
#![tactic(auto)]

ghost use Rattle.std.specs.Prelude.{◌≡◌, List, ℕ};
ghost use Rattle.texts.specs.Text.{put};
ghost use Rattle.office_runs.specs.listing.Lines.{pair, event_text, commit_by_text, joined_by_blanks, blank, first_five};

use enabled_runs::{CommitBy, RunEvent};
use texts::Output;

// Two numbers with a full stop between.
#[tactic(auto, using(texts::proofs::Putting::put_append), unfolding(crate::specs::listing::Lines::pair, texts::specs::Text::put))]
fn put_pair(out: &mut Output, a: u64, b: u64)
    ensures { out.new ≡ put (pair a b) out.old }
{
    out.put_number(a);
    out.put_byte(b'.');
    out.put_number(b);
}

// "`p` and the member, or `d`, the member, a full stop and the message's place"
#[tactic(auto, using(texts::proofs::Putting::put_append), unfolding(crate::specs::listing::Lines::event_text, texts::specs::Text::put))]
fn put_event(out: &mut Output, event: RunEvent)
    ensures { out.new ≡ put (event_text event) out.old }
{
    match event {
        RunEvent::Proposes(member) => {
            out.put_byte(b'p');
            out.put_number(member);
        }
        RunEvent::Delivers { member, place } => {
            out.put_byte(b'd');
            put_pair(out, member, place);
        }
    }
}

// "member, slot and value with full stops between"
#[tactic(auto, using(texts::proofs::Putting::put_append), unfolding(crate::specs::listing::Lines::commit_by_text, texts::specs::Text::put))]
fn put_commit(out: &mut Output, commit: CommitBy)
    ensures { out.new ≡ put (commit_by_text commit) out.old }
{
    put_pair(out, commit.member, commit.slot);
    out.put_byte(b'.');
    out.put_number(commit.v);
}

// A part of a line: an event or a commit.
pub trait Part {
    ghost text: { Self → List ℕ };

    fn put(&self, out: &mut Output)
        ensures { out.new ≡ put (text self.now) out.old };
}

impl Part for RunEvent {
    ghost text = { event_text };

    fn put(&self, out: &mut Output) {
        put_event(out, *self);
    }
}

impl Part for CommitBy {
    ghost text = { commit_by_text };

    fn put(&self, out: &mut Output) {
        put_commit(out, *self);
    }
}

// The blank before all but the first.
#[tactic(auto, using(texts::proofs::Putting::put_nothing), unfolding(crate::specs::listing::Lines::blank))]
fn put_blank(out: &mut Output, i: usize)
    ensures { out.new ≡ put (blank i) out.old }
{
    if i != 0 {
        out.put_byte(b' ');
    }
}

// "Events are joined by blanks", and "commits, in time order and joined by blanks". The array comes with its count, and no slice in their place: any count
// has an answer here, so that no caller has to show one that fits.
#[tactic(auto, unfolding(crate::specs::listing::Lines::joined_by_blanks, texts::specs::Text::put))]
pub fn put_joined<T: Part>(out: &mut Output, parts: &[T; 5], count: u64)
    ensures { out.new ≡ put (joined_by_blanks T.text (first_five parts.now count)) out.old }
{
    let first = &parts[..count.min(5) as usize];
    for (i, part) in first.iter().enumerate() {
        put_blank(out, i);
        part.put(out);
    }
}
