// Every run of a group of three in Paxos mode, at most five events long, as CSV (request E12). It reads nothing. The lister goes down one event at a
// time with the events left falling, and writes each run's line before those of the runs that extend it.
#![tactic(auto)]

ghost use Rattle.std.specs.Prelude.{◌≡◌, ◌≤◌, length, take};
ghost use Rattle.texts.specs.Text.{put};
ghost use Rattle.enabled_runs.specs.Listing.{each_below};
ghost use Rattle.office_runs.specs.Runs.{trial_of};
ghost use Rattle.short_runs.specs.Lister.{kept_line, event_lines, lines_after};
ghost use Rattle.short_runs.specs.Sheet.{sheet};

use enabled_runs::RunEvent;
use office_runs::OfficeRun;
use texts::Output;

// The line of a run.
fn put_line(out: &mut Output, run: OfficeRun)
    ensures { out.new ≡ put (kept_line run) out.old }
{
    office_runs::listing::put_joined(out, &run.events.places, run.events.count);
    out.put_byte(b',');
    office_runs::listing::put_joined(out, &run.commits.places, run.commits.count);
    out.put_bytes(b"\r\n");
}

// ---- the listing

// out, left and run are parameters of their own, in the three functions: the buffer is one for the whole sheet, and left and run are other ones at each step
// down, so that a struct would be made anew for each call.

// The run with the event, if it may come next, "followed at once by those that extend it".
#[tactic(auto, using(crate::proofs::Turns::skipped))]
#[cycle(list_list_deliveries_list_event)]
fn list_event(out: &mut Output, left: u64, run: OfficeRun, event: RunEvent)
    ensures { out.new ≡ put (event_lines (lines_after left) (trial_of run event)) out.old }
{
    if let Some(next) = run.trial(event) {
        put_line(out, next);
        list(out, left, next);
    }
}

// The runs whose next event is a delivery to the member, "by the sent message's place in time".
#[tactic(auto, using(crate::proofs::Turns::begins_with_none, crate::proofs::Turns::one_more, crate::proofs::Turns::all_of))]
#[cycle(list_list_deliveries_list_event)]
fn list_deliveries(out: &mut Output, left: u64, run: OfficeRun, member: u64)
    ensures { out.new ≡ put (each_below run.sent.count (λ place. event_lines (lines_after left) (trial_of run (RunEvent.Delivers member place)))) out.old }
{
    let count = run.sent.count;
    for place in 0..count {
        list_event(out, left, run, RunEvent::Delivers { member, place });
    }
}

// Every run that extends this one by at most `left` events: "proposals before deliveries, by member".
#[tactic(auto, using(crate::proofs::Turns::no_events_left, crate::proofs::Turns::begins_with_none, crate::proofs::Turns::one_more))]
#[cycle(list_list_deliveries_list_event)]
fn list(out: &mut Output, left: u64, run: OfficeRun)
    ensures { out.new ≡ put (lines_after left run) out.old }
{
    if left == 0 {
        return;
    }
    let fewer = left - 1;
    for proposer in 0..3u64 {
        list_event(out, fewer, run, RunEvent::Proposes(proposer));
    }
    for member in 0..3u64 {
        list_deliveries(out, fewer, run, member);
    }
}

// "header `events,commits` and a line per run", for the runs of at most five events.
#[tactic(auto, using(crate::proofs::SheetIsListing::sheet_put))]
fn put_sheet(out: &mut Output)
    ensures { out.new ≡ put sheet out.old }
{
    out.put_bytes(b"events,commits\r\n");
    let none = OfficeRun::new();
    list(out, 5, none);
}

// ---- the program

// Puts the whole sheet at the start of a buffer that has room for it.
#[tactic(auto, using(crate::proofs::Room::bytes_are_sheet))]
fn whole_sheet(out: &mut Output)
    requires start { out.old.at ≡ 0 }
    requires room { 45802 ≤ length out.old.bytes.now }
    ensures { take out.new.at out.new.bytes.now ≡ sheet }
{
    put_sheet(out);
}

fn main() {
    let mut bytes = [0u8; 65536];
    let mut out = Output::new(&mut bytes);
    whole_sheet(&mut out);
    io::write_all(1, out.text());
}
