// Reads calls on standard input, a line each, runs them on one shard, and writes the answers, a line each (docs/ORACLE.md, "Call lines" and
// "Answer lines"). A line that does not fit a block of 65,536 bytes is too long.
#![tactic(auto)]

ghost use Rattle.std.specs.Prelude.{◌≡◌, true};
ghost use Rattle.replay.specs.Answer.{shard_answered, new_answer, state_line_answer, line_answer_of, is_skipped, LineLeaves};

use call_lines::Fault;
use calls::Reply;
use consensus::{Answer, Shard, State};
use group_settings::GroupSettings;
use message::Outcome;
use texts::Output;
use texts::blocks::LineTaker;

// The shard that the calls change, and the places for the numbers of a line.
#[derive(Drop)]
struct Replay {
    shard: Shard,
    places: [u64; 2048],
}

fn is_skipped(line: &[u8]) -> bool
    ensures { result ≡ is_skipped line.now }
{
    line.is_empty() || line[0] == b'#'
}

fn answer_with(shard: Shard, outcome: Outcome) -> Answer
    ensures { result ≡ shard_answered shard outcome }
{
    let reply = Reply {
        outcome,
        messages: steps::no_messages(),
        commit: None,
        served_count: 0,
    };
    Answer { shard, reply }
}

// A shard as it begins, in place of the old one.
#[tactic(auto, unfolding(crate::specs::Answer::new_answer))]
fn new_answer(group: GroupSettings) -> Answer
    ensures { result ≡ new_answer group }
{
    let shard = group_shard::begin_shard(group);
    let made = shard.made;
    answer_with(shard, made)
}

// The shard with another state. One that is not made stays so, and is refused.
#[tactic(auto, unfolding(crate::specs::Answer::state_line_answer))]
fn state_answer(mut shard: Shard, state: State) -> Answer
    ensures { result ≡ state_line_answer shard state }
{
    let made = shard.made;
    shard.state = state;
    answer_with(shard, made)
}

// What a line without a fault makes of the shard. Its kind is a number, as in lines_read::line_calls.
#[tactic(auto, unfolding(crate::specs::Answer::line_answer_of))]
fn line_answer_of(shard: Shard, numbers: &[u64]) -> Answer
    ensures { result ≡ line_answer_of shard numbers.now }
{
    match call_lines::number_at(numbers, 0) {
        1 => new_answer(lines_read::line_states::group_settings_of(numbers)),
        2 => state_answer(shard, lines_read::line_states::state_of(numbers)),
        _ => shard.call(lines_read::line_calls::call_of_numbers(numbers)),
    }
}

// The numbers of a line, which stand in the first places that are lent, or what is wrong with it.
fn line_numbers<'a>(line: &[u8], places: &'a mut [u64]) -> Result<&'a [u64], Fault> {
    let scan = call_lines::read_numbers(line, places);
    scan.fault()?;
    let count = scan.before.saturating_add(1).min(places.len());
    let numbers = &places[..count];
    lines_read::line_states::numbers_fault(numbers)?;
    Ok(numbers)
}

// Answers one line, without its LF.
fn answer_line(shard: &mut Shard, line: &[u8], places: &mut [u64], out: &mut Output)
    ensures { LineLeaves shard.old line.now shard.new }
{
    if is_skipped(line) {
        return;
    }
    match line_numbers(line, places) {
        Ok(numbers) => {
            let answer = line_answer_of(*shard, numbers);
            lines_written::answers::put_answer_text(out, &answer);
            *shard = answer.shard;
        }
        Err(fault) => lines_written::faults::put_fault(out, fault),
    }
}

impl LineTaker for Replay {
    ghost takes = { λ old line new. LineLeaves old.shard line new.shard };

    ghost takes_too_long = { λ old _ new. new.shard ≡ old.shard };

    ghost asks = { λ _. true };

    fn take(&mut self, line: &[u8], out: &mut Output) {
        answer_line(&mut self.shard, line, &mut self.places, out);
    }

    fn take_too_long(&mut self, start: &[u8], out: &mut Output) {
        if !is_skipped(start) {
            lines_written::faults::put_fault(out, Fault::TooLong);
        }
    }

    fn goes_on(&self) -> bool {
        true
    }
}

// The shard before the first settings, which is not made.
fn unmade_answer() -> Shard {
    group_shard::begin_shard(lines_read::line_states::group_settings_of(&[0]))
}

fn main(rt: HostRuntime) {
    let mut stdin = rt.stdin();
    let mut input = io::large_buffer();
    let mut output_bytes = io::large_buffer();
    let mut out = Output::new(&mut output_bytes);
    let mut replay = Replay {
        shard: unmade_answer(),
        places: [0; 2048],
    };
    texts::blocks::take_input(&mut stdin, &mut input, &mut replay, &mut out);
}
