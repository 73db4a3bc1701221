// Lines of standard input and answers to standard output, in blocks, for `replay`, `planning` and `cell_report`: what is answered is written before
// the next block is waited for. A line that fills the whole input buffer and has not ended there is too long; the rest of it is skipped.
#![tactic(auto)]

ghost use Rattle.std.specs.Prelude.{◌≡◌, Bool, true, false, List, [], ◌∷◌, ℕ, ◌-◌, ◌≤◌, ◌<◌, ◌==◌, min, length, take, drop, IfSome, MatchOption};
ghost use Rattle.std.specs.List.{FoldsTo, position};
ghost use Rattle.std.specs.Io.KnownBytes.{Consumes};
ghost use Rattle.io.specs.Counts.{IsPrefixLen};
ghost use Rattle.texts.specs.Text.{with_bytes};
ghost use Rattle.texts.specs.blocks.Lines.{FirstEnd, FirstLine, move_to_start, with_room, ended_lines, open_line, last_line, lines_fit, LinesTaken, BlockTaken};

use crate::Output;
use std::io::Read;

// Where the answering of a block begins, and whether the line that is skipped goes on behind the block. Both are always there, so no Option or enum says
// them plainer.
#[derive(Clone, Copy, PartialEq, Eq, Debug)]
pub struct Start {
    pub from: usize,
    pub skipping: bool,
}

// The place of the first LF, if there is one.
fn first_lf(input: &[u8]) -> Option<usize>
    ensures { result ≡ position (λ b. b == 10) input.now }
{
    input.iter().position(|b| *b == b'\n')
}

// The place of the first LF from a place on, or the length where there is none.
#[tactic(auto, using(crate::proofs::blocks::Ends::none_behind))]
pub fn line_end(input: &[u8], from: usize) -> usize
    requires { from ≤ length input.now }
    ensures { FirstEnd input.now from result }
{
    match first_lf(&input[from..]) {
        Some(n) => from + n,
        None => input.len(),
    }
}

// Where the first line begins that is not skipped.
pub fn first_line(input: &[u8], skipping: bool) -> Start
    ensures { FirstLine input.now skipping result }
{
    if skipping {
        let end = line_end(input, 0);
        if end < input.len() {
            return Start {
                from: end + 1,
                skipping: false,
            };
        }
        return Start {
            from: end,
            skipping: true,
        };
    }
    Start {
        from: 0,
        skipping: false,
    }
}

// The first line of the bytes, without its LF, and the bytes behind that, where an LF stands there.
#[tactic(auto, using(crate::proofs::blocks::Cutting::first_ended, crate::proofs::blocks::Cutting::first_open, crate::proofs::blocks::Cutting::none_ended, crate::proofs::blocks::Cutting::all_open))]
fn cut_line(bytes: &[u8]) -> Option<(&[u8], &[u8])>
    ensures ended { MatchOption result (ended_lines bytes.now ≡ []) (λ cut. ended_lines bytes.now ≡ cut.0.now ∷ ended_lines cut.1.now) }
    ensures open { MatchOption result (open_line bytes.now ≡ bytes.now) (λ cut. open_line bytes.now ≡ open_line cut.1.now) }
    ensures shorter { IfSome result (λ cut. length cut.1.now < length bytes.now) }
{
    let end = line_end(bytes, 0);
    if end < bytes.len() {
        return Some((&bytes[..end], &bytes[end + 1..]));
    }
    None
}

// Reads more behind the bytes that are kept, by one read, and hands back how many there are then. A read that fails counts as one of no bytes.
pub fn read_behind<R: Read>(reader: &mut R, input: &mut [u8], kept: usize) -> usize
    ensures kept { IsPrefixLen result input.new × (min kept (length input.old) ≤ result) × (take kept input.new ≡ take kept input.old) }
    ensures at_end { R.remaining reader.old ≡ Some [] → kept ≤ length input.old → result ≡ kept }
    ensures read { Consumes (R.remaining reader.old) (R.remaining reader.new) (drop kept (take result input.new)) }
{
    if kept < input.len() {
        let got = match reader.read(&mut input[kept..]) {
            Ok(count) => count,
            Err(_) => 0,
        };
        return kept + got;
    }
    input.len()
}

// Moves the bytes from `used` to `end` to the start of the input, and hands back how many they are.
#[tactic(auto, using(crate::proofs::blocks::Moving::moved))]
pub fn move_to_start(input: &mut [u8], used: usize, end: usize) -> usize
    requires { end ≤ length input.old }
    ensures { (result ≡ end - used) × (input.new ≡ move_to_start used (end - used) input.old) }
{
    let left = end.saturating_sub(used);
    input.copy_within(end - left..end, 0);
    left
}

// Writes the first `put` bytes, and hands back how many they are. There are never more than fit, whatever the number says.
pub fn write_bytes(out: &[u8], put: usize) -> usize
    ensures { result ≡ min put (length out.now) }
{
    let n = put.min(out.len());
    io::write_all(1, &out[..n]);
    n
}

// Writes the first `put` bytes where there is no room behind them for the longest answer, and hands back how many of them are still to be written.
pub fn bytes_with_room(out: &[u8], put: usize) -> usize
    ensures { result ≡ with_room put }
{
    if put < 32768 {
        return put;
    }
    write_bytes(out, put);
    0
}

// Writes what is put, after which nothing is put, and hands back how many bytes that were.
pub fn write_output(out: &mut Output) -> usize
    ensures count { result ≡ min out.old.at (length out.old.bytes.now) }
    ensures nothing_put { out.new ≡ with_bytes out.old out.old.bytes.now 0 }
{
    let text = out.text();
    let n = write_bytes(text, text.len());
    out.at = 0;
    n
}

// Writes the output where there is no room for the longest answer.
pub fn with_room(out: &mut Output)
    ensures { out.new ≡ with_bytes out.old out.old.bytes.now (with_room out.old.at) }
{
    let put = out.at;
    let left = bytes_with_room(out.text(), put);
    out.at = left;
}

// What a program does with the lines of its input.
pub trait LineTaker {
    // What a line leaves of it, and what the start of one that is too long does.
    ghost takes: { Self → List ℕ → Self → Type 0 };

    ghost takes_too_long: { Self → List ℕ → Self → Type 0 };

    // Whether the lines behind those so far are asked for.
    ghost asks: { Self → Bool };

    // Takes a line, without its LF, and puts the answer to it.
    fn take(&mut self, line: &[u8], out: &mut Output)
        ensures { takes self.old line.now self.new };

    // Takes a line that fills the whole input buffer and has not ended there. The rest of it is skipped.
    fn take_too_long(&mut self, start: &[u8], out: &mut Output)
        ensures { takes_too_long self.old start.now self.new };

    fn goes_on(&self) -> bool
        ensures { result ≡ asks self.now };
}

// Takes the lines that end in the bytes, in order, writes the answers, and hands back how many bytes of a line that has not ended stand behind them.
// A `while let` and no `for` over an iterator of lines: what is left when no line ends is what is handed back.
pub fn take_lines<L: LineTaker>(taker: &mut L, bytes: &[u8], out: &mut Output) -> usize
    ensures taken { FoldsTo L.takes taker.old (ended_lines bytes.now) taker.new }
    ensures left { result ≡ length (open_line bytes.now) }
    ensures within { result ≤ length bytes.now }
{
    let mut rest = bytes;
    while let Some((line, behind)) = cut_line(rest) {
        with_room(out);
        taker.take(line, out);
        rest = behind;
    }
    write_output(out);
    rest.len()
}

// Between two blocks: how many bytes of a line that has not ended stand at the start of the input buffer, and whether the rest of a line that is
// too long is being skipped. Both are always there, as in `Start`.
#[derive(Clone, Copy)]
struct Between {
    kept: usize,
    skipping: bool,
}

// Takes the last line, which no LF ends, where there is one.
fn take_last<L: LineTaker>(taker: &mut L, line: &[u8], out: &mut Output)
    ensures { FoldsTo L.takes taker.old (last_line line.now) taker.new }
{
    if !line.is_empty() {
        taker.take(line, out);
        write_output(out);
    }
}

// Reads one block and takes its lines, and says whether the input may go on.
fn take_block<R: Read, L: LineTaker>(
    reader: &mut R,
    input: &mut [u8],
    between: &mut Between,
    taker: &mut L,
    out: &mut Output,
) -> bool
    ensures at_end { R.remaining reader.old ≡ Some [] → between.old.kept ≡ 0 → (result ≡ false) × (taker.new ≡ taker.old) }
    ensures block { (got : List ℕ) × Consumes (R.remaining reader.old) (R.remaining reader.new) got
        × BlockTaken L.takes L.asks got input.old between.old taker.old input.new between.new taker.new result }
{
    let end = read_behind(reader, input, between.kept);
    if end <= between.kept {
        take_last(taker, &input[..end], out);
        return false;
    }
    let start = first_line(&input[..end], between.skipping);
    let left = take_lines(taker, &input[start.from..end], out);
    between.kept = move_to_start(input, end - left, end);
    between.skipping = start.skipping;
    if between.kept >= input.len() {
        taker.take_too_long(input, out);
        write_output(out);
        between.kept = 0;
        between.skipping = true;
    }
    taker.goes_on()
}

// Takes the lines of an input, each once and in order, to its end or as long as the taker asks for more. The promise is of the bytes that were read, where
// each of their lines is shorter than the input buffer; an input with no byte has no line. A `for` with a bound and no `loop`: a program must be
// proved to end, and nothing bounds an input; more blocks than a `u64` counts are never read.
pub fn take_input<R: Read, L: LineTaker>(
    reader: &mut R,
    input: &mut [u8],
    taker: &mut L,
    out: &mut Output,
)
    ensures at_end { R.remaining reader.old ≡ Some [] → taker.new ≡ taker.old }
    ensures lines { (bytes : List ℕ) × Consumes (R.remaining reader.old) (R.remaining reader.new) bytes
        × (lines_fit (length input.old) [] bytes ≡ true → LinesTaken L.takes L.asks taker.old bytes taker.new) }
{
    let mut between = Between {
        kept: 0,
        skipping: false,
    };
    for _ in 0..u64::MAX {
        if !take_block(reader, input, &mut between, taker, out) {
            break;
        }
    }
}
