// The fields of a line, which single blanks separate, and lines that have a word and a number (docs/PLANNING.md). Numbers are read by `call_lines` and
// written by `texts`. A line and a place in it are two parameters, and no slice from the place on: the place may be past the line, where every field is
// empty, and whether the last field ends the line is asked by its place.
#![tactic(auto)]

ghost use Rattle.std.specs.Prelude.{◌≡◌, drop};
ghost use Rattle.io.specs.Counts.{IsPrefixLen};
ghost use Rattle.texts.specs.Text.{put};
ghost use Rattle.texts.specs.fields.Fields.{begins, is_line, one_number, number_from, field_end, next_field, number_field, line_text};

use crate::Output;
use call_lines::Scan;

// The number that a field holds, if it does, and where the field ends: at a blank, or with the line.
#[derive(Clone, Copy, PartialEq, Eq, Debug)]
pub struct NumberField {
    pub number: Option<u64>,
    pub end: usize,
}

#[tactic(auto, using(crate::proofs::fields::Words::starts))]
pub fn begins(line: &[u8], word: &[u8]) -> bool
    ensures { result ≡ begins word.now line.now }
{
    line.starts_with(word)
}

// Whether a line is this word and nothing else.
#[tactic(auto, unfolding(crate::specs::fields::Fields::is_line))]
pub fn is_line(line: &[u8], word: &[u8]) -> bool
    ensures { result ≡ is_line word.now line.now }
{
    line.len() == word.len() && begins(line, word)
}

// Whether the bytes of a line from a place on begin with a word.
#[tactic(auto, using(crate::proofs::fields::Places::from_place))]
pub fn begins_at(line: &[u8], at: usize, word: &[u8]) -> bool
    ensures { result ≡ begins word.now (drop at line.now) }
{
    begins(&line[at.min(line.len())..], word)
}

// The number of a field that is read to its end: one, without a fault.
#[tactic(auto, unfolding(crate::specs::fields::Fields::one_number))]
fn one_number(scan: Scan) -> Option<u64>
    ensures { result ≡ one_number scan }
{
    if scan.malformed || scan.above_limit || scan.before > 0 || !scan.has_digit {
        return None;
    }
    Some(scan.value)
}

// The number that a line holds from a place to its end.
#[tactic(auto, using(crate::proofs::fields::Places::ends_at_end), unfolding(crate::specs::fields::Fields::number_from, crate::specs::fields::Fields::one_number, call_lines::specs::Reading::scan_to, call_lines::specs::Reading::scan_start))]
pub fn number_from(line: &[u8], at: usize) -> Option<u64>
    ensures { result ≡ number_from line.now at }
{
    if line.len() < at {
        return None;
    }
    let mut place = [0u64; 1];
    one_number(call_lines::read_numbers(&line[at..], &mut place))
}

// Where the field from a place on ends: the first blank from there on, or the length where there is none. A `for` and no `position`: the place may be
// past the line, so that a slice from there would need it cut to the length first.
#[tactic(auto, using(crate::proofs::fields::Places::at_blank, crate::proofs::fields::Places::past_byte, crate::proofs::fields::Places::at_the_end))]
fn field_end(line: &[u8], at: usize) -> usize
    ensures value { result ≡ field_end line.now at }
    ensures prefix_len { IsPrefixLen result line.now }
{
    for i in at..line.len() {
        if line[i] == b' ' {
            return i;
        }
    }
    line.len()
}

// Where the field behind one that ends there begins. A line that ends there has none: the field is then empty, and holds nothing.
#[tactic(auto, unfolding(crate::specs::fields::Fields::next_field))]
pub fn next_field(line: &[u8], end: usize) -> usize
    ensures { result ≡ next_field line.now end }
{
    end.saturating_add(1).min(line.len())
}

// The field from a place on, as a number.
#[tactic(auto, using(crate::proofs::fields::Places::field_bytes), unfolding(crate::specs::fields::Fields::number_from, crate::specs::fields::Fields::number_field))]
pub fn number_field(line: &[u8], at: usize) -> NumberField
    ensures { result ≡ number_field line.now at }
{
    let end = field_end(line, at);
    let number = number_from(&line[..end], at);
    NumberField { number, end }
}

// A word, a number and LF.
#[tactic(auto, using(crate::proofs::Putting::put_then), unfolding(crate::specs::fields::Fields::line_text))]
pub fn put_line(out: &mut Output, word: &[u8], n: u64)
    ensures { out.new ≡ put (line_text word.now n) out.old }
{
    out.put_bytes(word);
    out.put_field(n);
    out.put_byte(b'\n');
}
