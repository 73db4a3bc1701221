// The quorum sheet: the quorums for 1 up to a number of replicas, as CSV (RFC 4180).
#![tactic(auto)]

pub mod count;

ghost use Rattle.std.specs.Prelude.{◌≡◌, ◌++◌, ◌+◌, ◌≤◌, ◌<◌};
ghost use Rattle.arrayvec.specs.ArrayString.{array_string_len};
ghost use Rattle.sheet.specs.Text.{number_and_byte};
ghost use Rattle.sheet.specs.Sheet.{sheet_line, sheet_of};
ghost use Rattle.sheet.specs.Answer.{refused_line, sheet_answer};

use arrayvec::ArrayString;
use itoa::Buffer;

// An answer's text. A header of 31 bytes and 64 lines of at most 13 are 863 bytes, so there is room enough.
pub type Page = ArrayString<863>;

// Adds the number n, below 100, in decimal, and then the character end.
#[tactic(auto, using(crate::proofs::Printed::decimal_text, crate::proofs::Printed::text_length, std::proofs::lemmas::Grind::common_steps), unfolding(crate::specs::Text::number_and_byte))]
fn put_field(page: &mut Page, n: u64, end: char)
    requires room { array_string_len page.old + 3 ≤ 863 }
    requires small { n < 100 }
    requires ascii { end < 128 }
    ensures text { page.new.bytes ≡ page.old.bytes ++ number_and_byte n end }
    ensures short { array_string_len page.new ≤ array_string_len page.old + 3 }
{
    page.push_str(Buffer::new().format(n));
    page.push(end);
}

// Adds the line for n replicas.
#[tactic(auto, unfolding(crate::specs::Sheet::sheet_line))]
fn put_line(page: &mut Page, n: u64)
    requires room { array_string_len page.old + 13 ≤ 863 }
    requires small { n ≤ 64 }
    ensures text { page.new.bytes ≡ page.old.bytes ++ sheet_line n }
    ensures short { array_string_len page.new ≤ array_string_len page.old + 13 }
{
    let row = quorum::row_of(n);
    put_field(page, n, ',');
    put_field(page, row.majority, ',');
    put_field(page, row.epaxos, ',');
    put_field(page, row.fast, '\r');
    page.push('\n');
}

// The header, and a line for each count from 1 to n.
#[tactic(auto, unfolding(crate::specs::Sheet::sheet_of, crate::specs::Sheet::sheet_lines, crate::specs::Sheet::header))]
fn sheet_of(n: u64) -> Page
    requires { n ≤ 64 }
    ensures { result.bytes ≡ sheet_of n }
{
    let mut page = Page::new();
    page.push_str("replicas,majority,epaxos,fast\r\n");
    for count in 1..=n {
        put_line(&mut page, count);
    }
    page
}

#[tactic(auto, unfolding(crate::specs::Answer::refused_line))]
fn refused_line() -> Page
    ensures { result.bytes ≡ refused_line }
{
    let mut page = Page::new();
    page.push_str("refused,1\r\n");
    page
}

// What the program writes for the input: the sheet for the count on its first line, or the refusal.
#[tactic(auto, using(crate::proofs::count::Counting::count_range), unfolding(crate::specs::Answer::sheet_answer, crate::specs::Answer::answer_for))]
pub fn sheet_answer(input: &[u8]) -> Page
    ensures { result.bytes ≡ sheet_answer input.now }
{
    match crate::count::count_asked(input) {
        Some(count) => sheet_of(count),
        None => refused_line(),
    }
}
