// The lines of `planning` about dates and change windows (docs/PLANNING.md; document 02, E8). They stand beside the lines about a register: what is kept
// from line to line is the windows alone. No `Display`, as `texts` says.
#![tactic(auto)]

ghost use Rattle.std.specs.Prelude.{◌≡◌};
ghost use Rattle.texts.specs.Text.{put};
ghost use Rattle.planning_lines.specs.change_windows.Lines.{is_date_line, date_question, minute_question, ask_question, is_question, window_question_of, blanks_in, is_windows_count_line, windows_line, is_window_line};
ghost use Rattle.planning_lines.specs.change_windows.Answers.{first_windows, date_text, date_answer, minute_answer, window_answer_text, window_asked, question_text, windows_made_text, after_windows, windows_text, after_window_line, window_line_answer};

use basics::refusals::Refused;
use calendar::{Date, NotInCalendar};
use call_lines::Scan;
use texts::Output;
use windows::{KeptWindows, WindowAnswer, WindowRefusal, Windows};

// What a line asks of dates and windows, and changes nothing. A bad line is one of the cases, and no None: it has an answer of its own, and no value is
// missing.
#[derive(Clone, Copy)]
pub enum WindowQuestion {
    MinuteOf(Date),
    DateOf(u64),
    AskAt(u64),
    BadLine,
}

// ---- the questions

#[tactic(auto, unfolding(crate::specs::change_windows::Lines::is_date_line))]
fn is_date_line(scan: Scan) -> bool
    ensures { result ≡ is_date_line scan }
{
    crate::stored::is_read(scan) && scan.before == 4
}

// What the bytes of a line behind `minute` and a blank ask.
#[tactic(auto, unfolding(crate::specs::change_windows::Lines::date_question))]
fn date_question(bytes: &[u8]) -> WindowQuestion
    ensures { result ≡ date_question bytes.now }
{
    let mut numbers = [0u64; 5];
    let scan = call_lines::read_numbers(bytes, &mut numbers);
    if is_date_line(scan) {
        return WindowQuestion::MinuteOf(call_lines::dates::date_at(&numbers, 0));
    }
    WindowQuestion::BadLine
}

// Whether a line begins with the word of a question.
#[tactic(auto, unfolding(crate::specs::change_windows::Lines::is_question))]
fn is_question(line: &[u8]) -> bool
    ensures { result ≡ is_question line.now }
{
    texts::fields::begins(line, b"minute ")
        || texts::fields::begins(line, b"date ")
        || texts::fields::begins(line, b"ask ")
}

// What a line asks that begins with one of these words.
#[tactic(auto, using(crate::proofs::stored::Answered::begins_long, crate::proofs::stored::Answered::behind_word), unfolding(crate::specs::change_windows::Lines::window_question_of))]
fn window_question_of(line: &[u8]) -> WindowQuestion
    ensures { result ≡ window_question_of line.now }
{
    if texts::fields::begins(line, b"minute ") {
        return date_question(&line[7..]);
    }
    if texts::fields::begins(line, b"date ") {
        return texts::fields::number_from(line, 5).map_or(
            WindowQuestion::BadLine,
            WindowQuestion::DateOf,
        );
    }
    texts::fields::number_from(line, 4).map_or(WindowQuestion::BadLine, WindowQuestion::AskAt)
}

// ---- what is written

#[tactic(auto, using(texts::proofs::Putting::put_then), unfolding(crate::specs::change_windows::Answers::date_text))]
fn put_date(out: &mut Output<'_>, date: Date)
    ensures { out.new ≡ put (date_text date) out.old }
{
    let numbers = [date.year, date.month, date.day, date.hour, date.minute];
    out.put_fields(b"date", &numbers);
    out.put_byte(b'\n');
}

#[tactic(auto, unfolding(crate::specs::change_windows::Answers::date_answer))]
fn put_date_answer(out: &mut Output<'_>, answer: Option<Date>)
    ensures { out.new ≡ put (date_answer answer) out.old }
{
    match answer {
        Some(date) => put_date(out, date),
        None => texts::fields::put_line(out, b"refused", NotInCalendar.number()),
    }
}

#[tactic(auto, unfolding(crate::specs::change_windows::Answers::minute_answer))]
fn put_minute_answer(out: &mut Output<'_>, answer: Option<u64>)
    ensures { out.new ≡ put (minute_answer answer) out.old }
{
    match answer {
        Some(minute) => texts::fields::put_line(out, b"minute", minute),
        None => texts::fields::put_line(out, b"refused", NotInCalendar.number()),
    }
}

#[tactic(auto, unfolding(crate::specs::change_windows::Answers::window_answer_text))]
fn put_window_answer(out: &mut Output<'_>, answer: Result<WindowAnswer, WindowRefusal>)
    ensures { out.new ≡ put (window_answer_text answer) out.old }
{
    match answer {
        Ok(WindowAnswer::Inside) => out.put_bytes(b"inside\n"),
        Ok(WindowAnswer::Next(minute)) => texts::fields::put_line(out, b"next", minute),
        Ok(WindowAnswer::NoneFollows) => out.put_bytes(b"none\n"),
        Err(why) => texts::fields::put_line(out, b"refused", why.number()),
    }
}

// A minute asked of the windows, where they are made.
#[tactic(auto, unfolding(crate::specs::change_windows::Answers::window_asked))]
fn ask(
    windows: &Result<KeptWindows, WindowRefusal>,
    minute: u64,
) -> Result<WindowAnswer, WindowRefusal>
    ensures { result ≡ window_asked windows.now minute }
{
    match windows {
        Ok(kept) => kept.ask(minute),
        Err(why) => Err(*why),
    }
}

#[tactic(auto, unfolding(crate::specs::change_windows::Answers::question_text))]
fn put_question(
    out: &mut Output<'_>,
    windows: &Result<KeptWindows, WindowRefusal>,
    question: WindowQuestion,
)
    ensures { out.new ≡ put (question_text windows.now question) out.old }
{
    match question {
        WindowQuestion::MinuteOf(date) => put_minute_answer(out, date.to_minute()),
        WindowQuestion::DateOf(minute) => put_date_answer(out, calendar::to_date(minute)),
        WindowQuestion::AskAt(minute) => put_window_answer(out, ask(windows, minute)),
        WindowQuestion::BadLine => crate::put_bad_line(out),
    }
}

// ---- the line that begins windows

// How many blanks stand among the bytes.
fn blanks_in(bytes: &[u8]) -> usize
    ensures { result ≡ blanks_in bytes.now }
{
    bytes.iter().filter(|b| **b == b' ').count()
}

// Whether the bytes are a count and ten numbers for each window, however many those are: numbers with single blanks between them have one blank fewer.
#[tactic(auto, using(crate::proofs::change_windows::Turns::ten_each), unfolding(crate::specs::change_windows::Lines::is_windows_count_line))]
fn is_windows_count_line(scan: Scan, blanks: usize, count: u64) -> bool
    ensures { result ≡ is_windows_count_line scan blanks count }
{
    crate::stored::is_read(scan) && blanks % 10 == 0 && (blanks / 10) as u64 == count
}

// The windows that the bytes of a line behind `windows` and a blank begin, where they are such numbers. Of more than 128 windows the first are read.
#[tactic(auto, unfolding(crate::specs::change_windows::Lines::windows_line))]
fn windows_line(bytes: &[u8]) -> Option<Windows>
    ensures { result ≡ windows_line bytes.now }
{
    let mut numbers = [0u64; 1281];
    let scan = call_lines::read_numbers(bytes, &mut numbers);
    if is_windows_count_line(scan, blanks_in(bytes), numbers[0]) {
        return Some(call_lines::dates::counted_windows_at(&numbers, 0));
    }
    None
}

// `made`, or the number that refuses the windows.
#[tactic(auto, unfolding(crate::specs::change_windows::Answers::windows_made_text))]
fn put_made(out: &mut Output<'_>, kept: &Result<KeptWindows, WindowRefusal>)
    ensures { out.new ≡ put (windows_made_text kept.now) out.old }
{
    match kept {
        Ok(_) => out.put_bytes(b"made\n"),
        Err(why) => texts::fields::put_line(out, b"refused", why.number()),
    }
}

// A line that is one begins its windows, also where they are refused; any other is a bad line, and the windows stay.
#[tactic(auto, unfolding(crate::specs::change_windows::Answers::after_windows, crate::specs::change_windows::Answers::windows_text))]
fn answer_windows(
    windows: &mut Result<KeptWindows, WindowRefusal>,
    bytes: &[u8],
    out: &mut Output<'_>,
)
    ensures windows { windows.new ≡ after_windows windows.old (windows_line bytes.now) }
    ensures put { out.new ≡ put (windows_text (windows_line bytes.now)) out.old }
{
    match windows_line(bytes) {
        Some(given) => {
            *windows = given.kept();
            put_made(out, windows);
        }
        None => crate::put_bad_line(out),
    }
}

// ---- every line about dates and windows

// Before any line: no windows.
pub fn first_windows() -> Result<KeptWindows, WindowRefusal>
    ensures { result ≡ first_windows }
{
    Ok(KeptWindows::none())
}

// Whether a line begins with the word of one of these lines.
#[tactic(auto, unfolding(crate::specs::change_windows::Lines::is_window_line))]
pub fn is_window_line(line: &[u8]) -> bool
    ensures { result ≡ is_window_line line.now }
{
    texts::fields::begins(line, b"windows ") || is_question(line)
}

// The answer to such a line, and the windows behind it.
#[tactic(auto, using(crate::proofs::stored::Answered::begins_long, crate::proofs::stored::Answered::behind_word), unfolding(crate::specs::change_windows::Answers::after_window_line, crate::specs::change_windows::Answers::window_line_answer))]
pub fn answer_line(
    windows: &mut Result<KeptWindows, WindowRefusal>,
    line: &[u8],
    out: &mut Output<'_>,
)
    ensures windows { windows.new ≡ after_window_line windows.old line.now }
    ensures put { out.new ≡ put (window_line_answer windows.old line.now) out.old }
{
    if texts::fields::begins(line, b"windows ") {
        answer_windows(windows, &line[8..], out);
    } else {
        put_question(out, windows, window_question_of(line));
    }
}
