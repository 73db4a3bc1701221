// A line of `planning`, from its bytes to what it asks, and the answer as bytes (docs/PLANNING.md). No `Display`, as `texts` says.
#![tactic(auto)]

pub mod change_windows;
pub mod lists;
pub mod placed;
pub mod stored;

ghost use Rattle.std.specs.Prelude.{◌≡◌};
ghost use Rattle.texts.specs.Text.{put};
ghost use Rattle.planning_lines.specs.Questions.{begin_question, register_line_question, plain_question_of};
ghost use Rattle.raster.specs.Raster.{raster_refusal, raster_value};
ghost use Rattle.planning_lines.specs.Answers.{value_text, bad_line_text, after_line, plain_answer_text};

use basics::refusals::Refused;
use group_register::GroupRegister;
use raster::NotOnRaster;
use register_lines::RegisterQuestion;
use texts::Output;

// What a line asks. A bad line is one of the cases, and no None: it has an answer of its own, and no value is missing.
#[derive(Clone, Copy)]
pub enum PlainQuestion {
    FrequencyOf(u64),
    CarrierOf(u64),
    OfRegister(RegisterQuestion),
    BadLine,
}

fn begin_question(slot: Option<u64>) -> PlainQuestion
    ensures { result ≡ begin_question slot }
{
    match slot {
        Some(from) => PlainQuestion::OfRegister(RegisterQuestion::Begin(from)),
        None => PlainQuestion::BadLine,
    }
}

#[tactic(auto, unfolding(crate::specs::Questions::register_line_question))]
fn register_line_question(line: &[u8]) -> PlainQuestion
    ensures { result ≡ register_line_question line.now }
{
    if texts::fields::is_line(line, b"register") {
        return begin_question(Some(message::LARGEST_SLOT));
    }
    if texts::fields::begins(line, b"register ") {
        return begin_question(texts::fields::number_from(line, 9));
    }
    if texts::fields::is_line(line, b"report") {
        return PlainQuestion::OfRegister(RegisterQuestion::ReportLine);
    }
    PlainQuestion::BadLine
}

// What a line asks, without its LF.
#[tactic(auto, unfolding(crate::specs::Questions::plain_question_of))]
pub fn plain_question_of(line: &[u8]) -> PlainQuestion
    ensures { result ≡ plain_question_of line.now }
{
    if texts::fields::begins(line, b"number ") {
        return texts::fields::number_from(line, 7).map_or(
            PlainQuestion::BadLine,
            PlainQuestion::FrequencyOf,
        );
    }
    if texts::fields::begins(line, b"khz ") {
        return texts::fields::number_from(line, 4).map_or(
            PlainQuestion::BadLine,
            PlainQuestion::CarrierOf,
        );
    }
    register_line_question(line)
}

// A value behind its word, or the number of a refusal.
#[tactic(auto, unfolding(crate::specs::Answers::value_text))]
fn put_value(out: &mut Output<'_>, word: &[u8], answer: Option<u64>)
    ensures { out.new ≡ put (value_text word.now (raster_refusal answer) (raster_value answer)) out.old }
{
    match answer {
        Some(value) => texts::fields::put_line(out, word, value),
        None => texts::fields::put_line(out, b"refused", NotOnRaster.number()),
    }
}

#[tactic(auto, unfolding(crate::specs::Answers::bad_line_text))]
pub fn put_bad_line(out: &mut Output<'_>)
    ensures { out.new ≡ put bad_line_text out.old }
{
    out.put_bytes(b"bad line\n");
}

// The answer to a line; the register is the one that the line leaves.
#[tactic(auto, unfolding(crate::specs::Answers::after_line, crate::specs::Answers::plain_answer_text))]
pub fn answer_line(group: &mut GroupRegister, line: &[u8], out: &mut Output<'_>)
    ensures group { group.new ≡ after_line group.old (plain_question_of line.now) }
    ensures put { out.new ≡ put (plain_answer_text (plain_question_of line.now) (after_line group.old (plain_question_of line.now))) out.old }
{
    match plain_question_of(line) {
        PlainQuestion::FrequencyOf(n) => put_value(out, b"khz", raster::frequency_of(n)),
        PlainQuestion::CarrierOf(f) => put_value(out, b"number", raster::number_of(f)),
        PlainQuestion::OfRegister(asked) => register_lines::answer_question(group, asked, out),
        PlainQuestion::BadLine => put_bad_line(out),
    }
}
