// Lines that begin a register of group settings or ask for the figures of its report (docs/PLANNING.md), and what is written of it. No `Display`, as
// `texts` says.
#![tactic(auto)]

pub mod entries;

ghost use Rattle.std.specs.Prelude.{◌≡◌};
ghost use Rattle.texts.specs.Text.{put};
ghost use Rattle.register_lines.specs.Answers.{first_register, begun_text, figures_answer, no_figures, group_figures_answer, after_question, register_answer};

use group_register::{GroupRegister, RegisterSettings};
use register::{Register, live_places};
use texts::Output;

// What a line asks of the register: a new one with a slot of whole MHz, or the figures of its report.
#[derive(Clone, Copy)]
pub enum RegisterQuestion {
    Begin(u64),
    ReportLine,
}

// ---- what is written of a register

// Before any line.
pub fn first_register() -> GroupRegister
    ensures { result ≡ first_register }
{
    GroupRegister::new(RegisterSettings::from_slot(message::LARGEST_SLOT))
}

// Of a register that is begun, with LF: it is made, or its settings give their number.
#[tactic(auto, unfolding(crate::specs::Answers::begun_text))]
pub fn put_begun(out: &mut Output<'_>, settings: RegisterSettings)
    ensures { out.new ≡ put (begun_text settings) out.old }
{
    if settings.is_made() {
        out.put_bytes(b"made\n");
    } else {
        texts::fields::put_line(out, b"refused", settings.refusal());
    }
}

// The report's second line, with LF.
#[tactic(auto, using(texts::proofs::Putting::put_then), unfolding(crate::specs::Answers::figures_answer))]
fn put_figures_answer(out: &mut Output<'_>, register: &Register)
    ensures { out.new ≡ put (figures_answer register.now) out.old }
{
    let live = live_places(register.live_count) as u64;
    register::report::put_figures(out, register.figures, live);
    out.put_byte(b'\n');
}

// In place of the figures, with LF.
#[tactic(auto, using(texts::proofs::Putting::put_append), unfolding(crate::specs::Answers::no_figures, texts::specs::Text::put))]
fn put_no_figures(out: &mut Output<'_>, number: u64)
    ensures { out.new ≡ put (no_figures number) out.old }
{
    out.put_bytes(b"refused,");
    out.put_number(number);
    out.put_byte(b'\n');
}

// The figures, or the one line of the report of a register that is not made.
#[tactic(auto, unfolding(crate::specs::Answers::group_figures_answer))]
fn put_group_figures(out: &mut Output<'_>, group: &GroupRegister)
    ensures { out.new ≡ put (group_figures_answer group.now) out.old }
{
    if group.settings.is_made() {
        put_figures_answer(out, &group.register);
    } else {
        put_no_figures(out, group.settings.refusal());
    }
}

// The answer to a question, with its LF; the register is the one that the question leaves.
#[tactic(auto, unfolding(crate::specs::Answers::after_question, crate::specs::Answers::register_answer))]
pub fn answer_question(group: &mut GroupRegister, question: RegisterQuestion, out: &mut Output<'_>)
    ensures group { group.new ≡ after_question group.old question }
    ensures put { out.new ≡ put (register_answer question (after_question group.old question)) out.old }
{
    match question {
        RegisterQuestion::Begin(slot) => {
            *group = GroupRegister::new(RegisterSettings::from_slot(slot));
            put_begun(out, group.settings);
        }
        RegisterQuestion::ReportLine => put_group_figures(out, group),
    }
}
