// The report of a register of cells, as CSV (RFC 4180; document 02, E6).
#![tactic(auto)]

ghost use Rattle.std.specs.Prelude.{◌≡◌};
ghost use Rattle.texts.specs.Text.{put};
ghost use Rattle.register.specs.report.Report.{figure_text, figures_text, report_text, refusal_text, page_holding, page_with, register_page};

use crate::{Figures, Register, live_places};
use texts::Output;

// The text of a report at the start of bytes, zeros after it, and the length of the text. A header of 31 bytes and a line of at most 85
// are 116 bytes, so there is room enough. Bytes and length stay two fields: the C interface lends so many bytes and gets the length, and has no heap.
#[derive(Clone, Copy)]
pub struct ReportPage {
    pub bytes: [u8; 116],
    pub len: usize,
}

// Puts the number n, and then the byte end.
#[tactic(auto, using(texts::proofs::Putting::put_then), unfolding(crate::specs::report::Report::figure_text))]
fn put_figure(out: &mut Output<'_>, n: u64, end: u8)
    ensures { out.new ≡ put (figure_text n end) out.old }
{
    out.put_number(n);
    out.put_byte(end);
}

// The four figures, with commas between them. The live cells are a parameter and no field of Figures: a register has a count of them, which may be any
// number, and how many live is computed of it (`live_places`), so that a field would say what the count says.
#[tactic(auto, using(texts::proofs::Putting::put_then), unfolding(crate::specs::report::Report::figures_text))]
pub fn put_figures(out: &mut Output<'_>, figures: Figures, live: u64)
    ensures { out.new ≡ put (figures_text figures live) out.old }
{
    put_figure(out, figures.made, b',');
    put_figure(out, figures.superseded, b',');
    put_figure(out, figures.released, b',');
    out.put_number(live);
}

#[tactic(auto, using(texts::proofs::Putting::put_append), unfolding(crate::specs::report::Report::report_header, crate::specs::report::Report::report_text, texts::specs::Text::put))]
fn put_report(out: &mut Output<'_>, figures: Figures, live: u64)
    ensures { out.new ≡ put (report_text figures live) out.old }
{
    out.put_bytes(b"made,superseded,released,live\r\n");
    put_figures(out, figures, live);
    out.put_bytes(b"\r\n");
}

// The report with these figures and as many live cells as are said.
pub fn page_with(figures: Figures, live: u64) -> ReportPage
    ensures { result ≡ page_with figures live }
{
    let mut bytes = [0u8; 116];
    let mut out = Output::new(&mut bytes);
    put_report(&mut out, figures, live);
    let len = out.at;
    ReportPage { bytes, len }
}

pub fn report(register: Register) -> ReportPage
    ensures { result ≡ register_page register }
{
    page_with(register.figures, live_places(register.live_count) as u64)
}

#[tactic(auto, using(texts::proofs::Putting::put_append), unfolding(crate::specs::report::Report::refusal_text, texts::specs::Text::put))]
fn put_refusal(out: &mut Output<'_>, number: u64)
    ensures { out.new ≡ put (refusal_text number) out.old }
{
    out.put_bytes(b"refused,");
    out.put_number(number);
    out.put_bytes(b"\r\n")
}

// The page in place of a report: the one line `refused,1`, as the quorum sheet's, of what is no list of entries; or, of a register that is not made, the
// line with its number.
pub fn refusal_page(number: u64) -> ReportPage
    ensures { result ≡ page_holding (refusal_text number) }
{
    let mut bytes = [0u8; 116];
    let mut out = Output::new(&mut bytes);
    put_refusal(&mut out, number);
    let len = out.at;
    ReportPage { bytes, len }
}
