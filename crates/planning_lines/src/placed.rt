// The lines of `planning` about cells with positions (document 02, E11; docs/PLANNING.md): `entry`, `conflicts`, `free`, and `cells`. Every other line is
// answered as before (planning_lines::stored), and the cells of a register that one of them begins have no positions.
#![tactic(auto)]

ghost use Rattle.std.specs.Prelude.{◌≡◌, List, ℕ};
ghost use Rattle.texts.specs.Text.{put, field, each};
ghost use Rattle.planning_lines.specs.placed.Answers.{position_text, cell_text, cells_text, made_cells_text, position_outcome_text, list_text, carrier_text, begins_register, after_other, placed_after_line, placed_line_answer};
ghost use Rattle.planning_lines.specs.stored.Answers.{begins_stored, line_answer};
ghost use Rattle.positions.specs.Placed.{apply_entry};
ghost use Rattle.register_lines.specs.entries.Signed.{signed_text};
ghost use Rattle.planning_lines.specs.placed.Asked.{place_question, question_at, conflicts_asked, free_of, position_line_of};

use basics::refusals::Refused;
use positions::{PlacedEntry, PlacedRegister, Position, PositionRefusal};
use reach::{PlacedCell, PlacedCells, Question, ReachRefusal};
use register::Entered;
use register_arrays::CellsArray;
use register_lines::RegisterQuestion;
use texts::Output;

// What a line asks or tells.
#[derive(Clone, Copy)]
pub enum PositionLine {
    Enter(PlacedEntry),
    Conflicts(u64, Question),
    Free(u64, u64, Question),
    CellList,
    Other,
}

// ---- questions

#[tactic(auto, unfolding(crate::specs::placed::Asked::place_question))]
fn place_question(
    width: Option<u64>,
    x: Option<i64>,
    y: Option<i64>,
    distance: Option<u64>,
) -> Option<Question>
    ensures { result ≡ place_question width x y distance }
{
    Some(Question {
        width: width?,
        position: Position { x: x?, y: y? },
        distance: distance?,
    })
}

// `WIDTH X Y DISTANCE`, from a place of a line to its end.
#[tactic(auto, unfolding(crate::specs::placed::Asked::question_at))]
fn question_at(line: &[u8], at: usize) -> Option<Question>
    ensures { result ≡ question_at line.now at }
{
    let width = texts::fields::number_field(line, at);
    let x = register_lines::entries::signed_field(line, texts::fields::next_field(line, width.end));
    let y = register_lines::entries::signed_field(line, texts::fields::next_field(line, x.end));
    let distance = texts::fields::number_field(line, texts::fields::next_field(line, y.end));
    if distance.end != line.len() {
        return None;
    }
    place_question(width.number, x.number, y.number, distance.number)
}

// `conflicts CARRIER` and a question
#[tactic(auto, unfolding(crate::specs::placed::Asked::conflicts_asked))]
fn conflicts_asked(line: &[u8]) -> Option<PositionLine>
    ensures { result ≡ conflicts_asked line.now }
{
    let carrier = texts::fields::number_field(line, 10);
    let question = question_at(line, texts::fields::next_field(line, carrier.end))?;
    Some(PositionLine::Conflicts(carrier.number?, question))
}

// `free FIRST LAST` and a question
#[tactic(auto, unfolding(crate::specs::placed::Asked::free_of))]
fn free_of(line: &[u8]) -> Option<PositionLine>
    ensures { result ≡ free_of line.now }
{
    let first = texts::fields::number_field(line, 5);
    let last = texts::fields::number_field(line, texts::fields::next_field(line, first.end));
    let question = question_at(line, texts::fields::next_field(line, last.end))?;
    Some(PositionLine::Free(first.number?, last.number?, question))
}

// What a line asks of cells with positions; any other line is one about a register or a raster number, or a bad one.
#[tactic(auto, unfolding(crate::specs::placed::Asked::position_line_of))]
pub fn position_line_of(line: &[u8]) -> PositionLine
    ensures { result ≡ position_line_of line.now }
{
    if texts::fields::is_line(line, b"cells") {
        return PositionLine::CellList;
    }
    if texts::fields::begins(line, b"conflicts ") {
        return conflicts_asked(line).unwrap_or(PositionLine::Other);
    }
    if texts::fields::begins(line, b"free ") {
        return free_of(line).unwrap_or(PositionLine::Other);
    }
    match register_lines::entries::entry_in_line(line) {
        Some(entry) => PositionLine::Enter(entry),
        None => PositionLine::Other,
    }
}

// ---- what is written

#[tactic(auto, using(texts::proofs::Putting::put_then), unfolding(crate::specs::placed::Answers::position_text))]
fn put_position(out: &mut Output<'_>, position: Option<Position>)
    ensures { out.new ≡ put (position_text position) out.old }
{
    match position {
        None => out.put_bytes(b" - -"),
        Some(place) => {
            register_lines::entries::put_signed(out, place.x);
            register_lines::entries::put_signed(out, place.y);
        }
    }
}

// A live cell, behind what stands before it.
#[tactic(auto, using(texts::proofs::Putting::put_append), unfolding(crate::specs::placed::Answers::cell_text, texts::specs::Text::put))]
fn put_cell(out: &mut Output<'_>, cell: PlacedCell)
    ensures { out.new ≡ put (cell_text cell) out.old }
{
    out.put_bytes(b"; ");
    out.put_number(cell.number);
    out.put_field(cell.assignment.carrier);
    out.put_field(cell.assignment.width);
    put_position(out, cell.position);
}

// The number of live cells and each of them, with LF.
#[tactic(auto, using(texts::proofs::Putting::put_then, texts::proofs::Putting::reached_next, texts::proofs::Putting::reached_all), unfolding(crate::specs::placed::Answers::cells_text))]
fn put_cells(out: &mut Output<'_>, placed: &PlacedRegister)
    ensures { out.new ≡ put (cells_text placed.now) out.old }
{
    let live = placed.live();
    out.put_number(live as u64);
    for i in 0..live {
        put_cell(out, placed.cell(i));
    }
    out.put_byte(b'\n');
}

// The cells, or the number of a register that is not made.
#[tactic(auto, unfolding(crate::specs::placed::Answers::made_cells_text))]
fn put_made_cells(out: &mut Output<'_>, placed: &PlacedRegister)
    ensures { out.new ≡ put (made_cells_text placed.now) out.old }
{
    if placed.group.settings.is_made() {
        put_cells(out, placed);
    } else {
        texts::fields::put_line(out, b"refused", placed.group.settings.refusal());
    }
}

// What became of an entry, with LF.
#[tactic(auto, unfolding(crate::specs::placed::Answers::position_outcome_text))]
fn put_position_outcome_text(out: &mut Output<'_>, outcome: Result<Entered, PositionRefusal>)
    ensures { out.new ≡ put (position_outcome_text outcome) out.old }
{
    match outcome {
        Ok(Entered::Done) => out.put_bytes(b"done\n"),
        Ok(Entered::Older) => out.put_bytes(b"old\n"),
        Err(why) => texts::fields::put_line(out, b"refused", why.number()),
    }
}

// Numbers behind blanks.
#[tactic(auto, using(texts::proofs::Putting::reached_next, texts::proofs::Putting::reached_all))]
fn put_numbers(out: &mut Output<'_>, numbers: &[u64])
    ensures { out.new ≡ put (each field numbers.now) out.old }
{
    for n in numbers {
        out.put_field(*n);
    }
}

// The count and the cells' numbers, with LF.
#[tactic(auto, using(texts::proofs::Putting::put_then), unfolding(crate::specs::placed::Answers::list_text))]
fn put_list(out: &mut Output<'_>, answer: Result<usize, ReachRefusal>, numbers: &CellsArray)
    ensures { out.new ≡ put (list_text (answer, numbers.now)) out.old }
{
    match answer {
        Ok(count) => {
            out.put_number(count as u64);
            put_numbers(out, &numbers[..count.min(512)]);
            out.put_byte(b'\n');
        }
        Err(why) => texts::fields::put_line(out, b"refused", why.number()),
    }
}

#[tactic(auto, unfolding(crate::specs::placed::Answers::carrier_text))]
fn put_carrier(out: &mut Output<'_>, answer: Result<u64, ReachRefusal>)
    ensures { out.new ≡ put (carrier_text answer) out.old }
{
    match answer {
        Ok(number) => texts::fields::put_line(out, b"free", number),
        Err(why) => texts::fields::put_line(out, b"refused", why.number()),
    }
}

// ---- a line

// Whether a line begins a register, by what is known of it already: whether it begins one of stored cells.
#[tactic(auto, using(crate::proofs::stored::Answered::begins_long, crate::proofs::stored::Answered::behind_word), unfolding(crate::specs::placed::Answers::begins_register, crate::specs::stored::Answers::begins_stored))]
fn begins_register(line: &[u8], stored: bool) -> bool
    requires { stored ≡ begins_stored line.now }
    ensures { result ≡ begins_register line.now }
{
    if texts::fields::begins(line, b"stored ") {
        return stored;
    }
    if texts::fields::begins(line, b"register") {
        return matches!(
            crate::plain_question_of(line),
            crate::PlainQuestion::OfRegister(RegisterQuestion::Begin(_))
        );
    }
    false
}

// A line of the requests before: the cells of a register that it begins have no positions.
#[tactic(auto, unfolding(crate::specs::placed::Answers::after_other))]
fn answer_other(placed: &mut PlacedRegister, line: &[u8], out: &mut Output<'_>)
    ensures placed { placed.new ≡ after_other placed.old line.now }
    ensures put { out.new ≡ put (line_answer placed.old.group line.now) out.old }
{
    let stored = crate::stored::answer_line(&mut placed.group, line, out);
    if begins_register(line, stored) {
        placed.positions = [None; 512];
    }
}

// An entry, and what became of it.
fn answer_entry(placed: &mut PlacedRegister, entry: PlacedEntry, out: &mut Output<'_>)
    ensures placed { placed.new ≡ (apply_entry placed.old entry).placed }
    ensures put { out.new ≡ put (position_outcome_text (apply_entry placed.old entry).outcome) out.old }
{
    let outcome = positions::apply_in(
        placed.group.settings,
        &mut placed.group.register,
        &mut placed.positions,
        entry,
    );
    put_position_outcome_text(out, outcome);
}

// The answer to a line of `planning`; the register is the one that the line leaves.
#[tactic(auto, unfolding(crate::specs::placed::Answers::placed_after_line, crate::specs::placed::Answers::placed_line_answer))]
pub fn answer_line(placed: &mut PlacedRegister, line: &[u8], out: &mut Output<'_>)
    ensures placed { placed.new ≡ placed_after_line placed.old line.now }
    ensures put { out.new ≡ put (placed_line_answer placed.old line.now) out.old }
{
    match position_line_of(line) {
        PositionLine::Enter(entry) => answer_entry(placed, entry, out),
        PositionLine::Conflicts(carrier, question) => {
            let mut numbers = [0; 512];
            let answer = reach::conflicts_of(placed, carrier, question, &mut numbers);
            put_list(out, answer, &numbers);
        }
        PositionLine::Free(first, last, question) => {
            put_carrier(out, reach::first_free(placed, first, last, question));
        }
        PositionLine::CellList => put_made_cells(out, placed),
        PositionLine::Other => answer_other(placed, line, out),
    }
}
