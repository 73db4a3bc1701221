// Entry lines of cells and of their positions (docs/PLANNING.md; document 02, E6 and E11), from their bytes to the entry, and the report of an input of
// them. A line and a place in it are two parameters, as in `texts::fields`.
#![tactic(auto)]

ghost use Rattle.std.specs.Prelude.{◌≡◌, Some};
ghost use Rattle.texts.specs.Text.{put};
ghost use Rattle.positions.specs.PlacedTaken.{cell_entry};
ghost use Rattle.register_lines.specs.entries.Signed.{signed_number, signed_field, sign_text, signed_text};
ghost use Rattle.register_lines.specs.entries.Entries.{assignment_of, assignment_at, release_of, release_at, placed_said, place_at, line_said_at, entry_said, entry_with, entry_at, entry_in_line};
ghost use Rattle.group_register.specs.GroupRegister.{apply_in_group};
ghost use Rattle.register_lines.specs.entries.Reports.{entries_begun, take_settings, take_line, no_lines, page_after};

use group_register::{GroupRegister, RegisterSettings};
use positions::{PlacedEntry, Position, PositionEntry};
use register::report::ReportPage;
use register::{Assignment, CellEntry, CellNumber, Change};
use texts::Output;
use texts::fields::NumberField;

// A number with its sign that a field holds, if it does, and where the field ends.
#[derive(Clone, Copy)]
pub struct SignedField {
    pub number: Option<i64>,
    pub end: usize,
}

// What an entry says of its cell: an assignment or a release, or a position.
#[derive(Clone, Copy)]
pub enum CellSaid {
    Changed(Change),
    Placed(Position),
}

// What a line says of a cell, and where that ends.
#[derive(Clone, Copy)]
pub struct LineSaid {
    pub cell: CellNumber,
    pub said: CellSaid,
    pub end: usize,
}

// The register after the lines of an input so far, and whether there were any.
#[derive(Clone, Copy)]
pub struct EntriesTaken {
    pub group: GroupRegister,
    pub begun: bool,
}

// ---- numbers with a sign

// A number with its sign: up to 2^63-1 either way.
#[tactic(auto, unfolding(crate::specs::entries::Signed::signed_number))]
fn signed_number(negative: bool, number: Option<u64>) -> Option<i64>
    ensures { result ≡ signed_number negative number }
{
    let value = number?;
    if value > message::LARGEST_NUMBER {
        return None;
    }
    let coordinate = value as i64;
    Some(if negative { -coordinate } else { coordinate })
}

// The field from a place on, as a number that may have a minus sign.
#[tactic(auto, unfolding(crate::specs::entries::Signed::signed_field))]
pub fn signed_field(line: &[u8], at: usize) -> SignedField
    ensures { result ≡ signed_field line.now at }
{
    let negative = texts::fields::begins_at(line, at, b"-");
    let from = if negative {
        texts::fields::next_field(line, at)
    } else {
        at
    };
    let NumberField { number, end } = texts::fields::number_field(line, from);
    SignedField {
        number: signed_number(negative, number),
        end,
    }
}

// A number behind a blank, with its sign.
#[tactic(auto, using(texts::proofs::Putting::put_then), unfolding(crate::specs::entries::Signed::sign_text))]
fn put_sign(out: &mut Output<'_>, negative: bool, n: u64)
    ensures { out.new ≡ put (sign_text negative n) out.old }
{
    if negative {
        out.put_bytes(b" -");
        out.put_number(n);
    } else {
        out.put_field(n);
    }
}

pub fn put_signed(out: &mut Output<'_>, value: i64)
    ensures { out.new ≡ put (signed_text value) out.old }
{
    put_sign(out, value < 0, value.unsigned_abs());
}

// ---- an entry, from its letter on

#[tactic(auto, unfolding(crate::specs::entries::Entries::assignment_of))]
fn assignment_of(
    cell: Option<u64>,
    carrier: Option<u64>,
    width: Option<u64>,
    end: usize,
) -> Option<LineSaid>
    ensures { result ≡ assignment_of cell carrier width end }
{
    let number = cell?;
    if number > 4294967295 {
        return None;
    }
    let assignment = Assignment {
        carrier: carrier?,
        width: width?,
    };
    Some(LineSaid {
        cell: number as CellNumber,
        said: CellSaid::Changed(Change::Assign(assignment)),
        end,
    })
}

// `CELL CARRIER WIDTH`
#[tactic(auto, unfolding(crate::specs::entries::Entries::assignment_at))]
fn assignment_at(line: &[u8], at: usize) -> Option<LineSaid>
    ensures { result ≡ assignment_at line.now at }
{
    let cell = texts::fields::number_field(line, at);
    let carrier = texts::fields::number_field(line, texts::fields::next_field(line, cell.end));
    let width = texts::fields::number_field(line, texts::fields::next_field(line, carrier.end));
    assignment_of(cell.number, carrier.number, width.number, width.end)
}

#[tactic(auto, unfolding(crate::specs::entries::Entries::release_of))]
fn release_of(cell: Option<u64>, end: usize) -> Option<LineSaid>
    ensures { result ≡ release_of cell end }
{
    let number = cell?;
    if number > 4294967295 {
        return None;
    }
    Some(LineSaid {
        cell: number as CellNumber,
        said: CellSaid::Changed(Change::Release),
        end,
    })
}

// `CELL`
#[tactic(auto, unfolding(crate::specs::entries::Entries::release_at))]
fn release_at(line: &[u8], at: usize) -> Option<LineSaid>
    ensures { result ≡ release_at line.now at }
{
    let cell = texts::fields::number_field(line, at);
    release_of(cell.number, cell.end)
}

#[tactic(auto, unfolding(crate::specs::entries::Entries::placed_said))]
fn placed_said(cell: Option<u64>, x: Option<i64>, y: Option<i64>, end: usize) -> Option<LineSaid>
    ensures { result ≡ placed_said cell x y end }
{
    let number = cell?;
    if number > 4294967295 {
        return None;
    }
    let position = Position { x: x?, y: y? };
    Some(LineSaid {
        cell: number as CellNumber,
        said: CellSaid::Placed(position),
        end,
    })
}

// `CELL X Y`
#[tactic(auto, unfolding(crate::specs::entries::Entries::place_at))]
fn place_at(line: &[u8], at: usize) -> Option<LineSaid>
    ensures { result ≡ place_at line.now at }
{
    let cell = texts::fields::number_field(line, at);
    let x = signed_field(line, texts::fields::next_field(line, cell.end));
    let y = signed_field(line, texts::fields::next_field(line, x.end));
    placed_said(cell.number, x.number, y.number, y.end)
}

// `a CELL CARRIER WIDTH`, `r CELL` or `p CELL X Y`, from a place of a line on.
#[tactic(auto, unfolding(crate::specs::entries::Entries::line_said_at))]
pub fn line_said_at(line: &[u8], at: usize) -> Option<LineSaid>
    ensures { result ≡ line_said_at line.now at }
{
    let behind = texts::fields::next_field(line, texts::fields::next_field(line, at));
    if texts::fields::begins_at(line, at, b"a ") {
        return assignment_at(line, behind);
    }
    if texts::fields::begins_at(line, at, b"r ") {
        return release_at(line, behind);
    }
    if texts::fields::begins_at(line, at, b"p ") {
        return place_at(line, behind);
    }
    None
}

// ---- an entry line

pub fn entry_said(slot: u64, cell: CellNumber, said: CellSaid) -> PlacedEntry
    ensures { result ≡ entry_said slot cell said }
{
    match said {
        CellSaid::Changed(change) => PlacedEntry::OfCell(CellEntry { slot, cell, change }),
        CellSaid::Placed(position) => PlacedEntry::OfPosition(PositionEntry {
            slot,
            cell,
            position,
        }),
    }
}

// The entry, where its last field ends the line.
#[tactic(auto, unfolding(crate::specs::entries::Entries::entry_with))]
fn entry_with(slot: u64, said: Option<LineSaid>, length: usize) -> Option<PlacedEntry>
    ensures { result ≡ entry_with slot said length }
{
    let whole = said?;
    if whole.end == length {
        return Some(entry_said(slot, whole.cell, whole.said));
    }
    None
}

// `SLOT` and what follows it, from a place of a line to its end.
#[tactic(auto, unfolding(crate::specs::entries::Entries::entry_at))]
fn entry_at(line: &[u8], at: usize) -> Option<PlacedEntry>
    ensures { result ≡ entry_at line.now at }
{
    let slot = texts::fields::number_field(line, at);
    let number = slot.number?;
    let said = line_said_at(line, texts::fields::next_field(line, slot.end));
    entry_with(number, said, line.len())
}

// The entry that a line gives, without its LF.
#[tactic(auto, unfolding(crate::specs::entries::Entries::entry_in_line))]
pub fn entry_in_line(line: &[u8]) -> Option<PlacedEntry>
    ensures { result ≡ entry_in_line line.now }
{
    if texts::fields::begins(line, b"entry ") {
        return entry_at(line, 6);
    }
    None
}

// ---- a report of entry lines: the register after the lines so far, where each of them was an entry line, or the first began the register

// What the register sees of an entry: of a position its slot alone, as of an assignment without a width, which is refused.
fn cell_entry(entry: PlacedEntry) -> CellEntry
    ensures { result ≡ cell_entry entry }
{
    match entry {
        PlacedEntry::OfCell(entry) => entry,
        PlacedEntry::OfPosition(PositionEntry { slot, cell, .. }) => CellEntry {
            slot,
            cell,
            change: Change::Assign(Assignment {
                carrier: 0,
                width: 0,
            }),
        },
    }
}

// Before any line.
pub fn no_lines() -> Option<EntriesTaken>
    ensures { result ≡ no_lines }
{
    Some(EntriesTaken {
        group: crate::first_register(),
        begun: false,
    })
}

// After at least one line.
fn entries_begun(group: GroupRegister) -> Option<EntriesTaken>
    ensures { result ≡ entries_begun group }
{
    Some(EntriesTaken { group, begun: true })
}

// An entry is taken into the register where it stands.
#[tactic(auto, unfolding(group_register::specs::GroupRegister::apply_in_group))]
fn take_entry(lines: &mut EntriesTaken, entry: CellEntry)
    ensures { Some lines.new ≡ entries_begun (apply_in_group lines.old.group entry).group }
{
    let _ = group_register::apply_in(lines.group.settings, &mut lines.group.register, entry);
    lines.begun = true;
}

#[tactic(auto, unfolding(crate::specs::entries::Reports::take_settings))]
fn take_settings(slot: Option<u64>) -> Option<EntriesTaken>
    ensures { result ≡ take_settings slot }
{
    let from = slot?;
    entries_begun(GroupRegister::new(RegisterSettings::from_slot(from)))
}

// One more line, without its LF, into the lines so far where they stand: a register is 12 KB, and is not copied for a line. A line that is none of these is not
// forgotten.
#[tactic(auto, unfolding(crate::specs::entries::Reports::take_line, crate::specs::entries::Reports::take_first, crate::specs::entries::Reports::take_entry))]
pub fn put_line_taken(taken: &mut Option<EntriesTaken>, line: &[u8])
    ensures { taken.new ≡ take_line taken.old line.now }
{
    let Some(lines) = taken else {
        return;
    };
    if !lines.begun && texts::fields::begins(line, b"register ") {
        *taken = take_settings(texts::fields::number_from(line, 9));
        return;
    }
    match entry_in_line(line) {
        Some(given) => take_entry(lines, cell_entry(given)),
        None => *taken = None,
    }
}

// The same by value.
pub fn take_line(mut taken: Option<EntriesTaken>, line: &[u8]) -> Option<EntriesTaken>
    ensures { result ≡ take_line taken line.now }
{
    put_line_taken(&mut taken, line);
    taken
}

// What is printed when the input ends.
#[tactic(auto, unfolding(crate::specs::entries::Reports::page_after))]
pub fn page_after(taken: Option<EntriesTaken>) -> ReportPage
    ensures { result ≡ page_after taken }
{
    match taken {
        Some(lines) => group_register::group_page(lines.group),
        None => register::report::refusal_page(1),
    }
}
