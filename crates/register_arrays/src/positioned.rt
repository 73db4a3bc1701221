// Positions in an array that a host lends, changed in place, beside the arrays of a register of group settings (document 02, E11). The contracts are those
// of crates/positions and crates/reach, on the register that the numbers stand for, whatever they are.
#![tactic(auto)]

ghost use Rattle.std.specs.Prelude.{◌≡◌, Some, None, [], ◌∷◌, length, replicate};
ghost use Rattle.register_arrays.specs.Columns.{SameArrays};
ghost use Rattle.register_arrays.specs.in_group.GroupColumns.{settings_in};
ghost use Rattle.positions.specs.Placed.{apply_entry};
ghost use Rattle.reach.specs.Cells.{cells_of};
ghost use Rattle.register_arrays.specs.positioned.Row.{position_at, positions_in, in_numbers, Plain, placed_entry_of, placed_register_of, placed_applied_in, placed_in};

use crate::in_group::settings_in;
use crate::{CellsArray, Columns, FiguresArray};
use basics::elements::{insert_at, remove_at};
use group_register::RegisterSettings;
use positions::{PlacedEntry, Position, PositionEntry, PositionPlaces, PositionRefusal};
use reach::{PlacedCell, PlacedCells};
use register::{Assignment, CellNumber, Entered, live_places};

// What an array has of a cell's position: 0 in `given` says that there is none, any other number that x and y are the position. A flag
// and no Option: the C interface has numbers.
#[derive(Clone, Copy, Default)]
#[repr(C)]
pub struct CellPosition {
    pub given: u64,
    pub x: i64,
    pub y: i64,
}

impl CellPosition {
    fn of(position: Position) -> CellPosition
        ensures { result ≡ in_numbers (Some position) }
    {
        CellPosition {
            given: 1,
            x: position.x,
            y: position.y,
        }
    }

    fn position(self) -> Option<Position>
        ensures { result ≡ position_at self }
    {
        if self.given == 0 {
            return None;
        }
        Some(Position {
            x: self.x,
            y: self.y,
        })
    }
}

// The lent array: place i has the position of the cell in place i. Any numbers may stand in it.
#[derive(Drop)]
pub struct PositionRow<'a> {
    pub cells: &'a mut [CellPosition; 512],
}

impl PositionPlaces for PositionRow<'_> {
    ghost positions = { λ row. positions_in row.cells.now };

    ghost lent = { λ row. row.cells.ghost_name ∷ [] };

    ghost plain = { λ row. Plain row.cells.now };

    #[tactic(auto, using(crate::proofs::positioned::Rows::position_put, crate::proofs::positioned::Rows::plain_put))]
    fn put(&mut self, at: usize, position: Position) {
        self.cells[at] = CellPosition::of(position);
    }

    #[tactic(auto, using(crate::proofs::positioned::Rows::positions_inserted, crate::proofs::positioned::Rows::plain_inserted))]
    fn insert(&mut self, at: usize, places: usize) {
        insert_at(self.cells, at, places, CellPosition::default());
    }

    #[tactic(auto, using(crate::proofs::positioned::Rows::positions_removed, crate::proofs::positioned::Rows::plain_removed))]
    fn remove(&mut self, at: usize, places: usize) {
        remove_at(self.cells, at, places);
    }
}

// No cell has a position.
impl PositionRow<'_> {
    pub fn clear(&mut self)
        ensures same { self.new.cells.ghost_name ≡ self.old.cells.ghost_name }
        ensures cleared { positions_in self.new.cells.now ≡ replicate 512 None }
        ensures plain { Plain self.new.cells.now }
    {
        *self.cells = [CellPosition::default(); 512];
    }
}

// The register after an entry, as crates/positions has it.
pub fn apply_in_arrays(
    settings: &[u64; 2],
    columns: &mut Columns<'_>,
    row: &mut PositionRow<'_>,
    entry: PlacedEntry,
) -> Result<Entered, PositionRefusal>
    ensures same { SameArrays columns.old columns.new × (row.new.cells.ghost_name ≡ row.old.cells.ghost_name) }
    ensures plain { Plain row.old.cells.now → Plain row.new.cells.now }
    ensures applied { placed_applied_in settings.now columns.new row.new result ≡ apply_entry (placed_register_of settings.now columns.old row.old) entry }
{
    positions::apply_in(settings_in(settings), columns, row, entry)
}

// Kind 3 is a position, of which cell, x and y are read; of any other kind what crates/register_arrays reads. A number and no enum, as there.
#[tactic(auto, unfolding(crate::specs::positioned::Row::placed_entry_of))]
pub fn placed_entry_of(
    slot: u64,
    kind: u64,
    cell: CellNumber,
    carrier: u64,
    width: u64,
    x: i64,
    y: i64,
) -> PlacedEntry
    ensures { result ≡ placed_entry_of slot kind cell carrier width (record { x = x; y = y }) }
{
    if kind == 3 {
        return PlacedEntry::OfPosition(PositionEntry {
            slot,
            cell,
            position: Position { x, y },
        });
    }
    PlacedEntry::OfCell(crate::entry_from_numbers(slot, kind, cell, carrier, width))
}

// The arrays of a register and of its positions, lent to be read. Columns and no array of cells, as in register_arrays: the C interface has them so.
#[derive(Clone, Copy)]
pub struct LentCells<'a> {
    pub settings: &'a [u64; 2],
    pub cells: &'a CellsArray,
    pub carriers: &'a CellsArray,
    pub widths: &'a CellsArray,
    pub figures: &'a FiguresArray,
    pub positions: &'a [CellPosition; 512],
}

// A proof knows how many places a lent array has where it is passed on as a slice: this function does nothing but hand that on.
fn have_places(cells: &[u64], carriers: &[u64], widths: &[u64], positions: &[CellPosition])
    requires { (length cells.now ≡ 512) × (length carriers.now ≡ 512) × (length widths.now ≡ 512) × (length positions.now ≡ 512) }
    ensures { (length cells.now ≡ 512) × (length carriers.now ≡ 512) × (length widths.now ≡ 512) × (length positions.now ≡ 512) }
{}

impl PlacedCells for LentCells<'_> {
    ghost settings = { λ c. settings_in c.settings.now };

    ghost cells = { λ c. cells_of (placed_in c) };

    fn settings(&self) -> RegisterSettings {
        settings_in(self.settings)
    }

    #[tactic(auto, using(crate::proofs::positioned::Rows::lent_live))]
    fn live(&self) -> usize {
        let (cells, carriers, widths) = (self.cells, self.carriers, self.widths);
        let (figures, positions) = (self.figures, self.positions);
        have_places(cells, carriers, widths, positions);
        live_places(figures[4])
    }

    #[tactic(auto, using(crate::proofs::positioned::Rows::lent_within, crate::proofs::positioned::Rows::lent_cell))]
    fn cell(&self, at: usize) -> PlacedCell {
        let (cells, carriers, widths) = (self.cells, self.carriers, self.widths);
        let positions = self.positions;
        have_places(cells, carriers, widths, positions);
        PlacedCell {
            number: cells[at],
            assignment: Assignment {
                carrier: carriers[at],
                width: widths[at],
            },
            position: positions[at].position(),
        }
    }
}
