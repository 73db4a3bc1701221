// A register of cells as E6 stored it, with cell numbers of 16 bits, and the register that it becomes (document 02, E7).
#![tactic(auto)]

ghost use Rattle.std.specs.Prelude.{◌≡◌};
ghost use Rattle.register.specs.stored.Stored.{widened_cell, widened};

use crate::{Assignment, Cell, CellNumber, Figures, Register};

// A cell of E6: its number has 16 bits. A type of its own and no Cell over a type of numbers: the C interface has both forms, and no function takes either;
// a stored register is only widened.
#[derive(Clone, Copy)]
pub struct StoredCell {
    pub number: u16,
    pub assignment: Assignment,
}

// A register of E6, field by field. An array with its count, as in Register: fixed memory without heap, and any count is answered.
#[derive(Clone, Copy)]
pub struct StoredRegister {
    pub next_slot: u64,
    pub figures: Figures,
    pub live_count: u64,
    pub cells: [StoredCell; 512],
}

impl From<StoredCell> for Cell {
    ghost from_gives = { λ cell result. result ≡ widened_cell cell };

    fn from(cell: StoredCell) -> Cell {
        let assignment = cell.assignment;
        Cell {
            number: CellNumber::from(cell.number),
            assignment,
        }
    }
}

// The register with the stored one's next slot, figures, live count and cells.
impl From<StoredRegister> for Register {
    ghost from_gives = { λ stored result. result ≡ widened stored };

    fn from(stored: StoredRegister) -> Register {
        let cells = stored.cells.map(
            |cell: StoredCell| -> Cell
                ensures { result ≡ widened_cell cell }
            { Cell::from(cell) },
        );
        Register {
            next_slot: stored.next_slot,
            figures: stored.figures,
            live_count: stored.live_count,
            cells,
        }
    }
}
