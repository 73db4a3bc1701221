// A stored register of 16-bit cells in arrays of numbers, read into the arrays of a register (document 02, E7).
#![tactic(auto)]

ghost use Rattle.std.specs.Prelude.{◌≡◌, length};
ghost use Rattle.register.specs.stored.Stored.{widened};
ghost use Rattle.register_arrays.specs.Columns.{register_in, SameArrays};
ghost use Rattle.register_arrays.specs.stored.Columns.{stored_of_columns};

use crate::{CellsArray, Columns, FiguresArray};

// The lent arrays of a stored register. Columns and no array of stored cells: the C interface has them so.
#[derive(Clone, Copy)]
pub struct StoredColumns<'a> {
    pub cells: &'a [u16; 512],
    pub carriers: &'a CellsArray,
    pub widths: &'a CellsArray,
    pub figures: &'a FiguresArray,
}

// The stored numbers, each with 64 bits. By `zip` of `iter_mut` and `iter`, which was tried, the loop stays open without an invariant of the pairs of
// borrows that are given; by the index it is one of the two lists.
fn widen_numbers(stored: &[u16], numbers: &mut [u64])
    requires { length stored.now ≡ length numbers.old }
    ensures { numbers.new ≡ stored.now }
{
    for (i, number) in numbers.iter_mut().enumerate() {
        *number = u64::from(stored[i]);
    }
}

impl StoredColumns<'_> {
    // The register that the stored one becomes, in the arrays of a register.
    #[tactic(auto, using(crate::proofs::stored::Laws::same_numbers))]
    pub fn widen(self, columns: &mut Columns<'_>)
        ensures same { SameArrays columns.old columns.new }
        ensures widened { register_in columns.new ≡ widened (stored_of_columns self.entry) }
    {
        let cells = self.cells;
        widen_numbers(cells, columns.cells);
        *columns.carriers = *self.carriers;
        *columns.widths = *self.widths;
        *columns.figures = *self.figures;
    }
}
