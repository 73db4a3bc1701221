// A register of cells in arrays of numbers that a host lends, changed in place (document 02, E6): three columns of 512 numbers, in which place
// i holds the number, the carrier and the width of live cell i, and five figures: the next slot, assignments made, superseded and released,
// and the number of live cells. The contracts are those of crates/register, on the register that the numbers stand for, whatever they are.
#![tactic(auto)]

pub mod in_group;
pub mod positioned;
pub mod stored;

ghost use Rattle.std.specs.Prelude.{◌≡◌};
ghost use Rattle.register.specs.Register.{new_register, apply};
ghost use Rattle.register_arrays.specs.Columns.{HavePlaces, figures_in, register_in, lent_arrays, SameArrays, applied_in, entry_from_numbers, report_in};

use basics::elements::{insert_at, remove_at};
use register::{
    Assignment, Cell, CellEntry, CellNumber, Change, Entered, EntryRefusal, Figures,
    RegisterPlaces, apply_in, find, live_places,
};

// The arrays by name: a number for each place of a register, and the figures.
pub type CellsArray = [u64; 512];

pub type FiguresArray = [u64; 5];

// The lent arrays of a register. Any numbers may stand in them: so there is no invariant. Three columns and no array of cells, and figures without names:
// the C interface has them so.
#[derive(Drop)]
pub struct Columns<'a> {
    pub cells: &'a mut CellsArray,
    pub carriers: &'a mut CellsArray,
    pub widths: &'a mut CellsArray,
    pub figures: &'a mut FiguresArray,
}

// The figures of the report. A function and no `From`: neither Figures nor an array of numbers is a type of this crate.
fn figures_in(figures: &FiguresArray) -> Figures
    ensures { result ≡ figures_in figures.now }
{
    Figures {
        made: figures[1],
        superseded: figures[2],
        released: figures[3],
    }
}

// A proof knows how many places a lent array has where it is passed on as a slice: this function does nothing but hand that on.
fn have_places(cells: &[u64], carriers: &[u64], widths: &[u64])
    requires { HavePlaces cells.now carriers.now widths.now }
    ensures { HavePlaces cells.now carriers.now widths.now }
{}

// The register that the lent arrays hold.
impl RegisterPlaces for Columns<'_> {
    ghost register = { register_in };

    ghost lent = { lent_arrays };

    fn next_slot(&self) -> u64 {
        let figures = *self.figures;
        figures[0]
    }

    fn figures(&self) -> Figures {
        figures_in(self.figures)
    }

    #[tactic(auto, using(crate::proofs::Searching::register_long))]
    fn live(&self) -> usize {
        have_places(self.cells, self.carriers, self.widths);
        let figures = *self.figures;
        live_places(figures[4])
    }

    #[tactic(auto, using(crate::proofs::Searching::found_live))]
    fn find(&self, number: CellNumber) -> Result<usize, usize> {
        have_places(self.cells, self.carriers, self.widths);
        let live = self.live();
        find(&self.cells[..live], number as u64)
    }

    fn see(&mut self, slot: u64) {
        let [_, made, superseded, released, live] = *self.figures;
        *self.figures = [slot + 1, made, superseded, released, live];
    }

    fn count(&mut self, figures: Figures, live: u64) {
        let next_slot = self.figures[0];
        let Figures {
            made,
            superseded,
            released,
        } = figures;
        *self.figures = [next_slot, made, superseded, released, live];
    }

    #[tactic(auto, using(crate::proofs::Levels::cells_set))]
    fn put(&mut self, at: usize, cell: Cell) {
        self.cells[at] = cell.number as u64;
        self.carriers[at] = cell.assignment.carrier;
        self.widths[at] = cell.assignment.width;
    }

    #[tactic(auto, using(crate::proofs::Levels::level, crate::proofs::Levels::cells_inserted))]
    fn insert(&mut self, at: usize, places: usize, cell: Cell) {
        insert_at(self.cells, at, places, cell.number as u64);
        insert_at(self.carriers, at, places, cell.assignment.carrier);
        insert_at(self.widths, at, places, cell.assignment.width);
    }

    #[tactic(auto, using(crate::proofs::Levels::level, crate::proofs::Levels::cells_removed))]
    fn remove(&mut self, at: usize, places: usize) {
        remove_at(self.cells, at, places);
        remove_at(self.carriers, at, places);
        remove_at(self.widths, at, places);
    }
}

impl Columns<'_> {
    // The register after an entry, as crates/register has it.
    pub fn apply(&mut self, entry: CellEntry) -> Result<Entered, EntryRefusal>
        ensures same { SameArrays self.old self.new }
        ensures applied { applied_in result self.new ≡ apply (register_in self.old) entry }
    {
        apply_in(self, entry)
    }

    // A register that has seen no entry.
    pub fn clear(&mut self)
        ensures same { SameArrays self.old self.new }
        ensures cleared { register_in self.new ≡ new_register }
    {
        *self.cells = [0; 512];
        *self.carriers = [0; 512];
        *self.widths = [0; 512];
        *self.figures = [0; 5];
    }
}

// Kind 1 is an assignment and kind 2 a release. Any other kind stands for an assignment without a width, so that it is refused with 14. The kind is a number
// and no enum: a host gives it (C interface), any one may be given, and this is the one place that asks for it.
#[tactic(auto, unfolding(crate::specs::Columns::change_of))]
pub fn entry_from_numbers(
    slot: u64,
    kind: u64,
    cell: CellNumber,
    carrier: u64,
    width: u64,
) -> CellEntry
    ensures { result ≡ entry_from_numbers slot kind cell carrier width }
{
    let change = match kind {
        1 => Change::Assign(Assignment { carrier, width }),
        2 => Change::Release,
        _ => Change::Assign(Assignment {
            carrier: 0,
            width: 0,
        }),
    };
    CellEntry { slot, cell, change }
}

// The report at the start of out, zeros after it, and its length.
pub fn put_page(figures: &FiguresArray, out: &mut [u8; 116]) -> u64
    ensures { (out.new, result) ≡ report_in figures.now }
{
    let page = register::report::page_with(figures_in(figures), live_places(figures[4]) as u64);
    let bytes = page.bytes;
    *out = bytes;
    page.len as u64
}
