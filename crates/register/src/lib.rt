// A register of cells from the commits (document 02, E6).
#![tactic(auto)]

pub mod report;
pub mod stored;

ghost use Rattle.std.specs.Prelude.{◌≡◌, ◌<◌, ◌≤◌, ℕ, List, [], min, length, set, take, MatchResult};
ghost use Rattle.basics.specs.elements.Places.{at_front, without, with_at};
ghost use Rattle.register.specs.Cells.{found, number_of_cell};
ghost use Rattle.register.specs.Refusals.{entry_refusal_number, outcome_number};
ghost use Rattle.register.specs.Register.{live_places, live_cells, assignable, new_register, with_cells, with_figures, slot_seen, applied, done, assign, release, apply};
ghost use Rattle.register.specs.declared.Register.{Register};

use basics::elements::{insert_at, remove_at};
use basics::refusals::Refused;
use message::increment;
use raster::frequency_of;

// "Cell numbers grow from 16 to 32 bits in entries and register" (E7)
pub type CellNumber = u32;

// "an assignment (carrier number, width in kHz from 1 to 400,000)"
#[derive(Clone, Copy, Default)]
pub struct Assignment {
    pub carrier: u64,
    pub width: u64,
}

// "either an assignment .. or a release": two kinds of entry, so a release is a case of its own and no None.
#[derive(Clone, Copy)]
pub enum Change {
    Assign(Assignment),
    Release,
}

// What a slot's commit says of a cell.
#[derive(Clone, Copy)]
pub struct CellEntry {
    pub slot: u64,
    pub cell: CellNumber,
    pub change: Change,
}

// A live cell.
#[derive(Clone, Copy, Default)]
pub struct Cell {
    pub number: CellNumber,
    pub assignment: Assignment,
}

// The assignments made, superseded and released so far.
#[derive(Clone, Copy, Default)]
pub struct Figures {
    pub made: u64,
    pub superseded: u64,
    pub released: u64,
}

// The slot after the last one seen, the figures, and the live cells: they stand in the first live_count places, by number. An
// array with its count and no vector: a register is one block of fixed size without heap, and any count is answered (live_places).
#[derive(Clone, Copy)]
pub struct Register {
    pub next_slot: u64,
    pub figures: Figures,
    pub live_count: u64,
    pub cells: [Cell; 512],
}

// Why an entry is refused, with document 02's numbers.
#[derive(Clone, Copy, PartialEq, Eq, Debug)]
pub enum EntryRefusal {
    NumberTooLarge = 2,
    NotAssignable = 14,
    NoRoomForCell = 15,
    CellNotLive = 16,
}

// What became of an entry that is not refused: it was done, or its slot was not after the last one seen.
#[derive(Clone, Copy, PartialEq, Eq, Debug)]
pub enum Entered {
    Done,
    Older,
}

impl Refused for EntryRefusal {
    ghost refusal_number = { entry_refusal_number };

    // Document 02's number.
    fn number(self) -> u64 {
        self as u64
    }
}

// Document 02's number for what became of an entry, and where it gives none 0, done, or 64, older.
pub fn entry_number<E: Refused>(outcome: Result<Entered, E>) -> u64
    ensures { result ≡ outcome_number E.refusal_number outcome }
{
    match outcome {
        Ok(Entered::Done) => 0,
        Ok(Entered::Older) => 64,
        Err(why) => why.number(),
    }
}

#[derive(Clone, Copy)]
pub struct Applied {
    pub register: Register,
    pub outcome: Result<Entered, EntryRefusal>,
}

impl Assignment {
    // Whether the carrier is a raster number and the width within its limits.
    #[tactic(auto, using(crate::proofs::Assignable::has_value), unfolding(crate::specs::Register::assignable))]
    pub fn assignable(self) -> bool
        ensures { result ≡ assignable self }
    {
        frequency_of(self.carrier).is_some() && self.width >= 1 && self.width <= 400000
    }
}

impl Register {
    pub fn new() -> Register
        ensures { result ≡ new_register }
    {
        Register {
            next_slot: 0,
            figures: Figures::default(),
            live_count: 0,
            cells: [Cell::default(); 512],
        }
    }
}

// How many places hold live cells, by the count that a register has of them: no more than 512, whatever the count says. The library's `min`, in one place for
// its callers.
pub fn live_places(live_count: u64) -> usize
    ensures { result ≡ min live_count 512 }
{
    live_count.min(512) as usize
}

// What stands in a list by its number.
pub trait Numbered {
    ghost number_of: { Self → ℕ };

    fn number(&self) -> u64
        ensures { result ≡ number_of self.now };
}

impl Numbered for Cell {
    ghost number_of = { number_of_cell };

    fn number(&self) -> u64 {
        self.number as u64
    }
}

// A column of numbers alone.
impl Numbered for u64 {
    ghost number_of = { λ n. n };

    fn number(&self) -> u64 {
        *self
    }
}

// The place of that number, or the place where it would stand: that of the first number that is not below it. The count of a register may be any
// number and its cells may stand in any order, and every register is answered: so the search takes one after the
// other. By `position` the number found and the number past it would be asked for twice.
pub fn find<T: Numbered>(list: &[T], number: u64) -> Result<usize, usize>
    ensures found { result ≡ found T.number_of number list.now }
    ensures within { MatchResult result (λ at. at < length list.now) (λ at. at ≤ length list.now) }
{
    for (i, x) in list.iter().enumerate() {
        let here = x.number();
        if here >= number {
            return if here == number { Ok(i) } else { Err(i) };
        }
    }
    Err(list.len())
}

// Nothing is refused, or nothing has become of an entry: the register is as it is.
pub fn done(register: Register) -> Applied
    ensures { result ≡ done register }
{
    Applied {
        register,
        outcome: Ok(Entered::Done),
    }
}

// A register, whatever it is made of: one value, or arrays that a host lends.
pub trait RegisterPlaces {
    ghost register: { Self → Register };

    // What one that lends its places keeps: the references that it holds. A clause of each method, since it compares before with after, as no type does.
    ghost lent: { Self → List ℕ };

    fn next_slot(&self) -> u64
        ensures { result ≡ (register self.now).next_slot };

    fn figures(&self) -> Figures
        ensures { result ≡ (register self.now).figures };

    // How many places hold live cells. There are 512 places.
    fn live(&self) -> usize
        ensures live { result ≡ live_places (register self.now) }
        ensures places { length (register self.now).cells ≡ 512 };

    // The place of a live cell, or the place where it would stand.
    fn find(&self, number: CellNumber) -> Result<usize, usize>
        ensures found { result ≡ found number_of_cell number (live_cells (register self.now)) }
        ensures within { MatchResult result (λ at. at < live_places (register self.now)) (λ at. at ≤ live_places (register self.now)) };

    // The slot is the last one seen.
    fn see(&mut self, slot: u64)
        requires { slot < 18446744073709551615 }
        ensures seen { register self.new ≡ slot_seen slot (register self.old) }
        ensures same_references { lent self.new ≡ lent self.old };

    // The figures, and the count of live cells, which stands beside the cells and is no field of Figures (report).
    fn count(&mut self, figures: Figures, live: u64)
        ensures counted { register self.new ≡ with_figures figures live (register self.old) }
        ensures same_references { lent self.new ≡ lent self.old };

    // The cell goes to place `at`.
    fn put(&mut self, at: usize, cell: Cell)
        requires { at < 512 }
        ensures cells { register self.new ≡ with_cells (set (register self.old).cells at cell) (register self.old) }
        ensures same_references { lent self.new ≡ lent self.old };

    // The first `places` cells with a new one at place `at`: the later ones move one place up.
    fn insert(&mut self, at: usize, places: usize, cell: Cell)
        requires { (at ≤ places) × (places < 512) }
        ensures cells { register self.new ≡ with_cells (at_front (with_at at cell (take places (register self.old).cells)) (register self.old).cells) (register self.old) }
        ensures same_references { lent self.new ≡ lent self.old };

    // The first `places` cells without the one at place `at`: the later ones move one place down.
    fn remove(&mut self, at: usize, places: usize)
        requires { (at < places) × (places ≤ 512) }
        ensures cells { register self.new ≡ with_cells (at_front (without at (take places (register self.old).cells)) (register self.old).cells) (register self.old) }
        ensures same_references { lent self.new ≡ lent self.old };
}

impl RegisterPlaces for Register {
    ghost register = { λ r. r };

    ghost lent = { λ _. [] };

    fn next_slot(&self) -> u64 {
        self.next_slot
    }

    fn figures(&self) -> Figures {
        self.figures
    }

    fn live(&self) -> usize {
        live_places(self.live_count)
    }

    fn find(&self, number: CellNumber) -> Result<usize, usize> {
        let live = live_places(self.live_count);
        find(&self.cells[..live], number as u64)
    }

    fn see(&mut self, slot: u64) {
        self.next_slot = slot + 1;
    }

    fn count(&mut self, figures: Figures, live: u64) {
        self.figures = figures;
        self.live_count = live;
    }

    fn put(&mut self, at: usize, cell: Cell) {
        self.cells[at] = cell;
    }

    fn insert(&mut self, at: usize, places: usize, cell: Cell) {
        insert_at(&mut self.cells, at, places, cell);
    }

    fn remove(&mut self, at: usize, places: usize) {
        remove_at(&mut self.cells, at, places);
    }
}

// An assignment: refused with 14 or 15, or done.
#[tactic(auto, using(crate::proofs::Ends::assign_supersedes, crate::proofs::Ends::assign_full, crate::proofs::Ends::assign_makes), unfolding(crate::specs::Register::assign))]
fn assign<R: RegisterPlaces>(
    register: &mut R,
    number: CellNumber,
    assignment: Assignment,
) -> Result<Entered, EntryRefusal>
    ensures same { R.lent register.new ≡ R.lent register.old }
    ensures applied { applied (R.register register.new) result ≡ assign (R.register register.old) number assignment }
{
    if !assignment.assignable() {
        return Err(EntryRefusal::NotAssignable);
    }
    let live = register.live();
    let mut figures = register.figures();
    figures.made = increment(figures.made);
    match register.find(number) {
        Ok(at) => {
            figures.superseded = increment(figures.superseded);
            register.count(figures, live as u64);
            register.put(at, Cell { number, assignment });
        }
        Err(at) => {
            if live >= 512 {
                return Err(EntryRefusal::NoRoomForCell);
            }
            register.count(figures, live as u64 + 1);
            register.insert(at, live, Cell { number, assignment });
        }
    }
    Ok(Entered::Done)
}

// A release: refused with 16, or done.
#[tactic(auto, using(crate::proofs::Ends::release_releases, crate::proofs::Ends::release_unknown))]
fn release<R: RegisterPlaces>(register: &mut R, number: CellNumber) -> Result<Entered, EntryRefusal>
    ensures same { R.lent register.new ≡ R.lent register.old }
    ensures applied { applied (R.register register.new) result ≡ release (R.register register.old) number }
{
    let live = register.live();
    let Ok(at) = register.find(number) else {
        return Err(EntryRefusal::CellNotLive);
    };
    let mut figures = register.figures();
    figures.released = increment(figures.released);
    register.count(figures, live as u64 - 1);
    register.remove(at, live);
    Ok(Entered::Done)
}

// What becomes of an entry, in a register whose places may be lent. The last slot is 2^63-2; a refused entry's slot is seen, unless it is above that.
#[tactic(auto, unfolding(crate::specs::Register::apply, crate::specs::Register::apply_change))]
pub fn apply_in<R: RegisterPlaces>(
    register: &mut R,
    entry: CellEntry,
) -> Result<Entered, EntryRefusal>
    ensures same { R.lent register.new ≡ R.lent register.old }
    ensures applied { applied (R.register register.new) result ≡ apply (R.register register.old) entry }
{
    if entry.slot > message::LARGEST_SLOT {
        return Err(EntryRefusal::NumberTooLarge);
    }
    if entry.slot < register.next_slot() {
        return Ok(Entered::Older);
    }
    register.see(entry.slot);
    match entry.change {
        Change::Assign(assignment) => assign(register, entry.cell, assignment),
        Change::Release => release(register, entry.cell),
    }
}

// The register after an entry.
pub fn apply(mut register: Register, entry: CellEntry) -> Applied
    ensures { result ≡ apply register entry }
{
    let outcome = apply_in(&mut register, entry);
    Applied { register, outcome }
}
