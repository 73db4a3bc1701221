// Positions of the cells of a register (document 02, E11): "A live cell gets a position in whole metres on the national grid, signed, within 2,000,000
// either way, only by a new kind of entry". They stand beside the register of group settings (crates/group_register), which does not move: place i has
// the position of the cell in place i.
#![tactic(auto)]

ghost use Rattle.std.specs.Prelude.{◌≡◌, ◌<◌, ◌≤◌, ℕ, List, [], Option, Some, None, MatchResult, length, set, take, map, get_or, replicate};
ghost use Rattle.basics.specs.elements.Places.{at_front, without, with_at};
ghost use Rattle.register.specs.Cells.{found, number_of_cell};
ghost use Rattle.register.specs.Register.{live_cells, live_places};
ghost use Rattle.group_register.specs.GroupRegister.{group_register, group_applied, apply_in_group};
ghost use Rattle.positions.specs.declared.Position.{Position};
ghost use Rattle.positions.specs.Grid.{within_grid};
ghost use Rattle.positions.specs.Placed.{IsPlaceOf, followed_positions, register_with_positions, placed_applied, without_positions, new_placed, position_refusal_number, apply_cell, apply_position, apply_entry, position_of};

use basics::elements::{insert_at, remove_at};
use basics::refusals::Refused;
use group_register::{GroupRefusal, GroupRegister, RegisterSettings};
use register::{
    Applied, CellEntry, CellNumber, Change, Entered, EntryRefusal, Register, RegisterPlaces,
};

// "a position in whole metres on the national grid, signed"
#[derive(Clone, Copy)]
pub struct Position {
    pub x: i64,
    pub y: i64,
}

// What a slot's commit says of the position of a cell.
#[derive(Clone, Copy)]
pub struct PositionEntry {
    pub slot: u64,
    pub cell: CellNumber,
    pub position: Position,
}

// What a slot's commit says: an entry of the register, as before, or a cell's position.
#[derive(Clone, Copy)]
pub enum PlacedEntry {
    OfCell(CellEntry),
    OfPosition(PositionEntry),
}

// A register with the positions of its cells.
#[derive(Clone, Copy)]
pub struct PlacedRegister {
    pub group: GroupRegister,
    pub positions: [Option<Position>; 512],
}

// Why an entry is refused: 21, the position is outside the limits; or as in E6 and E13.
#[derive(Clone, Copy, PartialEq, Eq, Debug)]
pub enum PositionRefusal {
    OutsideGrid,
    AsGroup(GroupRefusal),
}

#[derive(Clone, Copy)]
pub struct PlacedApplied {
    pub placed: PlacedRegister,
    pub outcome: Result<Entered, PositionRefusal>,
}

impl Refused for PositionRefusal {
    ghost refusal_number = { position_refusal_number };

    // Document 02's number. By `match`, as that of GroupRefusal, which is one of its causes.
    fn number(self) -> u64 {
        match self {
            PositionRefusal::OutsideGrid => 21,
            PositionRefusal::AsGroup(why) => why.number(),
        }
    }
}

impl Position {
    // "within 2,000,000 either way"
    #[tactic(auto, unfolding(crate::specs::Grid::within_grid))]
    pub fn within_grid(self) -> bool
        ensures { result ≡ within_grid self }
    {
        self.x.unsigned_abs() <= 2000000 && self.y.unsigned_abs() <= 2000000
    }
}

impl PlacedRegister {
    // A register whose cells have no positions, as those of one that was stored (E7).
    pub fn without_positions(group: GroupRegister) -> PlacedRegister
        ensures { result ≡ without_positions group }
    {
        PlacedRegister {
            group,
            positions: [None; 512],
        }
    }

    // A register of these settings that has seen no entry.
    pub fn new(settings: RegisterSettings) -> PlacedRegister
        ensures { result ≡ new_placed settings }
    {
        PlacedRegister::without_positions(GroupRegister::new(settings))
    }
}

// The positions of the cells of a register, by their places, whatever they stand in: one value, or arrays that a host lends. There are 512 places.
pub trait PositionPlaces {
    ghost positions: { Self → List (Option Position) };

    // What one that lends its places keeps: the references that it holds.
    ghost lent: { Self → List ℕ };

    // Its numbers are those that its positions have, and no others.
    ghost plain: { Self → Type 0 };

    // The cell in place `at` gets a position.
    fn put(&mut self, at: usize, position: Position)
        requires { at < 512 }
        ensures put { positions self.new ≡ set (positions self.old) at (Some position) }
        ensures plain { plain self.old → plain self.new }
        ensures same_references { lent self.new ≡ lent self.old };

    // Beside the first `places` cells a cell without a position at place `at`: the later positions move one place up.
    fn insert(&mut self, at: usize, places: usize)
        requires { (at ≤ places) × (places < 512) }
        ensures inserted { positions self.new ≡ at_front (with_at at None (take places (positions self.old))) (positions self.old) }
        ensures plain { plain self.old → plain self.new }
        ensures same_references { lent self.new ≡ lent self.old };

    // The position at place `at` goes: the later ones move one place down.
    fn remove(&mut self, at: usize, places: usize)
        requires { (at < places) × (places ≤ 512) }
        ensures removed { positions self.new ≡ at_front (without at (take places (positions self.old))) (positions self.old) }
        ensures plain { plain self.old → plain self.new }
        ensures same_references { lent self.new ≡ lent self.old };
}

impl PositionPlaces for [Option<Position>; 512] {
    ghost positions = { λ ps. ps };

    ghost lent = { λ _. [] };

    ghost plain = { λ _. Unit {0} };

    fn put(&mut self, at: usize, position: Position) {
        self[at] = Some(position);
    }

    fn insert(&mut self, at: usize, places: usize) {
        insert_at(self, at, places, None);
    }

    fn remove(&mut self, at: usize, places: usize) {
        remove_at(self, at, places);
    }
}

// The positions behind an assignment or a release that is done, of a cell that stood, or would have stood, in the place found: "A new assignment keeps
// the position, a release drops it."
#[tactic(auto, unfolding(crate::specs::Placed::followed_positions))]
fn follow<P: PositionPlaces>(
    positions: &mut P,
    change: Change,
    found: Result<usize, usize>,
    live: usize,
)
    requires { IsPlaceOf change found live }
    ensures same { P.lent positions.new ≡ P.lent positions.old }
    ensures plain { P.plain positions.old → P.plain positions.new }
    ensures followed { P.positions positions.new ≡ followed_positions change found live (P.positions positions.old) }
{
    match change {
        Change::Assign(_) => {
            if let Err(at) = found {
                positions.insert(at, live);
            }
        }
        Change::Release => {
            if let Ok(at) = found {
                positions.remove(at, live);
            }
        }
    }
}

// An entry of the register: what becomes of it is as before, and the positions follow where it is done.
#[tactic(auto, using(crate::proofs::Became::place_of_done), unfolding(crate::specs::Placed::apply_cell))]
fn apply_cell<R: RegisterPlaces, P: PositionPlaces>(
    settings: RegisterSettings,
    register: &mut R,
    positions: &mut P,
    entry: CellEntry,
) -> Result<Entered, PositionRefusal>
    ensures same { (R.lent register.new ≡ R.lent register.old) × (P.lent positions.new ≡ P.lent positions.old) }
    ensures plain { P.plain positions.old → P.plain positions.new }
    ensures applied { placed_applied (group_register settings (R.register register.new)) (P.positions positions.new) result
        ≡ apply_cell (register_with_positions (group_register settings (R.register register.old)) (P.positions positions.old)) entry }
{
    let found = register.find(entry.cell);
    let live = register.live();
    let outcome = group_register::apply_in(settings, register, entry);
    if let Ok(Entered::Done) = outcome {
        follow(positions, entry.change, found, live);
    }
    outcome.map_err(PositionRefusal::AsGroup)
}

// A position: "2, older, 21, then 16" of what document 02 says, behind the number of a register that is not made.
#[tactic(auto, using(register::proofs::Places::found_ok, register::proofs::Places::found_err), unfolding(crate::specs::Placed::apply_position, crate::specs::Placed::give_position))]
fn apply_position<R: RegisterPlaces, P: PositionPlaces>(
    settings: RegisterSettings,
    register: &mut R,
    positions: &mut P,
    entry: PositionEntry,
) -> Result<Entered, PositionRefusal>
    ensures same { (R.lent register.new ≡ R.lent register.old) × (P.lent positions.new ≡ P.lent positions.old) }
    ensures plain { P.plain positions.old → P.plain positions.new }
    ensures applied { placed_applied (group_register settings (R.register register.new)) (P.positions positions.new) result
        ≡ apply_position (register_with_positions (group_register settings (R.register register.old)) (P.positions positions.old)) entry }
{
    if !settings.is_made() {
        return Err(PositionRefusal::AsGroup(GroupRefusal::Unmade(settings.unmade_by())));
    }
    if entry.slot > message::LARGEST_SLOT {
        return Err(PositionRefusal::AsGroup(GroupRefusal::AsRegister(
            EntryRefusal::NumberTooLarge,
        )));
    }
    if entry.slot < register.next_slot() {
        return Ok(Entered::Older);
    }
    register.see(entry.slot);
    if !entry.position.within_grid() {
        return Err(PositionRefusal::OutsideGrid);
    }
    let Ok(at) = register.find(entry.cell) else {
        return Err(PositionRefusal::AsGroup(GroupRefusal::AsRegister(EntryRefusal::CellNotLive)));
    };
    positions.put(at, entry.position);
    Ok(Entered::Done)
}

// What becomes of an entry, in a register and positions whose places may be lent.
#[tactic(auto, unfolding(crate::specs::Placed::apply_entry))]
pub fn apply_in<R: RegisterPlaces, P: PositionPlaces>(
    settings: RegisterSettings,
    register: &mut R,
    positions: &mut P,
    entry: PlacedEntry,
) -> Result<Entered, PositionRefusal>
    ensures same { (R.lent register.new ≡ R.lent register.old) × (P.lent positions.new ≡ P.lent positions.old) }
    ensures plain { P.plain positions.old → P.plain positions.new }
    ensures applied { placed_applied (group_register settings (R.register register.new)) (P.positions positions.new) result
        ≡ apply_entry (register_with_positions (group_register settings (R.register register.old)) (P.positions positions.old)) entry }
{
    match entry {
        PlacedEntry::OfCell(entry) => apply_cell(settings, register, positions, entry),
        PlacedEntry::OfPosition(entry) => apply_position(settings, register, positions, entry),
    }
}

// The register after an entry.
pub fn apply_entry(mut placed: PlacedRegister, entry: PlacedEntry) -> PlacedApplied
    ensures { result ≡ apply_entry placed entry }
{
    let outcome = apply_in(
        placed.group.settings,
        &mut placed.group.register,
        &mut placed.positions,
        entry,
    );
    PlacedApplied { placed, outcome }
}

// The position of a live cell, where it has one.
#[tactic(auto, using(register::proofs::Places::found_ok, register::proofs::Places::found_err), unfolding(crate::specs::Placed::position_of))]
pub fn position_of(placed: &PlacedRegister, cell: CellNumber) -> Option<Position>
    ensures { result ≡ position_of placed.now cell }
{
    let at = placed.group.register.find(cell).ok()?;
    placed.positions[at]
}
