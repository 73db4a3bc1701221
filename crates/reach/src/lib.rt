// Conflicts within reach, and the first free carrier (document 02, E11), over the live cells of a register with positions.
#![tactic(auto)]

ghost use Rattle.std.specs.Prelude.{◌≡◌, ◌+◌, ◌*◌, ◌-◌, ◌≤◌, ◌<◌, ℕ, List, length, take, get_or, min};
ghost use Rattle.basics.specs.elements.Places.{at_front};
ghost use Rattle.reach.specs.Cells.{cells_of};
ghost use Rattle.reach.specs.Reach.{question_within_limits, is_near, khz_at, clashes, clashing, may_ask, question_checked, reach_refusal_number, conflicts_of, first_free, lowest_free};
ghost use Rattle.group_register.specs.declared.RegisterSettings.{RegisterSettings};
ghost use Rattle.reach.specs.declared.PlacedCell.{PlacedCell};
ghost use Rattle.reach.specs.Search.{edges_of, edges_contain, near_edges, in_the_way, is_in_the_way, FirstFrom, Askable};

use basics::refusals::Refused;
use group_register::{RegisterSettings, UnmadeBy};
use positions::{PlacedRegister, Position};
use raster::frequency_of;
use register::{Assignment, Cell, live_places};

// A live cell, with its position where it has one.
#[derive(Clone, Copy)]
pub struct PlacedCell {
    pub number: u64,
    pub assignment: Assignment,
    pub position: Option<Position>,
}

// What is asked besides carrier numbers: "its width, a position and a distance"
#[derive(Clone, Copy)]
pub struct Question {
    pub width: u64,
    pub position: Position,
    pub distance: u64,
}

// Why there is no answer, with document 02's numbers: the register is not made; position or distance outside the limits; a carrier, width or range end
// outside its limits; no carrier in the range is free.
#[derive(Clone, Copy, PartialEq, Eq, Debug)]
pub enum ReachRefusal {
    Unmade(UnmadeBy),
    NotAssignable,
    OutsideLimits,
    NoneFree,
}

impl Refused for ReachRefusal {
    ghost refusal_number = { reach_refusal_number };

    // Document 02's number.
    fn number(self) -> u64 {
        match self {
            ReachRefusal::Unmade(why) => why.number(),
            ReachRefusal::NotAssignable => 14,
            ReachRefusal::OutsideLimits => 21,
            ReachRefusal::NoneFree => 22,
        }
    }
}

// The live cells of a register with positions, by number, whatever the register is made of.
pub trait PlacedCells {
    // What the register keeps of the settings of its group.
    ghost settings: { Self → RegisterSettings };

    ghost cells: { Self → List PlacedCell };

    fn settings(&self) -> RegisterSettings
        ensures { result ≡ settings self.now };

    // How many there are: no more than 512.
    fn live(&self) -> usize
        ensures live { result ≡ length (cells self.now) }
        ensures most { result ≤ 512 };

    // The cell in place `at`.
    fn cell(&self, at: usize) -> PlacedCell
        requires { at < length (cells self.now) }
        ensures { (other : PlacedCell) → result ≡ get_or (cells self.now) at other };
}

// A proof knows how many places an array has where the array itself is passed on: this function does nothing but say it.
fn have_places(cells: &[Cell; 512], positions: &[Option<Position>; 512])
    ensures { (length cells.now ≡ 512) × (length positions.now ≡ 512) }
{}

// The live cells of a register by value.
impl PlacedCells for PlacedRegister {
    ghost settings = { λ p. p.group.settings };

    ghost cells = { cells_of };

    fn settings(&self) -> RegisterSettings {
        self.group.settings
    }

    #[tactic(auto, using(crate::proofs::Cells::live_length))]
    fn live(&self) -> usize {
        have_places(&self.group.register.cells, &self.positions);
        live_places(self.group.register.live_count)
    }

    #[tactic(auto, using(crate::proofs::Cells::live_within, crate::proofs::Cells::live_at))]
    fn cell(&self, at: usize) -> PlacedCell {
        have_places(&self.group.register.cells, &self.positions);
        let cell = self.group.register.cells[at];
        PlacedCell {
            number: cell.number as u64,
            assignment: cell.assignment,
            position: self.positions[at],
        }
    }
}

// A carrier overlaps a cell where its centre, in half kHz, is at `from` or above it, and below `to`.
#[derive(Clone, Copy, Default)]
struct Edges {
    from: u64,
    to: u64,
}

// The edges of the near cells, for one question: they stand in the first places.
#[derive(Clone, Copy)]
struct NearEdges {
    count: usize,
    edges: [Edges; 512],
}

impl Question {
    // "21, position or distance outside the limits"
    #[tactic(auto, unfolding(crate::specs::Reach::question_within_limits))]
    fn within_limits(self) -> bool
        ensures { result ≡ question_within_limits self }
    {
        self.position.within_grid() && self.distance <= 6000000
    }
}

// "within the distance of the position, equality included, squares compared"; "Cells without a position always count as near."
#[tactic(auto, using(crate::proofs::Squares::far, crate::proofs::Squares::far_north, crate::proofs::Squares::square_fits), unfolding(crate::specs::Reach::is_near))]
fn is_near(question: Question, position: Option<Position>) -> bool
    requires { question.distance ≤ 6000000 }
    ensures { result ≡ is_near question position }
{
    let Some(place) = position else {
        return true;
    };
    let east = question.position.x.abs_diff(place.x);
    let north = question.position.y.abs_diff(place.y);
    let distance = question.distance;
    if east > distance || north > distance {
        return false;
    }
    east * east + north * north <= distance * distance
}

// The frequency of a raster number, in kHz, and 0 for any other number: 14 has refused those.
fn khz_at(number: u64) -> u64
    ensures { result ≡ khz_at number }
{
    frequency_of(number).unwrap_or(0)
}

// A width as far as it matters: no carrier is 200,000,000 half kHz above another.
fn bounded(width: u64) -> u64
    ensures { result ≡ min width 200000000 }
{
    width.min(200000000)
}

// Where the centre of a carrier of that width, in half kHz, may not be, for it overlaps the cell.
#[tactic(auto, using(crate::proofs::Raster::khz_most), unfolding(crate::specs::Search::edges_of))]
fn edges_of(cell: PlacedCell, width: u64) -> Edges
    requires { width ≤ 400000 }
    ensures { result ≡ edges_of width cell }
{
    let centre = 2 * khz_at(cell.assignment.carrier);
    let both = width + bounded(cell.assignment.width);
    Edges {
        from: (centre + 1).saturating_sub(both),
        to: centre + both,
    }
}

impl Edges {
    // Whether a centre is between them.
    #[tactic(auto, unfolding(crate::specs::Search::edges_contain))]
    fn contain(self, centre: u64) -> bool
        ensures { result ≡ edges_contain self centre }
    {
        self.from <= centre && centre < self.to
    }
}

// The edges of the near cells. By the index, here and in list_cells: cells whose places may be lent lend no slice of them.
#[tactic(auto, using(crate::proofs::Lists::picked_none, crate::proofs::Lists::picked_all))]
fn near_edges<C: PlacedCells>(cells: &C, question: Question) -> NearEdges
    requires { (question.width ≤ 400000) × (question.distance ≤ 6000000) }
    ensures few { result.count ≤ 512 }
    ensures edges { take result.count result.edges ≡ near_edges question (C.cells cells.now) }
{
    let mut edges = [Edges::default(); 512];
    let mut count: usize = 0;
    let live = cells.live();
    for i in 0..live {
        let cell = cells.cell(i);
        if is_near(question, cell.position) {
            edges[count] = edges_of(cell, question.width);
            count += 1;
        }
    }
    NearEdges { count, edges }
}

// Whether a carrier of that frequency is in conflict with a cell: they overlap, and the cell is near.
fn clashes(question: Question, khz: u64, cell: PlacedCell) -> bool
    requires { Askable khz question }
    ensures { result ≡ clashes question khz cell }
{
    edges_of(cell, question.width).contain(2 * khz) && is_near(question, cell.position)
}

// The cells in conflict, by number, into the first of the lent places, and how many they are.
#[tactic(auto, using(crate::proofs::Lists::picked_none, crate::proofs::Lists::picked_all))]
fn list_cells<C: PlacedCells>(
    cells: &C,
    khz: u64,
    question: Question,
    numbers: &mut [u64; 512],
) -> usize
    requires { Askable khz question }
    ensures count { result ≡ length (clashing question khz (C.cells cells.now)) }
    ensures listed { numbers.new ≡ at_front (clashing question khz (C.cells cells.now)) numbers.old }
{
    let mut count: usize = 0;
    let live = cells.live();
    for i in 0..live {
        let cell = cells.cell(i);
        if clashes(question, khz, cell) {
            numbers[count] = cell.number;
            count += 1;
        }
    }
    count
}

// The first of the cells that a centre overlaps: up to which half kHz it is in the way.
#[tactic(auto, using(crate::proofs::Ways::first_in_the_way, crate::proofs::Ways::next_in_the_way, crate::proofs::Ways::none_in_the_way))]
fn in_the_way(edges: &[Edges], centre: u64) -> Option<u64>
    ensures { result ≡ in_the_way centre edges.now }
{
    for cell in edges {
        if cell.contain(centre) {
            return Some(cell.to);
        }
    }
    None
}

// The first raster number whose frequency, in half kHz, is not below the edge; or the number after the last.
#[tactic(auto, using(crate::proofs::Raster::in_first, crate::proofs::Raster::at_second, crate::proofs::Raster::in_second, crate::proofs::Raster::at_third, crate::proofs::Raster::in_third, crate::proofs::Raster::past_last))]
fn first_number_from(edge: u64) -> u64
    ensures { FirstFrom edge result }
{
    if edge <= 5999990 {
        return (edge + 9) / 10;
    }
    if edge <= 6000000 {
        return 600000;
    }
    if edge <= 48499980 {
        return 600000 + (edge - 6000000 + 29) / 30;
    }
    if edge <= 48500160 {
        return 2016667;
    }
    if edge <= 199999920 {
        return 2016667 + (edge - 48500160 + 119) / 120;
    }
    3279166
}

// The lowest number from first to last that overlaps none of the cells. After a conflict the search goes on behind the cell in the way, so that each
// cell is in the way at most once. A `while` and no `for`: the next number is seldom the one after.
#[tactic(auto, using(crate::proofs::Raster::khz_most, crate::proofs::Ways::search_free, crate::proofs::Ways::search_end, crate::proofs::Ways::search_rises, crate::proofs::Ways::search_again))]
fn search(edges: &[Edges], first: u64, last: u64) -> Result<u64, ReachRefusal>
    requires { last ≤ 3279165 }
    ensures { result ≡ lowest_free (is_in_the_way edges.now) first (last + 1 - first) }
{
    let mut number = first;
    while number <= last {
        let Some(edge) = in_the_way(edges, 2 * khz_at(number)) else {
            return Ok(number);
        };
        number = first_number_from(edge);
    }
    Err(ReachRefusal::NoneFree)
}

// A carrier number of the raster, and a width "from 1 to 400,000" (E6).
fn may_ask(carrier: u64, width: u64) -> bool
    ensures { result ≡ may_ask carrier width }
{
    Assignment { carrier, width }.assignable()
}

// "21 first, then 14 for a carrier, width or range end outside its limits", behind the number of a register that is not made.
#[tactic(auto, unfolding(crate::specs::Reach::question_checked))]
fn question_checked(
    settings: RegisterSettings,
    question: Question,
    first: u64,
    last: u64,
) -> Result<(), ReachRefusal>
    ensures { result ≡ question_checked settings question first last }
{
    if !settings.is_made() {
        return Err(ReachRefusal::Unmade(settings.unmade_by()));
    }
    if !question.within_limits() {
        return Err(ReachRefusal::OutsideLimits);
    }
    if !(may_ask(first, question.width) && may_ask(last, question.width)) {
        return Err(ReachRefusal::NotAssignable);
    }
    Ok(())
}

// "list the cells, by number, that overlap the carrier and lie within the distance of the position": they stand in the first of the lent places, and the
// others stay as they are.
#[tactic(auto, using(crate::proofs::Asking::askable), unfolding(crate::specs::Reach::conflicts_of))]
pub fn conflicts_of<C: PlacedCells>(
    cells: &C,
    carrier: u64,
    question: Question,
    numbers: &mut [u64; 512],
) -> Result<usize, ReachRefusal>
    ensures { (result, numbers.new) ≡ conflicts_of (C.settings cells.now) (C.cells cells.now) carrier question numbers.old }
{
    question_checked(cells.settings(), question, carrier, carrier)?;
    Ok(list_cells(cells, khz_at(carrier), question, numbers))
}

// "Given a range of carrier numbers, give the lowest that conflicts with none."
#[tactic(auto, using(crate::proofs::Asking::may_search, crate::proofs::Asking::last_most), unfolding(crate::specs::Reach::first_free))]
pub fn first_free<C: PlacedCells>(
    cells: &C,
    first: u64,
    last: u64,
    question: Question,
) -> Result<u64, ReachRefusal>
    ensures { result ≡ first_free (C.settings cells.now) (C.cells cells.now) first last question }
{
    question_checked(cells.settings(), question, first, last)?;
    let near = near_edges(cells, question);
    search(&near.edges[..near.count], first, last)
}
