// A list of commits fed to a register (document 02, E10: "A second call feeds it to the register, with the host's entry beside each value"): to the register of
// cells, or to the one with positions (E11), so that an assignment or a release moves its cell's position too. What is computed is one definition over both. A
// register is one value or stands in lent arrays, and an entry's kind, cell, carrier and width are numbers as in crates/register_arrays.
#![tactic(auto)]

ghost use Rattle.std.specs.Prelude.{◌≡◌, ◌<◌, length};
ghost use Rattle.catch_up.specs.Joining.{lent_list};
ghost use Rattle.group_register.specs.GroupRegister.{group_register};
ghost use Rattle.positions.specs.Placed.{register_with_positions};
ghost use Rattle.positions.specs.PlacedTaken.{cell_entry};
ghost use Rattle.feeding.specs.Feeding.{or_refused, begins_past, outside_fed, feed_refusal_number, feed_checked, fed_to, feed_all, SameLengths, same_lengths, entries_in, feeding_in, feeding};
ghost use Rattle.feeding.specs.Registers.{fed_list, entry_in, cell_register, placed_list, placed_entry_in, placed_register};

use basics::refusals::Refused;
use catch_up::{JoinRefusal, LentList};
use group_register::{GroupRefusal, RegisterSettings, UnmadeBy};
use positions::{PlacedEntry, PositionPlaces, PositionRefusal};
use register::{CellEntry, CellNumber, Entered, RegisterPlaces};

// The list as a host lends it: the commits, and beside each value its entry's kind, cell, carrier and width. Slices in place of one of entries, and a
// number as a kind: the C interface has them so.
#[derive(Clone, Copy)]
pub struct EntryList<'a> {
    pub commits: LentList<'a>,
    pub kinds: &'a [u64],
    pub cells: &'a [CellNumber],
    pub carriers: &'a [u64],
    pub widths: &'a [u64],
}

// The same with the coordinates of each entry, which are read where it is a position.
#[derive(Clone, Copy)]
pub struct PlacedList<'a> {
    pub entries: EntryList<'a>,
    pub xs: &'a [i64],
    pub ys: &'a [i64],
}

// The first slot whose entry was refused, and why.
#[derive(Clone, Copy)]
pub struct FirstRefused<W> {
    pub slot: u64,
    pub why: W,
}

// Why nothing of a list is fed: the register is not made (E13, E8); or the list, by 2, 18 or 19.
#[derive(Clone, Copy, PartialEq, Eq, Debug)]
pub enum FeedRefusal {
    Unmade(UnmadeBy),
    AsList(JoinRefusal),
}

const MOST_FED: usize = 8192;

impl Refused for FeedRefusal {
    ghost refusal_number = { feed_refusal_number };

    // Document 02's number. By `match`, since a cause of a list is itself one of several, each with its number.
    fn number(self) -> u64 {
        match self {
            FeedRefusal::Unmade(why) => why.number(),
            FeedRefusal::AsList(why) => why.number(),
        }
    }
}

// ---- whether a list is fed

// 18: more than 8,192 entries, slices of unequal length, or slots not consecutive.
#[tactic(auto, unfolding(crate::specs::Feeding::outside_fed))]
fn outside(commits: LentList, same_lengths: bool) -> bool
    ensures { result ≡ outside_fed (lent_list commits.entry) same_lengths }
{
    let length = commits.slots.len();
    MOST_FED < length
        || length != commits.values.len()
        || !same_lengths
        || !catch_up::consecutive(commits.slots)
}

// 19: the list has entries, and the first is past the slot after the last one seen.
fn begins_past(slots: &[u64], next_slot: u64) -> bool
    ensures { result ≡ begins_past next_slot slots.now }
{
    0 < slots.len() && next_slot < slots[0]
}

// 1 or 17 of a register that is not made, 2, 18 or 19: then nothing is fed.
#[tactic(auto, unfolding(crate::specs::Feeding::feed_checked))]
fn check(
    settings: RegisterSettings,
    next_slot: u64,
    commits: LentList,
    same_lengths: bool,
) -> Result<(), FeedRefusal>
    ensures { result ≡ feed_checked settings next_slot (lent_list commits.entry) same_lengths }
{
    if !settings.is_made() {
        return Err(FeedRefusal::Unmade(settings.unmade_by()));
    }
    if commits.too_large() {
        return Err(FeedRefusal::AsList(JoinRefusal::NumberTooLarge));
    }
    if outside(commits, same_lengths) {
        return Err(FeedRefusal::AsList(JoinRefusal::OutsideLimits));
    }
    if begins_past(commits.slots, next_slot) {
        return Err(FeedRefusal::AsList(JoinRefusal::Gap));
    }
    Ok(())
}

// ---- the entries of a list

impl EntryList<'_> {
    #[tactic(auto, unfolding(crate::specs::Feeding::all_are))]
    fn same_lengths(self) -> bool
        ensures { result ≡ same_lengths cell_register (fed_list self.entry) }
    {
        let length = self.commits.slots.len();
        length == self.kinds.len()
            && length == self.cells.len()
            && length == self.carriers.len()
            && length == self.widths.len()
    }

    // The entry at a place.
    fn entry(self, i: usize) -> CellEntry
        requires place { i < length self.commits.slots.now }
        requires same { SameLengths cell_register (fed_list self) }
        ensures { result ≡ entry_in (fed_list self.entry) i }
    {
        register_arrays::entry_from_numbers(
            self.commits.slots[i],
            self.kinds[i],
            self.cells[i],
            self.carriers[i],
            self.widths[i],
        )
    }
}

impl PlacedList<'_> {
    #[tactic(auto, unfolding(crate::specs::Feeding::all_are))]
    fn same_lengths(self) -> bool
        ensures { result ≡ same_lengths placed_register (placed_list self.entry) }
    {
        let length = self.entries.commits.slots.len();
        length == self.xs.len() && length == self.ys.len() && self.entries.same_lengths()
    }

    // The entry at a place.
    fn entry(self, i: usize) -> PlacedEntry
        requires place { i < length self.entries.commits.slots.now }
        requires same { SameLengths placed_register (placed_list self) }
        ensures { result ≡ placed_entry_in (placed_list self.entry) i }
    {
        register_arrays::positioned::placed_entry_of(
            self.entries.commits.slots[i],
            self.entries.kinds[i],
            self.entries.cells[i],
            self.entries.carriers[i],
            self.entries.widths[i],
            self.xs[i],
            self.ys[i],
        )
    }
}

// The slot of an entry.
fn slot_of(entry: PlacedEntry) -> u64
    ensures { result ≡ (cell_entry entry).slot }
{
    match entry {
        PlacedEntry::OfCell(entry) => entry.slot,
        PlacedEntry::OfPosition(entry) => entry.slot,
    }
}

// The first refused entry, after one more.
#[tactic(auto, unfolding(crate::specs::Feeding::or_refused))]
fn or_refused<W: Copy>(
    first: Option<FirstRefused<W>>,
    slot: u64,
    outcome: Result<Entered, W>,
) -> Option<FirstRefused<W>>
    ensures { result ≡ or_refused first slot outcome }
{
    match (first, outcome) {
        (None, Err(why)) => Some(FirstRefused { slot, why }),
        _ => first,
    }
}

// ---- a list fed

// Every entry of the list in its order. Here and in `feed_all_placed` the register is lent in another way, and so there are two loops.
#[tactic(auto, using(crate::proofs::FeedTurns::feed_next, crate::proofs::FeedTurns::feed_end))]
fn feed_all<R: RegisterPlaces>(
    settings: RegisterSettings,
    register: &mut R,
    list: EntryList,
) -> Option<FirstRefused<GroupRefusal>>
    requires { SameLengths cell_register (fed_list list) }
    ensures same { R.lent register.new ≡ R.lent register.old }
    ensures fed { fed_to result (group_register settings (R.register register.new))
        ≡ feed_all cell_register (fed_to None (group_register settings (R.register register.old))) (entries_in cell_register (fed_list list.entry)) }
{
    let mut first = None;
    // an index into the five slices, which a chain of four zips and its tuples would not make plainer
    for i in 0..list.commits.slots.len() {
        let entry = list.entry(i);
        let outcome = group_register::apply_in(settings, register, entry);
        first = or_refused(first, entry.slot, outcome);
    }
    first
}

#[tactic(auto, using(crate::proofs::FeedTurns::feed_next, crate::proofs::FeedTurns::feed_end))]
fn feed_all_placed<R: RegisterPlaces, P: PositionPlaces>(
    settings: RegisterSettings,
    register: &mut R,
    positions: &mut P,
    list: PlacedList,
) -> Option<FirstRefused<PositionRefusal>>
    requires { SameLengths placed_register (placed_list list) }
    ensures same { (R.lent register.new ≡ R.lent register.old) × (P.lent positions.new ≡ P.lent positions.old) }
    ensures plain { P.plain positions.old → P.plain positions.new }
    ensures fed { fed_to result (register_with_positions (group_register settings (R.register register.new)) (P.positions positions.new))
        ≡ feed_all placed_register (fed_to None (register_with_positions (group_register settings (R.register register.old)) (P.positions positions.old))) (entries_in placed_register (placed_list list.entry)) }
{
    let mut first = None;
    for i in 0..list.entries.commits.slots.len() {
        let entry = list.entry(i);
        let outcome = positions::apply_in(settings, register, positions, entry);
        first = or_refused(first, slot_of(entry), outcome);
    }
    first
}

// Feeds a list: a number and nothing fed, or every entry taken as in E6 and E13 and the first refused slot with its number.
#[tactic(auto, using(crate::proofs::FeedTurns::cells_same), unfolding(crate::specs::Feeding::feeding))]
pub fn feed<R: RegisterPlaces>(
    settings: RegisterSettings,
    register: &mut R,
    list: EntryList,
) -> Result<Option<FirstRefused<GroupRefusal>>, FeedRefusal>
    ensures same { R.lent register.new ≡ R.lent register.old }
    ensures fed { feeding_in result (group_register settings (R.register register.new))
        ≡ feeding cell_register (group_register settings (R.register register.old)) (fed_list list.entry) }
{
    check(
        settings,
        register.next_slot(),
        list.commits,
        list.same_lengths(),
    )?;
    Ok(feed_all(settings, register, list))
}

// The same with positions among the entries (E11).
#[tactic(auto, using(crate::proofs::FeedTurns::placed_same), unfolding(crate::specs::Feeding::feeding))]
pub fn feed_placed<R: RegisterPlaces, P: PositionPlaces>(
    settings: RegisterSettings,
    register: &mut R,
    positions: &mut P,
    list: PlacedList,
) -> Result<Option<FirstRefused<PositionRefusal>>, FeedRefusal>
    ensures same { (R.lent register.new ≡ R.lent register.old) × (P.lent positions.new ≡ P.lent positions.old) }
    ensures plain { P.plain positions.old → P.plain positions.new }
    ensures fed { feeding_in result (register_with_positions (group_register settings (R.register register.new)) (P.positions positions.new))
        ≡ feeding placed_register (register_with_positions (group_register settings (R.register register.old)) (P.positions positions.old)) (placed_list list.entry) }
{
    let commits = list.entries.commits;
    check(settings, register.next_slot(), commits, list.same_lengths())?;
    Ok(feed_all_placed(settings, register, positions, list))
}
