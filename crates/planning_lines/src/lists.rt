// The lines of `planning` that have lists of commits (docs/PLANNING.md; document 02, E10): `join PLACES s v s v .. | s v ..` joins two of them, and
// `feed s v ENTRY s v ENTRY ..` feeds one to the register. A list may be as long as a line: it is counted and its numbers are looked at while it is
// read, and as many entries as may be fed have places.
#![tactic(auto)]

ghost use Rattle.std.specs.Prelude.{◌≡◌, ◌+◌, ◌<◌, ◌≤◌, length};
ghost use Rattle.std.specs.Option.{option_map};
ghost use Rattle.texts.specs.Text.{put};
ghost use Rattle.catch_up.specs.Joining.{list_of, lent_list, lent_places, SamePlaces, join_count, JoinGives};
ghost use Rattle.feeding.specs.Feeding.{feeding_in};
ghost use Rattle.feeding.specs.Registers.{placed_list};
ghost use Rattle.planning_lines.specs.lists.Lists.{commit_item_at, with_entry, item_at, list_ends, items_from, list_behind, last_list, numbers_of_entry};
ghost use Rattle.planning_lines.specs.lists.Kept.{above_limits, nothing_kept, kept_more, kept_items, kept_commits, kept_entries};
ghost use Rattle.planning_lines.specs.lists.Joins.{join_asked, listed_commits_text, joining_text, join_text, joined_text, kept_refused, kept_joining, kept_asked};
ghost use Rattle.planning_lines.specs.lists.Feeds.{feed_asked, after_feed, refused_text, first_text, fed_text, feed_line_text, kept_feeding};
ghost use Rattle.planning_lines.specs.lists.Answers.{placed_after_list_line, list_line_answer};

use basics::refusals::Refused;
use catch_up::{JoinRefusal, LentList, LentPlaces};
use feeding::{EntryList, FeedRefusal, FirstRefused, PlacedList};
use positions::{PlacedRegister, PositionRefusal};
use register::{CellNumber, Change};
use register_lines::entries::CellSaid;
use texts::Output;

// What a line says from a place on, and where that ends: a slot and a value, and in a list that is fed the entry beside them; in one that is joined
// there is none, and a release of cell 0 stands for it.
#[derive(Clone, Copy)]
pub struct LineItem {
    pub slot: u64,
    pub value: u64,
    pub cell: CellNumber,
    pub said: CellSaid,
    pub end: usize,
}

// What an entry says besides its slot and cell, in numbers as a host lends them.
#[derive(Clone, Copy)]
pub struct EntryNumbers {
    pub kind: u64,
    pub carrier: u64,
    pub width: u64,
    pub x: i64,
    pub y: i64,
}

// What is kept of a list: how many entries it has, whether a slot or value among them is too large, where it ends, and the first 8,192 entries, with a
// entry in numbers as a host lends it. Arrays in place of one of entries, since the library joins and feeds such slices.
#[derive(Clone, Copy)]
pub struct LineList {
    pub count: usize,
    pub too_large: bool,
    pub end: usize,
    pub slots: [u64; 8192],
    pub values: [u64; 8192],
    pub kinds: [u64; 8192],
    pub cells: [CellNumber; 8192],
    pub carriers: [u64; 8192],
    pub widths: [u64; 8192],
    pub xs: [i64; 8192],
    pub ys: [i64; 8192],
}

// What a line `join` asks: how many places are lent, and the lists.
#[derive(Clone, Copy)]
pub struct JoinQuestion {
    pub places: u64,
    pub first: LineList,
    pub second: LineList,
}

const MOST_KEPT: usize = 8192;

const LEAST_PLACES: u64 = 8192;

// ---- a list

// `s v` from a place of a line on.
#[tactic(auto, unfolding(crate::specs::lists::Lists::commit_item_at))]
fn commit_item_at(line: &[u8], at: usize) -> Option<LineItem>
    ensures { result ≡ commit_item_at line.now at }
{
    let slot = texts::fields::number_field(line, at);
    let value = texts::fields::number_field(line, texts::fields::next_field(line, slot.end));
    Some(LineItem {
        slot: slot.number?,
        value: value.number?,
        cell: 0,
        said: CellSaid::Changed(Change::Release),
        end: value.end,
    })
}

// With the entry that a line has behind it.
#[tactic(auto, unfolding(crate::specs::lists::Lists::with_entry))]
fn with_entry(line: &[u8], item: LineItem) -> Option<LineItem>
    ensures { result ≡ with_entry line.now item }
{
    let beside = register_lines::entries::line_said_at(
        line,
        texts::fields::next_field(line, item.end),
    )?;
    Some(LineItem {
        cell: beside.cell,
        said: beside.said,
        end: beside.end,
        ..item
    })
}

// `s v`, or `s v ENTRY` in a list that is fed.
#[tactic(auto, unfolding(crate::specs::lists::Lists::item_at))]
fn item_at(line: &[u8], at: usize, fed: bool) -> Option<LineItem>
    ensures { result ≡ item_at fed line.now at }
{
    let item = commit_item_at(line, at)?;
    if fed {
        return with_entry(line, item);
    }
    Some(item)
}

// Whether a list ends there: with the line, or before a blank and the bar.
#[tactic(auto, unfolding(crate::specs::lists::Lists::list_ends))]
fn list_ends(line: &[u8], end: usize) -> bool
    ensures { result ≡ list_ends line.now end }
{
    end == line.len() || texts::fields::begins_at(line, end, b" |")
}

// Whether a slot or value is too large.
fn above_limits(item: LineItem) -> bool
    ensures { result ≡ above_limits item }
{
    item.slot > message::LARGEST_SLOT || item.value > message::LARGEST_NUMBER
}

// Kind 1 is an assignment, kind 2 a release and kind 3 a position.
fn numbers_of_entry(said: CellSaid) -> EntryNumbers
    ensures { result ≡ numbers_of_entry said }
{
    let none = EntryNumbers {
        kind: 2,
        carrier: 0,
        width: 0,
        x: 0,
        y: 0,
    };
    match said {
        CellSaid::Changed(Change::Assign(assignment)) => EntryNumbers {
            kind: 1,
            carrier: assignment.carrier,
            width: assignment.width,
            ..none
        },
        CellSaid::Changed(Change::Release) => none,
        CellSaid::Placed(position) => EntryNumbers {
            kind: 3,
            x: position.x,
            y: position.y,
            ..none
        },
    }
}

impl LineList {
    // An empty list behind a field that ends there.
    fn new(end: usize) -> LineList
        ensures { result ≡ nothing_kept end }
    {
        LineList {
            count: 0,
            too_large: false,
            end,
            slots: [0; 8192],
            values: [0; 8192],
            kinds: [0; 8192],
            cells: [0; 8192],
            carriers: [0; 8192],
            widths: [0; 8192],
            xs: [0; 8192],
            ys: [0; 8192],
        }
    }

    // One entry more, in the next place where there is one.
    #[tactic(auto, unfolding(crate::specs::lists::Kept::kept_more, call_lines::specs::Reading::put_in_place))]
    fn push(&mut self, item: LineItem)
        requires { self.old.count < 18446744073709551615 }
        ensures { self.new ≡ kept_more item self.old }
    {
        let at = self.count;
        if at < MOST_KEPT {
            let numbers = numbers_of_entry(item.said);
            self.slots[at] = item.slot;
            self.values[at] = item.value;
            self.kinds[at] = numbers.kind;
            self.cells[at] = item.cell;
            self.carriers[at] = numbers.carrier;
            self.widths[at] = numbers.width;
            self.xs[at] = numbers.x;
            self.ys[at] = numbers.y;
        }
        self.count = at + 1;
        self.too_large = self.too_large || above_limits(item);
        self.end = item.end;
    }

    // The commits that have places.
    fn commits(&self) -> LentList<'_>
        ensures { lent_list result ≡ kept_commits self.now }
    {
        let count = self.count.min(MOST_KEPT);
        LentList {
            slots: &self.slots[..count],
            values: &self.values[..count],
        }
    }

    // The same with the entries beside them.
    fn entries(&self) -> PlacedList<'_>
        ensures { placed_list result ≡ kept_entries self.now }
    {
        let count = self.count.min(MOST_KEPT);
        PlacedList {
            entries: EntryList {
                commits: self.commits(),
                kinds: &self.kinds[..count],
                cells: &self.cells[..count],
                carriers: &self.carriers[..count],
                widths: &self.widths[..count],
            },
            xs: &self.xs[..count],
            ys: &self.ys[..count],
        }
    }
}

// Reads the entries behind a field that ends there, and a blank.
#[tactic(auto, using(crate::proofs::lists::ListsRead::turn_none, crate::proofs::lists::ListsRead::turn_last, crate::proofs::lists::ListsRead::no_turn))]
fn read_items(line: &[u8], end: usize, fed: bool) -> Option<LineList>
    requires { end < length line.now }
    ensures { result ≡ option_map (kept_items end) (items_from fed line.now (end + 1) (length line.now)) }
{
    let mut list = LineList::new(end);
    let mut at = end + 1;
    for i in 0..line.len() {
        let item = item_at(line, at, fed)?;
        list.push(item);
        if list_ends(line, item.end) {
            return Some(list);
        }
        at = texts::fields::next_field(line, item.end);
    }
    None
}

// The list behind a field that ends there.
#[tactic(auto, using(crate::proofs::lists::ListsRead::blank_inside), unfolding(crate::specs::lists::Lists::list_behind, crate::specs::lists::Kept::kept_all))]
fn list_behind(line: &[u8], end: usize, fed: bool) -> Option<LineList>
    ensures { result ≡ option_map (kept_items end) (list_behind fed line.now end) }
{
    if list_ends(line, end) {
        return Some(LineList::new(end));
    }
    if texts::fields::begins_at(line, end, b" ") {
        return read_items(line, end, fed);
    }
    None
}

// The same, of a list with which the line ends.
#[tactic(auto, using(crate::proofs::lists::ListsRead::last_none, crate::proofs::lists::ListsRead::last_some, crate::proofs::lists::ListsRead::last_other))]
fn last_list(line: &[u8], end: usize, fed: bool) -> Option<LineList>
    ensures { result ≡ option_map (kept_items end) (last_list fed line.now end) }
{
    let list = list_behind(line, end, fed)?;
    if list.end == line.len() {
        return Some(list);
    }
    None
}

// ---- two lists joined

// What a line asks that begins with `join` and a blank.
#[tactic(auto, using(crate::proofs::lists::JoinsRead::no_places, crate::proofs::lists::JoinsRead::no_first, crate::proofs::lists::JoinsRead::no_bar, crate::proofs::lists::JoinsRead::no_second, crate::proofs::lists::ListsRead::bar_inside))]
fn join_question(line: &[u8]) -> Option<JoinQuestion>
    ensures { result ≡ option_map kept_asked (join_asked line.now) }
{
    let field = texts::fields::number_field(line, 5);
    let places = field.number?;
    let first = list_behind(line, field.end, false)?;
    if !texts::fields::begins_at(line, first.end, b" |") {
        return None;
    }
    let second = last_list(line, first.end + 2, false)?;
    Some(JoinQuestion {
        places,
        first,
        second,
    })
}

// 2 and 18 of all that was read.
#[tactic(auto, unfolding(crate::specs::lists::Joins::kept_refused))]
fn kept_refused(asked: &JoinQuestion) -> Result<(), JoinRefusal>
    ensures { result ≡ kept_refused asked.now }
{
    if asked.first.too_large || asked.second.too_large {
        return Err(JoinRefusal::NumberTooLarge);
    }
    if MOST_KEPT < asked.first.count
        || MOST_KEPT < asked.second.count
        || asked.places < LEAST_PLACES
    {
        return Err(JoinRefusal::OutsideLimits);
    }
    Ok(())
}

// The same, and else the join of what stands in the places.
fn join_in(asked: &JoinQuestion, places: &mut LentPlaces) -> Result<u64, JoinRefusal>
    requires { (length places.old.slots.now ≡ 8192) × (length places.old.values.now ≡ 8192) }
    ensures same { SamePlaces places.old places.new }
    ensures joined { JoinGives (kept_joining asked.now) (lent_places places.old) (lent_places places.new) result }
{
    kept_refused(asked)?;
    catch_up::join(asked.first.commits(), asked.second.commits(), places)
}

fn join_kept(
    asked: &JoinQuestion,
    slots: &mut [u64],
    values: &mut [u64],
) -> Result<u64, JoinRefusal>
    requires { (length slots.old ≡ 8192) × (length values.old ≡ 8192) }
    ensures { JoinGives (kept_joining asked.now) (list_of slots.old values.old) (list_of slots.new values.new) result }
{
    let mut places = LentPlaces { slots, values };
    join_in(asked, &mut places)
}

// Each slot with its value.
#[tactic(auto, using(crate::proofs::lists::JoinsRead::commit_put, crate::proofs::lists::JoinsRead::all_put))]
fn put_commits(out: &mut Output<'_>, slots: &[u64], values: &[u64])
    requires { length slots.now ≡ length values.now }
    ensures { out.new ≡ put (listed_commits_text (list_of slots.now values.now)) out.old }
{
    for i in 0..slots.len() {
        out.put_field(slots[i]);
        out.put_field(values[i]);
    }
}

// How many entries the join has, and each of them, which stand in the first places; or `refused` and the number.
#[tactic(auto, using(texts::proofs::Putting::put_then), unfolding(crate::specs::lists::Joins::joined_text))]
fn put_joined(out: &mut Output<'_>, joined: Result<u64, JoinRefusal>, slots: &[u64], values: &[u64])
    requires { (join_count joined ≤ length slots.now) × (join_count joined ≤ length values.now) }
    ensures { out.new ≡ put (joined_text joined slots.now values.now) out.old }
{
    match joined {
        Ok(count) => {
            out.put_number(count);
            let places = count as usize;
            put_commits(out, &slots[..places], &values[..places]);
            out.put_byte(b'\n');
        }
        Err(why) => texts::fields::put_line(out, b"refused", why.number()),
    }
}

// The lists that a line gives, joined.
#[tactic(auto, using(crate::proofs::lists::JoinsRead::joined_answer))]
fn put_join(out: &mut Output<'_>, asked: &JoinQuestion)
    ensures { out.new ≡ put (joining_text (kept_joining asked.now)) out.old }
{
    let mut slots = [0; 8192];
    let mut values = [0; 8192];
    let joined = join_kept(asked, &mut slots, &mut values);
    put_joined(out, joined, &slots, &values);
}

// The answer to a line that begins with `join` and a blank. Not in line, nor is that of `feed`: the lists take up to 4.2 MiB of stack, which others do without.
#[inline(never)]
#[tactic(auto, using(crate::proofs::lists::JoinsRead::asked_answer, crate::proofs::lists::JoinsRead::asked_bad))]
fn answer_join(line: &[u8], out: &mut Output<'_>)
    ensures { out.new ≡ put (join_text line.now) out.old }
{
    match join_question(line) {
        Some(asked) => put_join(out, &asked),
        None => crate::put_bad_line(out),
    }
}

// ---- a list fed

// 1 or 17 of a register that is not made, 2 and 18 of all that was read, and else what stands in the places is fed.
#[tactic(auto, unfolding(crate::specs::lists::Feeds::kept_feeding, crate::specs::lists::Feeds::kept_feeding_made))]
fn feed_kept(
    placed: &mut PlacedRegister,
    list: &LineList,
) -> Result<Option<FirstRefused<PositionRefusal>>, FeedRefusal>
    ensures { feeding_in result placed.new ≡ kept_feeding placed.old list.now }
{
    if !placed.group.settings.is_made() {
        return Err(FeedRefusal::Unmade(placed.group.settings.unmade_by()));
    }
    if list.too_large {
        return Err(FeedRefusal::AsList(JoinRefusal::NumberTooLarge));
    }
    if MOST_KEPT < list.count {
        return Err(FeedRefusal::AsList(JoinRefusal::OutsideLimits));
    }
    feeding::feed_placed(
        placed.group.settings,
        &mut placed.group.register,
        &mut placed.positions,
        list.entries(),
    )
}

// The first slot that was refused, and its number.
#[tactic(auto, using(texts::proofs::Putting::put_append), unfolding(crate::specs::lists::Feeds::refused_text, texts::specs::Text::put))]
fn put_refused(out: &mut Output<'_>, slot: u64, number: u64)
    ensures { out.new ≡ put (refused_text slot number) out.old }
{
    out.put_bytes(b"fed, slot");
    out.put_field(slot);
    texts::fields::put_line(out, b" refused", number);
}

#[tactic(auto, unfolding(crate::specs::lists::Feeds::first_text))]
fn put_first(out: &mut Output<'_>, first: Option<FirstRefused<PositionRefusal>>)
    ensures { out.new ≡ put (first_text first) out.old }
{
    match first {
        Some(refused) => put_refused(out, refused.slot, refused.why.number()),
        None => out.put_bytes(b"fed\n"),
    }
}

#[tactic(auto, unfolding(crate::specs::lists::Feeds::fed_text))]
fn put_fed(out: &mut Output<'_>, fed: Result<Option<FirstRefused<PositionRefusal>>, FeedRefusal>)
    ensures { out.new ≡ put (fed_text fed) out.old }
{
    match fed {
        Ok(first) => put_first(out, first),
        Err(why) => texts::fields::put_line(out, b"refused", why.number()),
    }
}

// The answer to a line that begins with `feed`; the register is the one that it leaves.
#[inline(never)]
#[tactic(auto, using(crate::proofs::lists::FeedsRead::bad_register, crate::proofs::lists::FeedsRead::bad_answer))]
fn answer_feed(placed: &mut PlacedRegister, line: &[u8], out: &mut Output<'_>)
    ensures placed { placed.new ≡ after_feed placed.old (feed_asked line.now) }
    ensures put { out.new ≡ put (feed_line_text placed.old (feed_asked line.now)) out.old }
{
    match last_list(line, 4, true) {
        Some(list) => {
            let fed = feed_kept(placed, &list);
            put_fed(out, fed);
        }
        None => crate::put_bad_line(out),
    }
}

// The answer to a line of `planning`; the register is the one that the line leaves.
#[tactic(auto, unfolding(crate::specs::lists::Answers::placed_after_list_line, crate::specs::lists::Answers::list_line_answer))]
pub fn answer_line(placed: &mut PlacedRegister, line: &[u8], out: &mut Output<'_>)
    ensures placed { placed.new ≡ placed_after_list_line placed.old line.now }
    ensures put { out.new ≡ put (list_line_answer placed.old line.now) out.old }
{
    if texts::fields::begins(line, b"join ") {
        answer_join(line, out);
        return;
    }
    if texts::fields::begins(line, b"feed") {
        answer_feed(placed, line, out);
        return;
    }
    crate::placed::answer_line(placed, line, out);
}
