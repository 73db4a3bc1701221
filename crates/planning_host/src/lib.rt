// What a host in C, C++ or Rust calls of the planning modules: numbers in and numbers out (include/chanbook_planning.h).
#![tactic(auto)]

ghost use Rattle.std.specs.Prelude.{◌≡◌, None, replicate};
ghost use Rattle.register_arrays.specs.Columns.{entry_from_numbers};
ghost use Rattle.group_register.specs.GroupRegister.{new_group_register};
ghost use Rattle.register_arrays.specs.in_group.GroupColumns.{settings_in, group_in, after_group_entry, group_report_in};
ghost use Rattle.register_arrays.specs.stored.Columns.{stored_in};
ghost use Rattle.catch_up.specs.Joining.{list_of};
ghost use Rattle.feeding.specs.Registers.{fed_list_of, cell_register, placed_columns, placed_register};
ghost use Rattle.planning_host.specs.Begun.{register_settings, widened_with};
ghost use Rattle.planning_host.specs.Conversions.{flat_value, flat_raster, flat_khz, flat_carrier_number, flat_minute, flat_date};
ghost use Rattle.group_settings.specs.GroupSettings.{flat_settings_number};
ghost use Rattle.windows.specs.Windows.{kept_in, ask_kept};
ghost use Rattle.planning_host.specs.Asked.{kept_settings, flat_window_answer};
ghost use Rattle.group_register.specs.Settings.{is_made};
ghost use Rattle.register_arrays.specs.positioned.Row.{positions_in, Plain, placed_entry_of};
ghost use Rattle.reach.specs.Cells.{cells_of};
ghost use Rattle.reach.specs.Reach.{conflicts_of, first_free};
ghost use Rattle.planning_host.specs.Reach.{placed_in_arrays, after_placed_entry, question_of, flat_reach_answer, flat_list};
ghost use Rattle.planning_host.specs.Lists.{JoinsFlat, flat_fed, FeedsFlat};

use basics::refusals::{Refused, refusal};
use calendar::{Date, NotInCalendar};
use catch_up::{LentList, LentPlaces};
use feeding::{EntryList, FeedRefusal, FirstRefused, PlacedList};
use group_register::RegisterSettings;
use group_settings::FlatGroupSettings;
use positions::Position;
use raster::NotOnRaster;
use reach::Question;
use register::{CellNumber, entry_number};
use register_arrays::in_group::{
    apply_group_entry, new_group_register, put_group_page, settings_in, widen_in_group,
};
use register_arrays::positioned::{CellPosition, LentCells, PositionRow};
use register_arrays::stored::StoredColumns;
use register_arrays::{CellsArray, Columns, FiguresArray};
use windows::{WindowAnswer, WindowRefusal};

// The number of document 02 that refuses, with 0 as the value; or 0 and the value: a Result or an Option as the C interface has it.
#[repr(C)]
#[derive(Clone, Copy)]
pub struct FlatValue {
    pub refusal: u64,
    pub value: u64,
}

// What became of a list that was to be fed: the number that refuses it, with nothing fed; or 0, and the first slot that was refused with its number,
// both 0 where none was: numbers, for the C interface.
#[repr(C)]
#[derive(Clone, Copy)]
pub struct FlatFed {
    pub refusal: u64,
    pub slot: u64,
    pub number: u64,
}

// A date, or the number of document 02 that refuses, with zeros as the date: an Option as the C interface has it.
#[repr(C)]
#[derive(Clone, Copy)]
pub struct FlatDateAnswer {
    pub refusal: u64,
    pub date: Date,
}

// What is said of a minute: 65, it is inside a window; 66, the minute is the first of the nearest later window; 67, none follows; or the number of
// document 02 that refuses. The minute is 0 but with 66. Numbers and no enum: the C interface.
#[repr(C)]
#[derive(Clone, Copy)]
pub struct FlatWindowAnswer {
    pub answer: u64,
    pub minute: u64,
}

fn flat_value<E: Copy + Refused>(given: Result<u64, E>) -> FlatValue
    ensures { result ≡ flat_value E.refusal_number given }
{
    FlatValue {
        refusal: refusal(given),
        value: given.unwrap_or(0),
    }
}

#[tactic(auto, using(crate::proofs::Laws::raster_as_result))]
fn flat_raster(answer: Option<u64>) -> FlatValue
    ensures { result ≡ flat_raster answer }
{
    flat_value(answer.ok_or(NotOnRaster))
}

// E5: the frequency of a carrier number, in kHz.
#[unsafe(no_mangle)]
pub extern "C" fn chanbook_raster_khz(number: u64) -> FlatValue
    ensures { result ≡ flat_khz number }
{
    flat_raster(raster::frequency_of(number))
}

// E5: the carrier number of a frequency in kHz.
#[unsafe(no_mangle)]
pub extern "C" fn chanbook_raster_number(khz: u64) -> FlatValue
    ensures { result ≡ flat_carrier_number khz }
{
    flat_raster(raster::number_of(khz))
}

// What a register keeps of the settings of its group: their number, and E13's slot.
fn register_settings(group: FlatGroupSettings) -> RegisterSettings
    ensures { result ≡ register_settings group }
{
    RegisterSettings {
        number: group_settings::flat_settings_number(group),
        whole_mhz_from: group.whole_mhz_from,
    }
}

// E6 and E13: a register of the settings of its group that has seen no entry, in five arrays that the host lends (register_arrays::in_group says what stands
// where).
#[unsafe(no_mangle)]
pub extern "C" fn chanbook_register_new(
    group: FlatGroupSettings,
    settings: &mut [u64; 2],
    cells: &mut CellsArray,
    carriers: &mut CellsArray,
    widths: &mut CellsArray,
    figures: &mut FiguresArray,
)
    ensures { group_in settings.new cells.new carriers.new widths.new figures.new ≡ new_group_register (register_settings group) }
{
    let mut columns = Columns {
        cells,
        carriers,
        widths,
        figures,
    };
    new_group_register(register_settings(group), settings, &mut columns);
}

// E6 and E13: an entry. Kind 1 is an assignment, kind 2 a release, any other kind is refused with 14. Hands back 0, done; 64, older; or the number of
// document 02 that refuses.
#[unsafe(no_mangle)]
pub extern "C" fn chanbook_register_entry(
    settings: &[u64; 2],
    cells: &mut CellsArray,
    carriers: &mut CellsArray,
    widths: &mut CellsArray,
    figures: &mut FiguresArray,
    slot: u64,
    kind: u64,
    cell: CellNumber,
    carrier: u64,
    width: u64,
) -> u64
    ensures { (group_in settings.now cells.new carriers.new widths.new figures.new, result)
        ≡ after_group_entry (group_in settings.now cells.old carriers.old widths.old figures.old) (entry_from_numbers slot kind cell carrier width) }
{
    let mut columns = Columns {
        cells,
        carriers,
        widths,
        figures,
    };
    apply_group_entry(settings, &mut columns, slot, kind, cell, carrier, width)
}

// E6 and E13: the report at the start of out, or the line `refused,1` or `refused,17` of a register that is not made, zeros after it; hands back its
// length.
#[unsafe(no_mangle)]
pub extern "C" fn chanbook_register_report(
    settings: &[u64; 2],
    figures: &FiguresArray,
    out: &mut [u8; 116],
) -> u64
    ensures { (out.new, result) ≡ group_report_in settings.now figures.now }
{
    put_group_page(settings, figures, out)
}

// E7 and E13: the register that a stored one becomes, whose cells have numbers of 16 bits, with the settings of its group.
#[unsafe(no_mangle)]
pub extern "C" fn chanbook_register_widened(
    group: FlatGroupSettings,
    stored_cells: &[u16; 512],
    stored_carriers: &CellsArray,
    stored_widths: &CellsArray,
    stored_figures: &FiguresArray,
    settings: &mut [u64; 2],
    cells: &mut CellsArray,
    carriers: &mut CellsArray,
    widths: &mut CellsArray,
    figures: &mut FiguresArray,
)
    ensures { group_in settings.new cells.new carriers.new widths.new figures.new
        ≡ widened_with group (stored_in stored_cells.now stored_carriers.now stored_widths.now stored_figures.now) }
{
    let stored = StoredColumns {
        cells: stored_cells,
        carriers: stored_carriers,
        widths: stored_widths,
        figures: stored_figures,
    };
    let mut columns = Columns {
        cells,
        carriers,
        widths,
        figures,
    };
    widen_in_group(register_settings(group), stored, settings, &mut columns);
}

// E10: joins two lists, each a slice of slots and a slice of values, into the lent places. The value is how many entries stand in the first places.
#[unsafe(no_mangle)]
pub extern "C" fn chanbook_join(
    a_slots: &[u64],
    a_values: &[u64],
    b_slots: &[u64],
    b_values: &[u64],
    slots: &mut [u64],
    values: &mut [u64],
) -> FlatValue
    ensures { JoinsFlat (list_of a_slots.now a_values.now) (list_of b_slots.now b_values.now)
        (list_of slots.old values.old) (list_of slots.new values.new) result }
{
    let a = LentList {
        slots: a_slots,
        values: a_values,
    };
    let b = LentList {
        slots: b_slots,
        values: b_values,
    };
    let mut places = LentPlaces { slots, values };
    flat_value(catch_up::join(a, b, &mut places))
}

fn flat_fed<W: Copy + Refused>(fed: Result<Option<FirstRefused<W>>, FeedRefusal>) -> FlatFed
    ensures { result ≡ flat_fed W.refusal_number fed }
{
    let refusal = refusal(fed);
    match fed {
        Ok(Some(first)) => FlatFed {
            refusal,
            slot: first.slot,
            number: first.why.number(),
        },
        _ => FlatFed {
            refusal,
            slot: 0,
            number: 0,
        },
    }
}

// E10: feeds a list, with the host's entry beside each value, to a register: kinds, cells, carriers and widths as in chanbook_register_entry.
#[unsafe(no_mangle)]
pub extern "C" fn chanbook_feed(
    settings: &[u64; 2],
    cells: &mut CellsArray,
    carriers: &mut CellsArray,
    widths: &mut CellsArray,
    figures: &mut FiguresArray,
    slots: &[u64],
    values: &[u64],
    kinds: &[u64],
    entry_cells: &[CellNumber],
    entry_carriers: &[u64],
    entry_widths: &[u64],
) -> FlatFed
    ensures { FeedsFlat cell_register (group_in settings.now cells.old carriers.old widths.old figures.old)
        (fed_list_of slots.now values.now kinds.now entry_cells.now entry_carriers.now entry_widths.now)
        (group_in settings.now cells.new carriers.new widths.new figures.new) result }
{
    let mut columns = Columns {
        cells,
        carriers,
        widths,
        figures,
    };
    let list = EntryList {
        commits: LentList { slots, values },
        kinds,
        cells: entry_cells,
        carriers: entry_carriers,
        widths: entry_widths,
    };
    flat_fed(feeding::feed(settings_in(settings), &mut columns, list))
}

// E11: no cell has a position, in an array that the host lends beside those of a register.
#[unsafe(no_mangle)]
pub extern "C" fn chanbook_positions_new(positions: &mut [CellPosition; 512])
    ensures none { positions_in positions.new ≡ replicate 512 None }
    ensures plain { Plain positions.new }
{
    let mut row = PositionRow { cells: positions };
    row.clear();
}

// E11: an entry of a register with positions. Kind 3 is a position, of which x and y are read; the other kinds are those of chanbook_register_entry. A host
// that lends positions gives every entry here, so that they stay beside their cells.
#[unsafe(no_mangle)]
pub extern "C" fn chanbook_placed_entry(
    settings: &[u64; 2],
    cells: &mut CellsArray,
    carriers: &mut CellsArray,
    widths: &mut CellsArray,
    figures: &mut FiguresArray,
    positions: &mut [CellPosition; 512],
    slot: u64,
    kind: u64,
    cell: CellNumber,
    carrier: u64,
    width: u64,
    x: i64,
    y: i64,
) -> u64
    ensures plain { Plain positions.old → Plain positions.new }
    ensures applied { (placed_in_arrays settings.now cells.new carriers.new widths.new figures.new positions.new, result) ≡ after_placed_entry (placed_in_arrays settings.now cells.old carriers.old widths.old figures.old positions.old) (placed_entry_of slot kind cell carrier width (record { x = x; y = y })) }
{
    let mut columns = Columns {
        cells,
        carriers,
        widths,
        figures,
    };
    let mut row = PositionRow { cells: positions };
    let entry = register_arrays::positioned::placed_entry_of(
        slot, kind, cell, carrier, width, x, y,
    );
    entry_number(register_arrays::positioned::apply_in_arrays(
        settings,
        &mut columns,
        &mut row,
        entry,
    ))
}

// E10 and E11: feeds a list, with the host's entry beside each value, to a register with positions: what chanbook_placed_entry is given of an entry.
#[unsafe(no_mangle)]
pub extern "C" fn chanbook_placed_feed(
    settings: &[u64; 2],
    cells: &mut CellsArray,
    carriers: &mut CellsArray,
    widths: &mut CellsArray,
    figures: &mut FiguresArray,
    positions: &mut [CellPosition; 512],
    slots: &[u64],
    values: &[u64],
    kinds: &[u64],
    entry_cells: &[CellNumber],
    entry_carriers: &[u64],
    entry_widths: &[u64],
    entry_xs: &[i64],
    entry_ys: &[i64],
) -> FlatFed
    ensures plain { Plain positions.old → Plain positions.new }
    ensures fed { FeedsFlat placed_register (placed_in_arrays settings.now cells.old carriers.old widths.old figures.old positions.old)
        (placed_columns (fed_list_of slots.now values.now kinds.now entry_cells.now entry_carriers.now entry_widths.now) entry_xs.now entry_ys.now)
        (placed_in_arrays settings.now cells.new carriers.new widths.new figures.new positions.new) result }
{
    let mut columns = Columns {
        cells,
        carriers,
        widths,
        figures,
    };
    let mut row = PositionRow { cells: positions };
    let list = PlacedList {
        entries: EntryList {
            commits: LentList { slots, values },
            kinds,
            cells: entry_cells,
            carriers: entry_carriers,
            widths: entry_widths,
        },
        xs: entry_xs,
        ys: entry_ys,
    };
    flat_fed(feeding::feed_placed(settings_in(settings), &mut columns, &mut row, list))
}

// E11: the numbers of the cells that a carrier conflicts with, in the first of the lent places. The value is how many they are.
#[unsafe(no_mangle)]
pub extern "C" fn chanbook_conflicts(
    settings: &[u64; 2],
    cells: &CellsArray,
    carriers: &CellsArray,
    widths: &CellsArray,
    figures: &FiguresArray,
    positions: &[CellPosition; 512],
    carrier: u64,
    width: u64,
    x: i64,
    y: i64,
    distance: u64,
    numbers: &mut CellsArray,
) -> FlatValue
    ensures { (result, numbers.new) ≡ flat_list (conflicts_of (settings_in settings.now) (cells_of (placed_in_arrays settings.now cells.now carriers.now widths.now figures.now positions.now)) carrier (question_of width x y distance) numbers.old) }
{
    let lent = LentCells {
        settings,
        cells,
        carriers,
        widths,
        figures,
        positions,
    };
    let question = question_of(width, x, y, distance);
    flat_value(reach::conflicts_of(&lent, carrier, question, numbers).map(|count| count as u64))
}

// E11: the lowest carrier of a range that conflicts with none, as the value.
#[unsafe(no_mangle)]
pub extern "C" fn chanbook_first_free(
    settings: &[u64; 2],
    cells: &CellsArray,
    carriers: &CellsArray,
    widths: &CellsArray,
    figures: &FiguresArray,
    positions: &[CellPosition; 512],
    first: u64,
    last: u64,
    width: u64,
    x: i64,
    y: i64,
    distance: u64,
) -> FlatValue
    ensures { result ≡ flat_reach_answer (first_free (settings_in settings.now) (cells_of (placed_in_arrays settings.now cells.now carriers.now widths.now figures.now positions.now)) first last (question_of width x y distance)) }
{
    let lent = LentCells {
        settings,
        cells,
        carriers,
        widths,
        figures,
        positions,
    };
    let question = question_of(width, x, y, distance);
    flat_value(reach::first_free(&lent, first, last, question))
}

fn question_of(width: u64, x: i64, y: i64, distance: u64) -> Question
    ensures { result ≡ question_of width x y distance }
{
    Question {
        width,
        position: Position { x, y },
        distance,
    }
}

// E8: the minute of a date, since 1970-01-01 00:00 UTC.
#[unsafe(no_mangle)]
#[tactic(auto, using(crate::proofs::Laws::minute_as_result))]
pub extern "C" fn chanbook_minute_of(date: Date) -> FlatValue
    ensures { result ≡ flat_minute date }
{
    flat_value(date.to_minute().ok_or(NotInCalendar))
}

// E8: the date of a minute.
#[unsafe(no_mangle)]
pub extern "C" fn chanbook_date_of(minute: u64) -> FlatDateAnswer
    ensures { result ≡ flat_date minute }
{
    match calendar::to_date(minute) {
        Some(date) => FlatDateAnswer { refusal: 0, date },
        None => FlatDateAnswer {
            refusal: NotInCalendar.number(),
            date: Date::default(),
        },
    }
}

// E8: what is kept of the windows of group settings, in arrays that the host lends: the number of the settings, how many windows there are, and the minutes in
// which each starts and ends. Hands back that number.
#[unsafe(no_mangle)]
pub extern "C" fn chanbook_windows_new(
    group: FlatGroupSettings,
    starts: &mut [u64; 128],
    ends: &mut [u64; 128],
    figures: &mut [u64; 2],
) -> u64
    ensures kept { kept_in starts.new ends.new figures.new ≡ kept_settings group }
    ensures number { result ≡ flat_settings_number group }
{
    let number = group_settings::flat_settings_number(group);
    if number == 0 {
        windows::keep(&group.windows, starts, ends, figures);
    } else {
        *starts = [0; 128];
        *ends = [0; 128];
        *figures = [number, 0];
    }
    number
}

fn flat_window_answer(answer: Result<WindowAnswer, WindowRefusal>) -> FlatWindowAnswer
    ensures { result ≡ flat_window_answer answer }
{
    let (answer, minute) = match answer {
        Ok(WindowAnswer::Inside) => (65, 0),
        Ok(WindowAnswer::Next(minute)) => (66, minute),
        Ok(WindowAnswer::NoneFollows) => (67, 0),
        Err(why) => (why.number(), 0),
    };
    FlatWindowAnswer { answer, minute }
}

// E8: a minute asked of what is kept in the arrays, whatever they hold.
#[unsafe(no_mangle)]
pub extern "C" fn chanbook_windows_ask(
    starts: &[u64; 128],
    ends: &[u64; 128],
    figures: &[u64; 2],
    minute: u64,
) -> FlatWindowAnswer
    ensures { result ≡ flat_window_answer (ask_kept (kept_in starts.now ends.now figures.now) minute) }
{
    flat_window_answer(windows::ask_arrays(starts, ends, figures, minute))
}
