// Change windows (document 02, E8): their check when settings are made, what is kept of them for questions, and whether a minute is inside one, and if
// not, when the next begins. A question looks at the kept minutes alone, and at no date.
#![tactic(auto)]

ghost use Rattle.std.specs.Prelude.{◌≡◌, ◌≤◌, ◌&&◌, [], cond, ltb, min};
ghost use Rattle.std.specs.List.{filter, reduce};
ghost use Rattle.windows.specs.Windows.{is_window, all_fit, agreed_windows, check_windows, holds_minute, some_holds, nearest_start, ask_minutes, window_refusal_number, made_of, kept_windows, kept_of, kept_arrays, kept_in, ask_kept};

use basics::refusals::Refused;
use calendar::Date;

// The first minute belongs to the window and the last does not.
#[repr(C)]
#[derive(Clone, Copy, PartialEq, Eq, Debug, Default)]
pub struct Window {
    pub start: Date,
    pub end: Date,
}

// The first `count` places hold the windows, in any order; they may overlap. The other places are never looked at.
// An array with a count, and no Vec: fixed memory without heap, laid out as C has it.
#[repr(C)]
#[derive(Clone, Copy)]
pub struct Windows {
    pub places: [Window; 128],
    pub count: u64,
}

// What is kept of windows that are made: how many there are, and in the first places the minutes in which each starts and ends.
// Two arrays with a count: fixed memory without heap, and the same arrays as a host lends.
#[derive(Clone, Copy)]
pub struct KeptWindows {
    pub starts: [u64; 128],
    pub ends: [u64; 128],
    pub count: u64,
}

// Why windows, or a question about them, are refused, with document 02's numbers.
#[derive(Clone, Copy, PartialEq, Eq, Debug)]
pub enum WindowRefusal {
    // More than 128 windows.
    TooManyWindows = 1,
    // A date or a time that there is not, a window whose end is not after its start, a minute past the year 9999.
    NotInCalendar = 17,
}

// What is said of a minute: it is inside a window, or the first minute of the nearest later window, or that none follows.
#[derive(Clone, Copy, PartialEq, Eq, Debug)]
pub enum WindowAnswer {
    Inside,
    Next(u64),
    NoneFollows,
}

// The first minute past the year 9999.
const PAST_LAST_YEAR: u64 = 4223371680;

impl Refused for WindowRefusal {
    ghost refusal_number = { window_refusal_number };

    // Document 02's number.
    fn number(self) -> u64 {
        self as u64
    }
}

impl Window {
    #[tactic(auto, unfolding(crate::specs::Windows::is_window))]
    fn is_window(&self) -> bool
        ensures { result ≡ is_window self.now }
    {
        self.start.is_date() && self.end.is_date() && self.start.minutes() < self.end.minutes()
    }
}

impl Windows {
    // The windows, without the places that are never looked at.
    fn agreed(&self) -> &[Window]
        requires { self.now.count ≤ 128 }
        ensures { result.now ≡ agreed_windows self.now }
    {
        &self.places[..self.count as usize]
    }

    #[tactic(auto, unfolding(crate::specs::Windows::all_fit))]
    fn all_fit(&self) -> bool
        requires { self.now.count ≤ 128 }
        ensures { result ≡ all_fit (agreed_windows self.now) }
    {
        self.agreed().iter().all(|window| window.is_window())
    }

    // More than 128 windows are refused before any date is looked at.
    #[tactic(auto, unfolding(crate::specs::Windows::check_windows))]
    pub fn check(&self) -> Result<(), WindowRefusal>
        ensures { result ≡ check_windows self.now }
    {
        if self.count > 128 {
            return Err(WindowRefusal::TooManyWindows);
        }
        if self.all_fit() {
            Ok(())
        } else {
            Err(WindowRefusal::NotInCalendar)
        }
    }

    // The minutes in which each window starts and ends. Both arrays are written by the index, of which `iter_mut` of two and a third would be zipped: no
    // plainer.
    #[tactic(auto, using(crate::proofs::Turns::made, crate::proofs::Turns::fits_at, crate::proofs::Turns::start_fits, crate::proofs::Turns::end_fits, crate::proofs::Kept::count_few, crate::proofs::Kept::agreed_length, crate::proofs::Kept::starts_next, crate::proofs::Kept::ends_next, crate::proofs::Kept::starts_all, crate::proofs::Kept::ends_all), unfolding(basics::specs::elements::Places::at_front))]
    fn minutes(&self) -> KeptWindows
        requires { check_windows self.now ≡ Ok tt }
        ensures { result ≡ made_of (agreed_windows self.now) }
    {
        let mut starts = [0; 128];
        let mut ends = [0; 128];
        for (i, window) in self.agreed().iter().enumerate() {
            starts[i] = window.start.minutes();
            ends[i] = window.end.minutes();
        }
        KeptWindows {
            starts,
            ends,
            count: self.count,
        }
    }

    // Checks the windows, and keeps their minutes where they are made.
    #[tactic(auto, using(crate::proofs::Kept::kept_made, crate::proofs::Kept::kept_refused_first))]
    pub fn kept(&self) -> Result<KeptWindows, WindowRefusal>
        ensures { result ≡ kept_windows self.now }
    {
        self.check()?;
        Ok(self.minutes())
    }
}

#[tactic(auto, unfolding(crate::specs::Windows::holds_minute))]
fn holds(minute: u64, start: u64, end: u64) -> bool
    ensures { result ≡ holds_minute minute start end }
{
    start <= minute && minute < end
}

// Starts and ends are two parameters, here and below: they are cut out of the arrays that a host lends, and the nearest start is looked for in the starts
// alone. A struct of the two would be made for `ask_minutes` and taken apart there.
#[tactic(auto, unfolding(crate::specs::Windows::some_holds))]
fn some_holds(minute: u64, starts: &[u64], ends: &[u64]) -> bool
    ensures { result ≡ some_holds minute starts.now ends.now }
{
    starts
        .iter()
        .zip(ends)
        .any(|(start, end)| holds(minute, *start, *end))
}

// The least of the starts that are later and in the calendar.
fn least_later(minute: u64, starts: &[u64]) -> Option<u64>
    ensures { result ≡ reduce min (filter (λ start. ltb minute start && ltb start 4223371680) starts.now) }
{
    starts
        .iter()
        .copied()
        .filter(|start| minute < *start && *start < PAST_LAST_YEAR)
        .min()
}

// The nearest start after the minute, or none where no window begins after it up to the year 9999.
#[tactic(auto, using(crate::proofs::Turns::nearest_least))]
fn nearest_start(minute: u64, starts: &[u64]) -> Option<u64>
    ensures { let nearest = nearest_start minute starts.now 4223371680 in result ≡ cond (ltb nearest 4223371680) (Some nearest) None }
{
    least_later(minute, starts)
}

#[tactic(auto, unfolding(crate::specs::Windows::ask_minutes, crate::specs::Windows::next_after))]
fn ask_minutes(starts: &[u64], ends: &[u64], minute: u64) -> Result<WindowAnswer, WindowRefusal>
    ensures { result ≡ ask_minutes starts.now ends.now minute }
{
    if minute >= PAST_LAST_YEAR {
        return Err(WindowRefusal::NotInCalendar);
    }
    if some_holds(minute, starts, ends) {
        return Ok(WindowAnswer::Inside);
    }
    match nearest_start(minute, starts) {
        Some(next) => Ok(WindowAnswer::Next(next)),
        None => Ok(WindowAnswer::NoneFollows),
    }
}

// A minute asked of what is kept in arrays of numbers, whatever they hold. The first figure is the number of a refusal and no Result: a host lends it.
#[tactic(auto, unfolding(crate::specs::Windows::ask_kept, crate::specs::Windows::check_kept, crate::specs::Windows::ask_checked))]
pub fn ask_arrays(
    starts: &[u64; 128],
    ends: &[u64; 128],
    figures: &[u64; 2],
    minute: u64,
) -> Result<WindowAnswer, WindowRefusal>
    ensures { result ≡ ask_kept (kept_in starts.now ends.now figures.now) minute }
{
    match *figures {
        [17, _] => Err(WindowRefusal::NotInCalendar),
        [0, count] if count <= 128 => {
            let end = count as usize;
            ask_minutes(&starts[..end], &ends[..end], minute)
        }
        _ => Err(WindowRefusal::TooManyWindows),
    }
}

impl KeptWindows {
    // No window at all.
    #[tactic(auto, unfolding(basics::specs::elements::Places::at_front))]
    pub fn none() -> KeptWindows
        ensures { result ≡ made_of [] }
    {
        KeptWindows {
            starts: [0; 128],
            ends: [0; 128],
            count: 0,
        }
    }

    pub fn ask(&self, minute: u64) -> Result<WindowAnswer, WindowRefusal>
        ensures { result ≡ ask_kept (kept_arrays (Ok self.now)) minute }
    {
        ask_arrays(&self.starts, &self.ends, &[0, self.count], minute)
    }
}

// What is kept of windows, in arrays of numbers that a host lends: the figures are document 02's number, 0 where the windows are made, and how many
// windows are kept.
#[tactic(auto, unfolding(crate::specs::Windows::kept_of))]
pub fn keep(
    windows: &Windows,
    starts: &mut [u64; 128],
    ends: &mut [u64; 128],
    figures: &mut [u64; 2],
)
    ensures { kept_in starts.new ends.new figures.new ≡ kept_of windows.now }
{
    match windows.kept() {
        Ok(kept) => {
            let KeptWindows {
                starts: all_starts,
                ends: all_ends,
                count,
            } = kept;
            *starts = all_starts;
            *ends = all_ends;
            *figures = [0, count];
        }
        Err(why) => {
            *starts = [0; 128];
            *ends = [0; 128];
            *figures = [why.number(), 0];
        }
    }
}
