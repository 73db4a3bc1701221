// The Gregorian calendar of the years 1970 to 9999: dates to minutes since 1970-01-01 00:00 UTC and back. Every number is answered: for a date
// or a time that there is not, and for a minute past the year 9999, by None. What such an answer has as its number is NotInCalendar.
#![tactic(auto)]

ghost use Rattle.std.specs.Prelude.{◌≡◌, true, ◌≤◌, ◌<◌};
ghost use Rattle.calendar.specs.Calendar.{is_leap, days_of_years, month_days, days_of_months, is_month, is_day, is_time, is_date, days_before, minute_of, to_minute, year_of, month_of, date_of, to_date, EarlyYear, not_in_calendar};

use basics::refusals::Refused;

// A day of the calendar with the time of day, in UTC. Five numbers of 64 bits, so that any can be asked of.
#[repr(C)]
#[derive(Clone, Copy, PartialEq, Eq, PartialOrd, Ord, Debug, Default)]
pub struct Date {
    pub year: u64,
    pub month: u64,
    pub day: u64,
    pub hour: u64,
    pub minute: u64,
}

// Why there is no minute, or no date.
#[derive(Clone, Copy, PartialEq, Eq, Debug)]
pub struct NotInCalendar;

impl Refused for NotInCalendar {
    ghost refusal_number = { not_in_calendar };

    // "17, a date that the calendar or those years lack, a time outside the day"
    fn number(self) -> u64 {
        17
    }
}

#[tactic(auto, unfolding(crate::specs::Calendar::is_leap))]
fn is_leap(year: u64) -> bool
    ensures { result ≡ is_leap year }
{
    year % 4 == 0 && (year % 100 != 0 || year % 400 == 0)
}

// The days of the first k years from 1970 on: the leap years among them are counted by divisions.
#[tactic(auto, using(crate::proofs::Years::closed))]
fn days_of_years(k: u64) -> u64
    requires { k ≤ 8030 }
    ensures { result ≡ days_of_years k }
{
    365 * k + (k + 1) / 4 + (k + 369) / 400 - (k + 69) / 100
}

#[tactic(auto, unfolding(crate::specs::Calendar::month_days))]
fn month_days(leap: bool, month: u64) -> u64
    ensures { result ≡ month_days leap month }
{
    match month {
        2 if leap => 29,
        2 => 28,
        4 | 6 | 9 | 11 => 30,
        _ => 31,
    }
}

// The days of the first k months. The division gives February 30 days.
#[tactic(auto, using(crate::proofs::Months::short_months, crate::proofs::Months::leap_months, crate::proofs::Months::other_months))]
fn days_of_months(leap: bool, k: u64) -> u64
    requires { k ≤ 12 }
    ensures { result ≡ days_of_months leap k }
{
    let evenly = (367 * k + 5) / 12;
    if k < 2 {
        evenly
    } else if leap {
        evenly - 1
    } else {
        evenly - 2
    }
}

impl Date {
    #[tactic(auto, unfolding(crate::specs::Calendar::is_month))]
    fn is_month(self) -> bool
        ensures { result ≡ is_month self }
    {
        (1970..=9999).contains(&self.year) && (1..=12).contains(&self.month)
    }

    #[tactic(auto, unfolding(crate::specs::Calendar::is_day))]
    fn is_day(self) -> bool
        ensures { result ≡ is_day self }
    {
        let last = month_days(is_leap(self.year), self.month);
        (1..=last).contains(&self.day)
    }

    #[tactic(auto, unfolding(crate::specs::Calendar::is_time))]
    fn is_time(self) -> bool
        ensures { result ≡ is_time self }
    {
        self.hour < 24 && self.minute < 60
    }

    #[tactic(auto, unfolding(crate::specs::Calendar::is_date))]
    pub fn is_date(self) -> bool
        ensures { result ≡ is_date self }
    {
        self.is_month() && self.is_day() && self.is_time()
    }

    // The days from 1970-01-01 to the date's day.
    fn days_before(self) -> u64
        requires { is_date self ≡ true }
        ensures { result ≡ days_before self }
    {
        let leap = is_leap(self.year);
        let years = days_of_years(self.year - 1970);
        let months = days_of_months(leap, self.month - 1);
        years + months + (self.day - 1)
    }

    // The minutes from 1970-01-01 00:00 to the date.
    #[tactic(auto, using(crate::proofs::Dates::numbers, crate::proofs::Dates::days_bound), unfolding(crate::specs::Calendar::minute_of))]
    pub fn minutes(self) -> u64
        requires { is_date self ≡ true }
        ensures { result ≡ minute_of self }
    {
        (self.days_before() * 24 + self.hour) * 60 + self.minute
    }

    // The date's minute, or none, where the calendar or the years 1970 to 9999 lack the day or the day lacks the time. Any numbers may stand in the
    // date.
    #[tactic(auto, unfolding(crate::specs::Calendar::to_minute))]
    pub fn to_minute(self) -> Option<u64>
        ensures { result ≡ to_minute self }
    {
        self.is_date().then(|| self.minutes())
    }
}

// A year, counted from 1970, that begins on the day or before, and at most two years before the day's: 400 years have 146,097 days.
#[tactic(auto, using(crate::proofs::Years::early))]
fn early_year(day: u64) -> u64
    requires { day < 2932897 }
    ensures { EarlyYear day result }
{
    (400 * day / 146097).saturating_sub(1)
}

// The year of a day, counted from 1970: the search takes three turns at most.
fn year_of(day: u64) -> u64
    requires { day < 2932897 }
    ensures { result ≡ year_of day }
{
    let early = early_year(day);
    (early..8029)
        .find(|k| days_of_years(*k + 1) > day)
        .unwrap_or(8029)
}

// The month of a day of the year, both counted from 0.
fn month_of(leap: bool, day: u64) -> u64
    ensures { result ≡ month_of leap day }
{
    (0..11)
        .find(|k| days_of_months(leap, *k + 1) > day)
        .unwrap_or(11)
}

// The date of a minute before the year 10000.
#[tactic(auto, using(crate::proofs::Search::year_within, crate::proofs::Search::year_begun, crate::proofs::Search::month_within, crate::proofs::Search::month_begun), unfolding(crate::specs::Calendar::date_of, crate::specs::Calendar::date_in_year))]
fn date_of(minute: u64) -> Date
    requires { minute < 4223371680 }
    ensures { result ≡ date_of minute }
{
    let days = minute / 1440;
    let year = year_of(days);
    let day = days - days_of_years(year);
    let leap = is_leap(1970 + year);
    let month = month_of(leap, day);
    Date {
        year: 1970 + year,
        month: 1 + month,
        day: 1 + (day - days_of_months(leap, month)),
        hour: minute / 60 % 24,
        minute: minute % 60,
    }
}

// The date of a minute, or none, where it is past the year 9999, however large it is.
#[tactic(auto, unfolding(crate::specs::Calendar::to_date))]
pub fn to_date(minute: u64) -> Option<Date>
    ensures { result ≡ to_date minute }
{
    (minute < 4223371680).then(|| date_of(minute))
}
