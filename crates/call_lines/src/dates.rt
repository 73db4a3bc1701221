// Dates and change windows in the numbers of a line (document 02, E8), for the lines of `replay` and those of `planning`.
#![tactic(auto)]

ghost use Rattle.std.specs.Prelude.{◌≡◌, ◌<◌};
ghost use Rattle.call_lines.specs.dates.Numbers.{date_at, window_at, counted_windows_at};

use crate::number_at;
use calendar::Date;
use windows::{Window, Windows};

pub fn date_at(numbers: &[u64], at: usize) -> Date
    requires { at < 10000 }
    ensures { result ≡ date_at numbers.now at }
{
    Date {
        year: number_at(numbers, at),
        month: number_at(numbers, at + 1),
        day: number_at(numbers, at + 2),
        hour: number_at(numbers, at + 3),
        minute: number_at(numbers, at + 4),
    }
}

fn window_at(numbers: &[u64], at: usize) -> Window
    requires { at < 9000 }
    ensures { result ≡ window_at numbers.now at }
{
    Window {
        start: date_at(numbers, at),
        end: date_at(numbers, at + 5),
    }
}

// The windows that are counted at `at` and begin behind it. A `for` over places: the index says a place of the table and one of the line. Those past the
// 128th are not read: more than 128 are refused by their count.
#[tactic(auto, using(crate::proofs::dates::Turns::window_more, crate::proofs::dates::Turns::none_read))]
pub fn counted_windows_at(numbers: &[u64], at: usize) -> Windows
    requires { at < 1000 }
    ensures { result ≡ counted_windows_at numbers.now at }
{
    let mut places = [Window::default(); 128];
    for i in 0..128 {
        places[i] = window_at(numbers, at + 1 + 10 * i);
    }
    Windows {
        places,
        count: number_at(numbers, at),
    }
}
