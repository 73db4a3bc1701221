// A call line, from its bytes to numbers (docs/ORACLE.md, "Call lines"), and the faults that a line can have.
#![tactic(auto)]

pub mod dates;

ghost use Rattle.std.specs.Prelude.{◌≡◌, ◌<◌, get_or};
ghost use Rattle.call_lines.specs.Reading.{is_full, next_place, not_decimal, after_digit, after_space, after_byte, scan_fault, put_in_place, scan_of, numbers_in_line};

// Why a line is no call, in the order of looking.
#[derive(Clone, Copy, PartialEq, Eq, Debug)]
pub enum Fault {
    NotDecimal,
    NumberAboveLimit,
    TooLong,
    UnknownKind,
    WrongCount,
    NotFlag,
    NoSuchMode,
    NoSuchPromise,
    PlaceAboveLimit,
}

// How far a line is read: the number under way, how many came before it, whether it has a digit, and what was wrong so far. The
// count stops at 2048, the number that a line may have. Flags beside the number and no Option: reading goes on behind a fault, and a number that has a digit
// goes on to be read.
#[derive(Clone, Copy, Default)]
pub struct Scan {
    pub value: u64,
    pub before: usize,
    pub has_digit: bool,
    pub malformed: bool,
    pub above_limit: bool,
}

#[tactic(auto, unfolding(crate::specs::Reading::next_place))]
fn next_place(n: usize) -> usize
    ensures { result ≡ next_place n }
{
    if n < 2048 { n + 1 } else { n }
}

// Whether a number can't take the digit. By comparisons and not by checked_mul, which for each byte of a line multiplies into two words.
#[tactic(auto, unfolding(crate::specs::Reading::is_full))]
fn is_full(n: u64, d: u64) -> bool
    requires { d < 10 }
    ensures { result ≡ is_full n d }
{
    n > 1844674407370955161 || n == 1844674407370955161 && d > 5
}

impl Scan {
    #[tactic(auto, unfolding(crate::specs::Reading::not_decimal))]
    fn malformed(self) -> Scan
        ensures { result ≡ not_decimal self }
    {
        Scan {
            malformed: true,
            ..self
        }
    }

    // A number that can't take the digit stays as it is.
    #[tactic(auto, unfolding(crate::specs::Reading::after_digit, crate::specs::Reading::with_digit, crate::specs::Reading::is_full))]
    fn after_digit(self, d: u64) -> Scan
        requires { d < 10 }
        ensures { result ≡ after_digit self d }
    {
        let full = is_full(self.value, d);
        Scan {
            value: if full {
                self.value
            } else {
                self.value * 10 + d
            },
            has_digit: true,
            above_limit: self.above_limit || full,
            ..self
        }
    }

    #[tactic(auto, unfolding(crate::specs::Reading::after_space))]
    fn after_space(self) -> Scan
        ensures { result ≡ after_space self }
    {
        if !self.has_digit {
            return self.malformed();
        }
        Scan {
            value: 0,
            before: next_place(self.before),
            has_digit: false,
            ..self
        }
    }

    #[tactic(auto, unfolding(crate::specs::Reading::after_byte))]
    fn after_byte(self, b: u8) -> Scan
        ensures { result ≡ after_byte self b }
    {
        match b {
            b' ' => self.after_space(),
            b'0'..=b'9' => self.after_digit(u64::from(b - b'0')),
            _ => self.malformed(),
        }
    }

    // What is wrong with the bytes of a line that is read to its end.
    #[tactic(auto, unfolding(crate::specs::Reading::scan_fault))]
    pub fn fault(self) -> Result<(), Fault>
        ensures { result ≡ scan_fault self }
    {
        if self.malformed || !self.has_digit {
            return Err(Fault::NotDecimal);
        }
        if self.above_limit {
            return Err(Fault::NumberAboveLimit);
        }
        if self.before >= 2048 {
            return Err(Fault::TooLong);
        }
        Ok(())
    }
}

// A number for which there is no place is left out.
#[tactic(auto, unfolding(crate::specs::Reading::put_in_place))]
fn put_in_place(numbers: &mut [u64], at: usize, n: u64)
    ensures { numbers.new ≡ put_in_place numbers.old at n }
{
    if at < numbers.len() {
        numbers[at] = n;
    }
}

// Reads the bytes of a line, without its LF, into numbers. The number under way stands behind those before it.
#[tactic(auto, using(crate::proofs::Turns::scan_next, crate::proofs::Turns::numbers_next), unfolding(crate::specs::Reading::scan_to, crate::specs::Reading::numbers_to, crate::specs::Reading::scan_start))]
pub fn read_numbers(line: &[u8], numbers: &mut [u64]) -> Scan
    ensures value { result ≡ scan_of line.now }
    ensures numbers_after { numbers.new ≡ numbers_in_line line.now numbers.old }
{
    let mut scan = Scan::default();
    for b in line {
        scan = scan.after_byte(*b);
        put_in_place(numbers, scan.before, scan.value);
    }
    scan
}

// The number at a place of a line, and 0 where the line has none.
pub fn number_at(numbers: &[u64], i: usize) -> u64
    ensures { result ≡ get_or numbers.now i 0 }
{
    if i < numbers.len() { numbers[i] } else { 0 }
}
