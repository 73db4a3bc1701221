// The line of `planning` that begins the register which a stored one of 16-bit cells becomes (docs/PLANNING.md; document 02, E7): the next slot,
// assignments made, superseded and released, the number of cells, and of each cell its number, carrier and width. No `Display`, as `texts` says.
#![tactic(auto)]

ghost use Rattle.std.specs.Prelude.{◌≡◌, ◌<◌, ◌≤◌, get_or, is_some};
ghost use Rattle.basics.specs.elements.Places.{at_front};
ghost use Rattle.texts.specs.Text.{put};
ghost use Rattle.planning_lines.specs.stored.Answers.{begins_stored, after_stored, stored_text, register_after_line, line_answer};
ghost use Rattle.planning_lines.specs.stored.Lines.{is_read, is_cell_at, are_cells, stored_cell_at, stored_cells, empty_cells, stored_of_numbers, is_stored, stored_line};

use call_lines::Scan;
use group_register::GroupRegister;
use register::stored::{StoredCell, StoredRegister};
use register::{Assignment, Figures, Register};
use texts::Output;

// Whether the bytes are numbers of 64 bits with single blanks between them.
#[tactic(auto, unfolding(crate::specs::stored::Lines::is_read))]
pub fn is_read(scan: Scan) -> bool
    ensures { result ≡ is_read scan }
{
    !scan.malformed && !scan.above_limit && scan.has_digit
}

// Whether the number of cell i has 16 bits and is above that of the cell before it, and the assignment is within its limits.
#[tactic(auto, unfolding(crate::specs::stored::Lines::is_cell_at, crate::specs::stored::Lines::rises_at))]
fn is_cell_at(numbers: &[u64; 1541], i: usize) -> bool
    requires { i < 512 }
    ensures { result ≡ is_cell_at numbers.now i }
{
    let number = numbers[3 * i + 5];
    let assignment = Assignment {
        carrier: numbers[3 * i + 6],
        width: numbers[3 * i + 7],
    };
    number <= 65535 && (i == 0 || numbers[3 * i + 2] < number) && assignment.assignable()
}

#[tactic(auto, unfolding(crate::specs::stored::Lines::are_cells))]
fn are_cells(numbers: &[u64; 1541], count: usize) -> bool
    requires { count ≤ 512 }
    ensures { result ≡ are_cells numbers.now count }
{
    (0..count).all(|i| is_cell_at(numbers, i))
}

fn stored_cell_at(numbers: &[u64; 1541], i: usize) -> StoredCell
    requires { i < 512 }
    ensures { result ≡ stored_cell_at numbers.now i }
{
    let number = numbers[3 * i + 5] % 65536;
    StoredCell {
        number: number as u16,
        assignment: Assignment {
            carrier: numbers[3 * i + 6],
            width: numbers[3 * i + 7],
        },
    }
}

// The first cells of the line. A `for` over places: the index says a place of the table and one of the line, where `iter_mut().enumerate()` would need
// `take(count)` besides, and the index all the same.
#[tactic(auto, using(crate::proofs::stored::Turns::stored_more), unfolding(basics::specs::elements::Places::at_front, crate::specs::stored::Lines::stored_cells))]
fn stored_cells(numbers: &[u64; 1541], count: usize) -> [StoredCell; 512]
    requires { count ≤ 512 }
    ensures { result ≡ at_front (stored_cells numbers.now count) empty_cells }
{
    let nothing = StoredCell {
        number: 0,
        assignment: Assignment {
            carrier: 0,
            width: 0,
        },
    };
    let mut cells = [nothing; 512];
    for i in 0..count {
        cells[i] = stored_cell_at(numbers, i);
    }
    cells
}

#[tactic(auto, unfolding(crate::specs::stored::Lines::is_stored))]
fn is_stored(scan: Scan, numbers: &[u64; 1541]) -> bool
    ensures { result ≡ is_stored scan numbers.now }
{
    let count = numbers[4] as usize;
    count <= 512 && scan.before == 3 * count + 4 && is_read(scan) && are_cells(numbers, count)
}

fn stored_of_numbers(numbers: &[u64; 1541]) -> StoredRegister
    requires { get_or numbers.now 4 0 ≤ 512 }
    ensures { result ≡ stored_of_numbers numbers.now }
{
    let count = numbers[4] as usize;
    StoredRegister {
        next_slot: numbers[0],
        figures: Figures {
            made: numbers[1],
            superseded: numbers[2],
            released: numbers[3],
        },
        live_count: numbers[4],
        cells: stored_cells(numbers, count),
    }
}

// The register that the bytes of a line behind `stored` and a blank begin, where they are such numbers.
#[tactic(auto, using(crate::proofs::stored::Turns::few_cells, crate::proofs::stored::Turns::line_taken, crate::proofs::stored::Turns::line_left))]
pub fn stored_line(bytes: &[u8]) -> Option<Register>
    ensures { result ≡ stored_line bytes.now }
{
    let mut numbers = [0u64; 1541];
    let scan = call_lines::read_numbers(bytes, &mut numbers);
    if is_stored(scan, &numbers) {
        let stored = stored_of_numbers(&numbers);
        return Some(Register::from(stored));
    }
    None
}

// A line that is one begins its register, with the settings of the register before it; any other is a bad line, and the register stays. Hands back which.
#[tactic(auto, unfolding(crate::specs::stored::Answers::after_stored, crate::specs::stored::Answers::stored_text))]
fn answer_stored(group: &mut GroupRegister, bytes: &[u8], out: &mut Output<'_>) -> bool
    ensures begins { result ≡ is_some (stored_line bytes.now) }
    ensures group { group.new ≡ after_stored group.old (stored_line bytes.now) }
    ensures put { out.new ≡ put (stored_text group.old.settings (stored_line bytes.now)) out.old }
{
    match stored_line(bytes) {
        Some(register) => {
            register_lines::put_begun(out, group.settings);
            group.register = register;
            true
        }
        None => {
            crate::put_bad_line(out);
            false
        }
    }
}

// The answer to a line of `planning`; the register is the one that the line leaves. Hands back whether the line begins a register of stored cells, so that
// nobody reads it again to know.
#[tactic(auto, using(crate::proofs::stored::Answered::begins_long, crate::proofs::stored::Answered::behind_word), unfolding(crate::specs::stored::Answers::begins_stored, crate::specs::stored::Answers::register_after_line, crate::specs::stored::Answers::line_answer))]
pub fn answer_line(group: &mut GroupRegister, line: &[u8], out: &mut Output<'_>) -> bool
    ensures begins { result ≡ begins_stored line.now }
    ensures group { group.new ≡ register_after_line group.old line.now }
    ensures put { out.new ≡ put (line_answer group.old line.now) out.old }
{
    if texts::fields::begins(line, b"stored ") {
        return answer_stored(group, &line[7..], out);
    }
    crate::answer_line(group, line, out);
    false
}
