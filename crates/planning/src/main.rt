// The planners' command line: reads questions on standard input, a line each, and writes the answers, a line each (docs/PLANNING.md). A line of
// more than 1,048,576 bytes, without its LF, is too long and so a bad line.
#![tactic(auto)]

ghost use Rattle.std.specs.Prelude.{◌≡◌, true, cond};
ghost use Rattle.planning_lines.specs.lists.Answers.{placed_after_list_line};
ghost use Rattle.planning_lines.specs.change_windows.Lines.{is_window_line};
ghost use Rattle.planning_lines.specs.change_windows.Answers.{after_window_line};

use positions::PlacedRegister;
use std::io::Read;
use texts::Output;
use texts::blocks::LineTaker;
use windows::{KeptWindows, WindowRefusal};

// The register that the lines ask of, with the positions of its cells, and the windows.
#[derive(Clone, Copy)]
struct Planner {
    placed: PlacedRegister,
    windows: Result<KeptWindows, WindowRefusal>,
}

impl LineTaker for Planner {
    ghost takes = { λ old line new. (new.placed ≡ cond (is_window_line line) old.placed (placed_after_list_line old.placed line)) × (new.windows ≡ cond (is_window_line line) (after_window_line old.windows line) old.windows) };

    ghost takes_too_long = { λ old _ new. new ≡ old };

    ghost asks = { λ _. true };

    fn take(&mut self, line: &[u8], out: &mut Output<'_>) {
        if planning_lines::change_windows::is_window_line(line) {
            planning_lines::change_windows::answer_line(&mut self.windows, line, out);
        } else {
            planning_lines::lists::answer_line(&mut self.placed, line, out);
        }
    }

    fn take_too_long(&mut self, _start: &[u8], out: &mut Output<'_>) {
        planning_lines::put_bad_line(out);
    }

    fn goes_on(&self) -> bool {
        true
    }
}

// The input buffer has room for the longest line and its LF. The output buffer has 360,449 bytes left where an answer begins (texts::blocks), and the
// longest answer, that to `join` with a result of 8,192 entries, needs 344,085 (`join_answer_whole`, crates/planning_lines/proofs/lists/Laws.antt).
fn answer_input<R: Read>(reader: &mut R, input_bytes: &mut [u8; 1048577], output_bytes: &mut [u8]) {
    let input: &mut [u8] = input_bytes;
    let mut out = Output::new(output_bytes);
    let mut planner = Planner {
        placed: PlacedRegister::without_positions(register_lines::first_register()),
        windows: planning_lines::change_windows::first_windows(),
    };
    texts::blocks::take_input(reader, input, &mut planner, &mut out);
}

fn main(rt: HostRuntime) {
    let mut stdin = rt.stdin();
    let mut input_bytes = [0u8; 1048577];
    let mut output_bytes = [0u8; 393216];
    answer_input(&mut stdin, &mut input_bytes, &mut output_bytes);
}
