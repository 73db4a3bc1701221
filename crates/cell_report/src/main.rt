// The report of the entry lines on standard input, as CSV (document 02, E6; docs/PLANNING.md). It is printed when the input ends. Before the entry lines
// a line `register SLOT` may stand (E13). Any other line settles the answer, `refused,1`; so does one of more than 1,048,576 bytes, and a read that
// fails, since entries may then be missing.
#![tactic(auto)]

ghost use Rattle.std.specs.Prelude.{◌≡◌, is_some, None};
ghost use Rattle.register_lines.specs.entries.Reports.{take_line};

use register_lines::entries::EntriesTaken;
use std::io::Read;
use texts::Output;
use texts::blocks::LineTaker;

// The register after the lines so far, where none refuses the input. Nothing is put while lines are taken.
#[derive(Clone, Copy)]
struct Entries {
    taken: Option<EntriesTaken>,
}

impl LineTaker for Entries {
    ghost takes = { λ old line new. new.taken ≡ take_line old.taken line };

    ghost takes_too_long = { λ _ _ new. new.taken ≡ None };

    ghost asks = { λ entries. is_some entries.taken };

    fn take(&mut self, line: &[u8], _out: &mut Output<'_>) {
        register_lines::entries::put_line_taken(&mut self.taken, line);
    }

    fn take_too_long(&mut self, _start: &[u8], _out: &mut Output<'_>) {
        self.taken = None;
    }

    fn goes_on(&self) -> bool {
        self.taken.is_some()
    }
}

// A reader that notes whether a read failed. A flag and no Option of a reader: the reader stays there, and is read on by whoever asks.
#[derive(Drop)]
struct Watched<R> {
    reader: R,
    failed: bool,
}

impl<R: Read + Drop> Read for Watched<R> {
    fn read(&mut self, buf: &mut [u8]) -> std::io::Result<usize> {
        let result = self.reader.read(buf);
        self.failed = self.failed || result.is_err();
        result
    }
}

// The register after the lines of the input, where none refuses it and none is missing. The input buffer has room for the longest line and its LF.
fn take_entries<R: Read + Drop>(
    reader: R,
    input_bytes: &mut [u8; 1048577],
    nothing: &mut [u8],
) -> Option<EntriesTaken> {
    let input: &mut [u8] = input_bytes;
    let mut watched = Watched {
        reader,
        failed: false,
    };
    let mut out = Output::new(nothing);
    let mut entries = Entries {
        taken: register_lines::entries::no_lines(),
    };
    texts::blocks::take_input(&mut watched, input, &mut entries, &mut out);
    if watched.failed {
        return None;
    }
    entries.taken
}

fn write_report(taken: Option<EntriesTaken>) {
    let page = register_lines::entries::page_after(taken);
    let bytes = page.bytes;
    let len = page.len;
    io::write_all(1, &bytes[..len]);
}

fn main(rt: HostRuntime) {
    let mut input_bytes = [0u8; 1048577];
    let taken = take_entries(rt.stdin(), &mut input_bytes, &mut []);
    write_report(taken);
}
