// The quorum sheet: reads a number of replicas, from 1 to 64, on the first line of standard input, and writes
// the quorums for each count from 1 to it as CSV.
#![tactic(auto)]

use arrayvec::ArrayVec;
use std::io::{Error, Read};

// The first line of the input with its LF, as far as its third byte: three bytes settle the answer, since a line that
// is longer than two is refused. It reads a byte at a time, so that an answer waits for nothing after the line.
fn read_line<R: Read + Drop>(reader: R) -> Result<ArrayVec<u8, 3>, Error> {
    let mut line = ArrayVec::new();
    for byte in reader.bytes() {
        let byte = byte?;
        line.push(byte);
        if byte == b'\n' || line.is_full() {
            break;
        }
    }
    Ok(line)
}

// A read that fails is answered as an empty input, since the line may then go on.
fn main(rt: HostRuntime) {
    let line = read_line(rt.stdin()).unwrap_or_default();
    let page = sheet::sheet_answer(line.as_slice());
    io::write_all(1, page.as_str().as_bytes());
}
