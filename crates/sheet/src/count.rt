// The number of replicas that the first line of an input asks for.
#![tactic(auto)]

ghost use Rattle.std.specs.Prelude.{◌≡◌, ◌==◌, take};
ghost use Rattle.std.specs.List.{position};
ghost use Rattle.sheet.specs.count.Count.{count_line, count_of_line, count_asked};

// Where the first LF stands, if there is one. texts::blocks has the same, and neither crate stands on the other. Without a function of its own, by `position` in
// `count_line`, the proof did not close.
fn line_end(input: &[u8]) -> Option<usize>
    ensures { result ≡ position (λ b. b == 10) input.now }
{
    input.iter().position(|b| *b == b'\n')
}

// The input up to the first LF, or the whole of it where there is none.
#[tactic(auto, using(crate::proofs::count::Counting::up_to, crate::proofs::count::Counting::whole))]
fn count_line(input: &[u8]) -> &[u8]
    ensures { result.now ≡ count_line input.now }
{
    match line_end(input) {
        Some(end) => &input[..end],
        None => input,
    }
}

// The count that a line asks for, if it asks for one.
#[tactic(auto, unfolding(crate::specs::count::Count::count_of_line))]
fn count_of_line(line: &[u8]) -> Option<u64>
    ensures { result ≡ count_of_line line.now }
{
    match line {
        [a @ b'1'..=b'9'] => Some((*a - b'0') as u64),
        [a @ b'1'..=b'9', b @ b'0'..=b'9'] => {
            let count = (*a - b'0') as u64 * 10 + (*b - b'0') as u64;
            if count <= 64 { Some(count) } else { None }
        }
        _ => None,
    }
}

// The first three bytes, or all where there are fewer.
fn first_bytes(input: &[u8]) -> &[u8]
    ensures { result.now ≡ take 3 input.now }
{
    &input[..input.len().min(3)]
}

// The count from 1 to 64 that the first line of the input asks for, if it asks for one. Three bytes settle it, so no more are looked at, however long the
// input is.
#[tactic(auto, using(crate::proofs::count::Counting::by_three_bytes), unfolding(crate::specs::count::Count::count_asked))]
pub fn count_asked(input: &[u8]) -> Option<u64>
    ensures { result ≡ count_asked input.now }
{
    count_of_line(count_line(first_bytes(input)))
}
