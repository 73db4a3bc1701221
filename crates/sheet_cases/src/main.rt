// The answers of the quorum sheet to many inputs, one after the other.
#![tactic(auto)]

// Inputs that ask for a count.
const TAKEN: [&[u8]; 11] = [
    b"5\n",
    b"5",
    b"1\nxyz",
    b"1\n\n",
    b"9",
    b"10",
    b"10\n7\n",
    b"5\n\x00\xff garbage",
    b"64\n",
    b"64",
    b"64\n65",
];

// Inputs that ask for none.
const REFUSED: [&[u8]; 21] = [
    b"",
    b"\n5\n",
    b"\r\n",
    b"0\n",
    b"05\n",
    b"65\n",
    b"99",
    b"100\n",
    b"11111111111111111111111111111111111111111111111111",
    b"+5\n",
    b"-5\n",
    b" 5\n",
    b"5 \n",
    b"5\t\n",
    b"6 4\n",
    b"5\r\n",
    b"12\r\n",
    b"\x00",
    b"5\x00\n",
    b"1a\n",
    b"a\n",
];

// Writes the answer to each of the inputs.
fn write_answers(inputs: &[&[u8]]) {
    for input in inputs {
        let page = sheet::sheet_answer(input);
        io::write_all(1, page.as_str().as_bytes());
    }
}

fn main() {
    write_answers(&TAKEN);
    write_answers(&REFUSED);
}
