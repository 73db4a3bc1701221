// Texts put into a buffer: bytes, and numbers in decimal. Each function that puts writes behind what is put already; its contract says which text
// that is. A byte for which there is no room is left out, so that no function asks how much room there is; where there is room the text is put
// whole (`put_fits`, proofs/Lengths.antt).
#![tactic(auto)]

pub mod blocks;
pub mod fields;

ghost use Rattle.std.specs.Prelude.{◌≡◌, [], ◌∷◌, take};
ghost use Rattle.texts.specs.Text.{put, decimal, field, fields, flag_number};

// A buffer, and the place in it where the next byte goes. No String or Vec: those run out of memory, and what puts text here cannot fail. Nor `Display`,
// here and in the crates of lines: `write!` hands back a Result, and a contract of `put` says which text is put.
#[derive(Drop)]
pub struct Output<'a> {
    pub bytes: &'a mut [u8],
    pub at: usize,
}

impl<'a> Output<'a> {
    // The buffer with nothing put.
    pub fn new(bytes: &'a mut [u8]) -> Output<'a>
        ensures { result ≡ record { bytes = bytes.entry; at = 0 } }
    {
        Output { bytes, at: 0 }
    }

    // What is put. There is never more than fits, whatever the place says.
    pub fn text(&self) -> &[u8]
        ensures { result.now ≡ take self.now.at self.now.bytes.now }
    {
        &self.bytes[..self.at.min(self.bytes.len())]
    }

    #[tactic(auto, unfolding(crate::specs::Text::put))]
    pub fn put_byte(&mut self, b: u8)
        ensures { self.new ≡ put (b ∷ []) self.old }
    {
        if self.at < self.bytes.len() {
            self.bytes[self.at] = b;
            self.at += 1;
        }
    }

    #[tactic(auto, using(crate::proofs::Lengths::put_part))]
    pub fn put_bytes(&mut self, source: &[u8])
        ensures { self.new ≡ put source.now self.old }
    {
        let from = self.at.min(self.bytes.len());
        let count = source.len().min(self.bytes.len() - from);
        self.bytes[from..from + count].copy_from_slice(&source[..count]);
        self.at += count;
    }

    #[tactic(auto, using(crate::proofs::Decimal::decimal_digits))]
    pub fn put_number(&mut self, n: u64)
        ensures { self.new ≡ put (decimal n) self.old }
    {
        let mut text = [0u8; 20];
        let k = io::decimal(n, &mut text);
        self.put_bytes(&text[..k]);
    }

    // A space and the number.
    #[tactic(auto, unfolding(crate::specs::Text::field, crate::specs::Text::put))]
    pub fn put_field(&mut self, n: u64)
        ensures { self.new ≡ put (field n) self.old }
    {
        self.put_byte(b' ');
        self.put_number(n);
    }

    // A word, and each number behind a space.
    #[tactic(auto, using(crate::proofs::Putting::put_then, crate::proofs::Putting::reached_next, crate::proofs::Putting::reached_all), unfolding(crate::specs::Text::fields))]
    pub fn put_fields(&mut self, word: &[u8], numbers: &[u64])
        ensures { self.new ≡ put (fields word.now numbers.now) self.old }
    {
        self.put_bytes(word);
        for n in numbers {
            self.put_field(*n);
        }
    }
}

pub fn flag_number(flag: bool) -> u64
    ensures { result ≡ flag_number flag }
{
    u64::from(flag)
}
