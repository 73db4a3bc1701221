// Sets of process numbers as 64 bits, in place of the Rust's BitSet: process p is in the set s where bit p of s is 1.
#![tactic(auto)]

ghost use Rattle.std.specs.Prelude.{◌≡◌};
ghost use Rattle.basics.specs.sets.Sets.{contains, insert, size, fits, is_empty};

// Whether process p is in s. No process number is above 63.
#[tactic(auto, using(crate::proofs::sets::Laws::contains_none), unfolding(crate::specs::sets::Sets::contains))]
pub fn contains(s: u64, p: u64) -> bool
    ensures { result ≡ contains s p }
{
    if p < 64 { (s >> p) & 1 == 1 } else { false }
}

// The set s with process p. A number above 63 is no process, and leaves the set as it is.
#[tactic(auto, using(crate::proofs::sets::Laws::insert_shifted, crate::proofs::sets::Laws::insert_none))]
pub fn insert(s: u64, p: u64) -> u64
    ensures { result ≡ insert s p }
{
    if p < 64 { s | (1 << p) } else { s }
}

// How many processes are in s, by counting ones.
#[tactic(auto, using(crate::proofs::sets::Laws::size_ones))]
pub fn size(s: u64) -> u64
    ensures { result ≡ size s }
{
    u64::count_ones(s) as u64
}

// Whether every process of s is below n.
#[tactic(auto, using(crate::proofs::sets::Laws::shift_fits, crate::proofs::sets::Laws::fits_all))]
pub fn fits(s: u64, n: u64) -> bool
    ensures { result ≡ fits s n }
{
    if n < 64 { s >> n == 0 } else { true }
}

pub fn is_empty(s: u64) -> bool
    ensures { result ≡ is_empty s }
{
    s == 0
}
