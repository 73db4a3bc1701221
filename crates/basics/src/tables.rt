// A number for each process, as an array by process: in place of the Rust's Vec<usize> and HashMap<usize, usize>.
#![tactic(auto)]

ghost use Rattle.std.specs.Prelude.{◌≡◌, ltb};
ghost use Rattle.std.specs.List.{list_all};
ghost use Rattle.basics.specs.tables.Tables.{look_up, store, all_below};

// A number for each process.
pub type PerProcess = [u64; 64];

// The number of process p. A number above 63 is no process, and has 0.
#[tactic(auto, unfolding(crate::specs::tables::Tables::look_up))]
pub fn look_up(table: &PerProcess, p: u64) -> u64
    ensures { result ≡ look_up table.now p }
{
    if p < 64 { table[p as usize] } else { 0 }
}

// Gives process p the number n.
#[tactic(auto, unfolding(crate::specs::tables::Tables::store))]
pub fn store(table: &mut PerProcess, p: u64, n: u64)
    ensures { table.new ≡ store table.old p n }
{
    if p < 64 {
        table[p as usize] = n;
    }
}

fn are_below(entries: &[u64], bound: u64) -> bool
    ensures { result ≡ list_all (λ entry. ltb entry bound) entries.now }
{
    entries.iter().all(|entry| *entry < bound)
}

// Whether the entry of each process below the bound is below it too.
#[tactic(auto, using(crate::proofs::tables::Every::every_is_all))]
pub fn all_below(table: &PerProcess, bound: u64) -> bool
    ensures { result ≡ all_below table.now bound }
{
    let processes = bound.min(64) as usize;
    are_below(&table[..processes], bound)
}
