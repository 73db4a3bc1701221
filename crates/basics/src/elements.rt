// The first places of a row, in order, with one element more or one fewer. The places behind them stay as they are. A place and how many there are remain two
// parameters, here and in the traits over rows: a slice of the first ones has no place for one more, and the contracts speak of the whole row.
#![tactic(auto)]

ghost use Rattle.std.specs.Prelude.{◌≡◌, ◌<◌, ◌≤◌, length, take};
ghost use Rattle.basics.specs.elements.Places.{at_front, without, with_at};

// The first `places` elements with a new one at place `at`: the later ones move one place up.
#[tactic(auto, using(crate::proofs::elements::Lists::moved_up))]
pub fn insert_at<T: Copy>(row: &mut [T], at: usize, places: usize, new: T)
    requires { (at ≤ places) × (places < length row.old) }
    ensures { row.new ≡ at_front (with_at at new (take places row.old)) row.old }
{
    row.copy_within(at..places, at + 1);
    row[at] = new;
}

// The first `places` elements without the one at place `at`: the later ones move one place down.
#[tactic(auto, using(crate::proofs::elements::Lists::moved_down))]
pub fn remove_at<T: Copy>(row: &mut [T], at: usize, places: usize)
    requires { (at < places) × (places ≤ length row.old) }
    ensures { row.new ≡ at_front (without at (take places row.old)) row.old }
{
    row.copy_within(at + 1..places, at);
}
