// Two lists of commits joined into one, in places that a host lends (document 02, E10, "Catch up from a neighbour's list"). The causes of a refusal
// stand in specs/Causes.antt, what is computed in specs/Joining.antt.
#![tactic(auto)]

ghost use Rattle.std.specs.Prelude.{◌≡◌, ◌&&◌, ◌++◌, ◌+◌, ◌-◌, ◌≤◌, eqb, ltb, length, drop, bit_or};
ghost use Rattle.std.specs.List.{list_all, fold, zip};
ghost use Rattle.basics.specs.elements.Places.{at_front};
ghost use Rattle.catch_up.specs.Causes.{join_number};
ghost use Rattle.catch_up.specs.Joining.{lent_list, lent_places, SamePlaces, some_above, list_too_large, counts_from, first_slot, outside, InLimits, checked_of, counts_within, differ, in_order, JoinGives, Joins, one_refused};

use basics::refusals::Refused;
use message::{LARGEST_NUMBER, LARGEST_SLOT};

// A list as a host lends it: slots, and the value beside each. Two slices in place of one of pairs: the C interface has them so.
#[derive(Clone, Copy)]
pub struct LentList<'a> {
    pub slots: &'a [u64],
    pub values: &'a [u64],
}

// The places that a host lends for a result: for its slots, and for its values. Two slices, as in LentList.
#[derive(Drop)]
pub struct LentPlaces<'a> {
    pub slots: &'a mut [u64],
    pub values: &'a mut [u64],
}

// Why lists are not joined, with document 02's numbers, in the order in which they are looked for.
#[derive(Clone, Copy, PartialEq, Eq, Debug)]
pub enum JoinRefusal {
    NumberTooLarge = 2,
    OutsideLimits = 18,
    Gap = 19,
    TwoValues = 20,
}

impl Refused for JoinRefusal {
    ghost refusal_number = { join_number };

    // Document 02's number.
    fn number(self) -> u64 {
        self as u64
    }
}

// What is looked for in one list alone: 2, and 18. Two flags and no Result: 2 of either list comes before 18 of either, so both are asked of each.
#[derive(Clone, Copy)]
struct Checked {
    too_large: bool,
    outside: bool,
}

const MOST_ENTRIES: usize = 4096;

const LEAST_PLACES: usize = 8192;

// A list of the most entries that begins here ends with the largest slot.
const LAST_BEGIN: u64 = LARGEST_SLOT - 4095;

// Whether some number is above the limit.
#[tactic(auto, unfolding(crate::specs::Joining::some_above))]
fn some_above(limit: u64, numbers: &[u64]) -> bool
    ensures { result ≡ some_above limit numbers.now }
{
    numbers.iter().any(|number| limit < *number)
}

// The bits of all values together: a loop that gathers them has no way out of its middle, and so the compiler takes several values at a time.
fn bits_of(values: &[u64]) -> u64
    ensures { result ≡ fold (λ bits value. bit_or bits value) 0 values.now }
{
    values.iter().fold(0, |bits, value| bits | *value)
}

// The same of values: one is above the limit where the highest bit is set.
#[tactic(auto, using(crate::proofs::Loops::bits_above))]
fn value_above(values: &[u64]) -> bool
    ensures { result ≡ some_above 9223372036854775807 values.now }
{
    LARGEST_NUMBER < bits_of(values)
}

// Whether t is the slot after s.
fn follows(s: u64, t: u64) -> bool
    ensures { result ≡ eqb t (s + 1) }
{
    s < t && t - s == 1
}

// Whether each of the second slots is the one after the first slot beside it.
fn each_follows(slots: &[u64], next: &[u64]) -> bool
    ensures { result ≡ list_all (λ p. eqb p.1 (p.0 + 1)) (zip slots.now next.now) }
{
    slots.iter().zip(next).all(|(s, t)| follows(*s, *t))
}

// Whether each slot is the one after the slot before it.
#[tactic(auto, using(crate::proofs::Loops::no_pairs, crate::proofs::Loops::pairs_follow))]
pub fn consecutive(slots: &[u64]) -> bool
    ensures { result ≡ counts_from (first_slot slots.now) slots.now }
{
    match slots {
        [] => true,
        [_, next @ ..] => each_follows(slots, next),
    }
}

// The first slot of a list, 0 of an empty one.
pub fn first_slot(slots: &[u64]) -> u64
    ensures { result ≡ first_slot slots.now }
{
    slots.first().copied().unwrap_or(0)
}

// Whether the slots are `first` and those that follow. The loop has no way out of its middle, as above.
#[tactic(auto, using(crate::proofs::Loops::counts_next, crate::proofs::Loops::counts_done))]
fn counts_from(first: u64, slots: &[u64]) -> bool
    requires low { first ≤ 9223372036854771711 }
    requires few { length slots.now ≤ 4096 }
    ensures { result ≡ counts_from first slots.now }
{
    let mut all = true;
    for (i, slot) in slots.iter().enumerate() {
        all &= *slot == first + i as u64;
    }
    all
}

// Whether the slots are no more than 4,096 and consecutive, from one on that makes the last one no larger than a slot may be.
#[tactic(auto, unfolding(crate::specs::Joining::counts_within))]
fn counts_within(slots: &[u64]) -> bool
    ensures { result ≡ counts_within slots.now }
{
    let first = first_slot(slots);
    slots.len() <= MOST_ENTRIES && first <= LAST_BEGIN && counts_from(first, slots)
}

impl LentList<'_> {
    // 2: every number of the list is looked at, also past the 4,096th.
    #[tactic(auto, unfolding(crate::specs::Joining::list_too_large))]
    pub fn too_large(self) -> bool
        ensures { result ≡ list_too_large (lent_list self.entry) }
    {
        some_above(LARGEST_SLOT, self.slots) || value_above(self.values)
    }

    // 18, of one list: "more than 4,096 entries in a list .. or slots not consecutive within it", or slices of unequal length.
    #[tactic(auto, unfolding(crate::specs::Joining::outside))]
    fn outside(self) -> bool
        ensures { result ≡ outside (lent_list self.entry) }
    {
        MOST_ENTRIES < self.slots.len()
            || self.slots.len() != self.values.len()
            || !consecutive(self.slots)
    }

    // Looks at one list. The usual list is looked at once, and any other one number at a time.
    fn check(self) -> Checked
        ensures { result ≡ checked_of (lent_list self.entry) }
    {
        if counts_within(self.slots) {
            return Checked {
                too_large: value_above(self.values),
                outside: self.slots.len() != self.values.len(),
            };
        }
        Checked {
            too_large: self.too_large(),
            outside: self.outside(),
        }
    }
}

// 2 or 18, of two lists and that many lent places: 2 of either list comes before 18 of either, so that both are looked at first.
#[tactic(auto, unfolding(crate::specs::Joining::one_refused))]
fn check(a: LentList, b: LentList, places: usize) -> Result<(), JoinRefusal>
    ensures { result ≡ one_refused (lent_list a.entry) (lent_list b.entry) places }
{
    let first = a.check();
    let second = b.check();
    if first.too_large || second.too_large {
        return Err(JoinRefusal::NumberTooLarge);
    }
    if first.outside || second.outside || places < LEAST_PLACES {
        return Err(JoinRefusal::OutsideLimits);
    }
    Ok(())
}

// Whether two lists of values differ at a place that both have.
#[tactic(auto, unfolding(crate::specs::Joining::differ))]
fn values_differ(values: &[u64], others: &[u64]) -> bool
    ensures { result ≡ differ values.now others.now }
{
    values
        .iter()
        .zip(others)
        .any(|(value, other)| value != other)
}

// The whole of `earlier`, and of `later` what lies behind its first `known` numbers, in the first places. Hands back how many there are.
#[tactic(auto, using(crate::proofs::Loops::both_stored))]
fn store_both(out: &mut [u64], earlier: &[u64], later: &[u64], known: usize) -> usize
    requires { length earlier.now + length later.now ≤ length out.old }
    ensures stored { out.new ≡ at_front (earlier.now ++ drop known later.now) out.old }
    ensures count { result ≡ length (earlier.now ++ drop known later.now) }
{
    let begin = known.min(later.len());
    let rest = &later[begin..];
    let next = earlier.len();
    let end = next + rest.len();
    out[..next].copy_from_slice(earlier);
    out[next..end].copy_from_slice(rest);
    end
}

// 19, "a gap between the lists": the earlier one, where it has entries, ends before the slot that precedes the later one. Where they touch there is none.
fn begins_past(length: usize, ahead: usize) -> bool
    ensures { result ≡ (ltb 0 length && ltb length ahead) }
{
    0 < length && length < ahead
}

// 19, 20 or the join, of two lists of which the first begins no later than the second: the whole of the earlier one, and behind it what the later
// one has past its end.
fn join_in_order(
    earlier: LentList,
    later: LentList,
    places: &mut LentPlaces,
) -> Result<u64, JoinRefusal>
    requires order { first_slot earlier.slots.now ≤ first_slot later.slots.now }
    requires earlier_limits { InLimits (lent_list earlier) }
    requires later_limits { InLimits (lent_list later) }
    requires slot_places { 8192 ≤ length places.old.slots.now }
    requires value_places { 8192 ≤ length places.old.values.now }
    ensures same { SamePlaces places.old places.new }
    ensures joined { JoinGives (in_order (lent_list earlier.entry) (lent_list later.entry)) (lent_places places.old) (lent_places places.new) result }
{
    let ahead = (first_slot(later.slots) - first_slot(earlier.slots)) as usize;
    let length = earlier.slots.len();
    if begins_past(length, ahead) {
        return Err(JoinRefusal::Gap);
    }
    let shared = ahead.min(earlier.values.len());
    if values_differ(&earlier.values[shared..], later.values) {
        return Err(JoinRefusal::TwoValues);
    }
    let known = length.saturating_sub(ahead);
    let count = store_both(places.slots, earlier.slots, later.slots, known);
    store_both(places.values, earlier.values, later.values, known);
    Ok(count as u64)
}

// Joins two lists, either of which may begin first, into the lent places: how many entries the two have together, or why they were not joined. "Fewer
// than 8,192 lent places give 18; places past the result, and all after a refusal, are unchanged."
#[tactic(auto, using(crate::proofs::Answers::passed, crate::proofs::Answers::first_passed, crate::proofs::Answers::second_passed, crate::proofs::Answers::places_passed, crate::proofs::Answers::as_given))]
pub fn join(a: LentList, b: LentList, places: &mut LentPlaces) -> Result<u64, JoinRefusal>
    ensures same { SamePlaces places.old places.new }
    ensures joined { Joins (lent_list a.entry) (lent_list b.entry) (lent_places places.old) (lent_places places.new) result }
{
    check(a, b, places.slots.len().min(places.values.len()))?;
    if first_slot(a.slots) <= first_slot(b.slots) {
        join_in_order(a, b, places)
    } else {
        join_in_order(b, a, places)
    }
}
