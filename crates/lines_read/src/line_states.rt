// The numbers of a line as group settings or a state, and what is wrong with them (docs/ORACLE.md, "Call lines"). Kinds of lines, of
// promises and modes are the numbers of that format here, and no enums: what stands in a line may be any number, and each has an answer.
#![tactic(auto)]

ghost use Rattle.std.specs.Prelude.{◌≡◌, ◌+◌, ◌*◌, ◌≤◌, ◌<◌, min};
ghost use Rattle.lines_read.specs.line_calls.Calls.{line_number_at};
ghost use Rattle.lines_read.specs.line_states.States.{table_place, table_to, settings_with, group_settings_with, group_settings_of, held_of, paxos_in_numbers, core_at, proposers_to, fast_in_numbers, read_at, read_table_at, state_at, state_of};
ghost use Rattle.lines_read.specs.line_states.Faults.{is_kind, windows_count_at, settings_count_at, state_count_at, expected_count, is_flag, read_flags, settings_flags, state_flags_at, message_flags, flags_fit, mode_number_fits, promise_kind_fits, settings_places, proposers_fit, state_places_at, places_fit, numbers_fault};

use crate::line_calls::{optional, promise_of, words_place};
use basics::tables::PerProcess;
use call_lines::{Fault, number_at};
use consensus::State;
use fast_state::FastState;
use group_settings::GroupSettings;
use message::{PFMode, PaxosRound, ReadId, RoundV};
use read_tracker::{OpenRead, ReadTable, ReadTracker};
use round_state::PaxosState;
use settings::Settings;
use steps::{Core, Rounds};

#[tactic(auto, unfolding(crate::specs::line_states::States::held_of))]
fn held_promise(kind: u64, a: u64, b: u64, v: u64) -> Option<RoundV>
    ensures { result ≡ held_of kind a b v }
{
    if kind == 3 {
        None
    } else {
        Some(promise_of(kind, a, b, v))
    }
}

// The library's `min` with a cast, for thirteen callers.
fn at_most(n: u64, limit: usize) -> usize
    ensures { result ≡ min n limit }
{
    n.min(limit as u64) as usize
}

// A table whose first count places stand at `at`. The line's numbers end there or sooner, and 0 stands in the rest.
#[tactic(auto, using(crate::proofs::line_states::Tables::table_copied))]
fn table_at(numbers: &[u64], at: usize, count: usize) -> PerProcess
    ensures { result ≡ table_to numbers.now at count 64 }
{
    let mut table = [0u64; 64];
    let from = &numbers[at.min(numbers.len())..];
    let n = count.min(64).min(from.len());
    table[..n].copy_from_slice(&from[..n]);
    table
}

// The engine's settings of a line of kind 1 with these tables.
#[tactic(auto, unfolding(crate::specs::line_states::States::settings_with))]
fn settings_with(numbers: &[u64], committers: PerProcess, delegates: PerProcess) -> Settings
    ensures { result ≡ settings_with numbers.now committers delegates }
{
    let quorum = number_at(numbers, 7);
    let set = number_at(numbers, 8);
    let given = number_at(numbers, 9);
    Settings {
        process_count: number_at(numbers, 1),
        replica_count: number_at(numbers, 2),
        my_pid: number_at(numbers, 3),
        alive_replicas: number_at(numbers, 4),
        first_leader: number_at(numbers, 5),
        // A number that is no mode is refused before it is asked for here (mode_fits).
        mode: PFMode::of_number(number_at(numbers, 6)),
        quorum: optional(quorum, set),
        committers: optional(given, committers),
        delegates,
    }
}

// The group settings of a line of kind 1.
#[tactic(auto, unfolding(crate::specs::line_states::States::group_settings_with))]
pub fn group_settings_of(numbers: &[u64]) -> GroupSettings
    ensures { result ≡ group_settings_of numbers.now }
{
    let committer_count = at_most(number_at(numbers, 10), 64);
    let delegate_count = at_most(number_at(numbers, 11 + committer_count), 64);
    let committers = table_at(numbers, 11, committer_count);
    let delegates = table_at(numbers, 12 + committer_count, delegate_count);
    GroupSettings {
        settings: settings_with(numbers, committers, delegates),
        whole_mhz_from: number_at(numbers, 12 + committer_count + delegate_count),
        windows: call_lines::dates::counted_windows_at(
            numbers,
            13 + committer_count + delegate_count,
        ),
    }
}

#[tactic(auto, unfolding(crate::specs::line_states::States::paxos_in_numbers))]
fn paxos_in_numbers(numbers: &[u64]) -> PaxosState
    ensures { result ≡ paxos_in_numbers numbers.now }
{
    let flag = number_at(numbers, 5);
    let round = PaxosRound {
        round_group: number_at(numbers, 6),
        leader: number_at(numbers, 7),
    };
    let kind = number_at(numbers, 8);
    let a = number_at(numbers, 9);
    let b = number_at(numbers, 10);
    let v = number_at(numbers, 11);
    PaxosState {
        round: optional(flag, round),
        max_rv: held_promise(kind, a, b, v),
        prepared_set: number_at(numbers, 12),
        accepted_set: number_at(numbers, 13),
    }
}

// The core of a line of kind 2 with so many open reads.
#[tactic(auto, unfolding(crate::specs::line_states::States::core_at))]
fn core_at(numbers: &[u64], open_count: u64) -> Core
    ensures { result ≡ core_at numbers.now open_count }
{
    let flag = number_at(numbers, 2);
    let last = number_at(numbers, 3);
    let left = number_at(numbers, 4);
    let tracker = ReadTracker {
        next_id: number_at(numbers, 19),
        open_count,
    };
    Core {
        slot: number_at(numbers, 1),
        last_v: optional(flag, last),
        slot_left_fast_path: left == 1,
        paxos: paxos_in_numbers(numbers),
        tracker,
    }
}

// The table of one number of each proposer that the line names: its value, with which 1, or one of its scores, with 2 and 3.
// A `for` over places and no `chunks_exact(4)`: the numbers of a proposer that the line no longer has are 0, and chunks would leave the proposer out.
#[tactic(auto, using(crate::proofs::line_states::Turns::proposers_next), unfolding(crate::specs::line_states::States::proposers_to))]
fn proposer_table(numbers: &[u64], which: usize) -> PerProcess
    requires { which < 4 }
    ensures { result ≡ proposers_to numbers.now which (min (line_number_at numbers.now 20) 64) }
{
    let mut table = [0u64; 64];
    for i in 0..at_most(number_at(numbers, 20), 64) {
        let at = 21 + 4 * i;
        let proposer = number_at(numbers, at);
        basics::tables::store(&mut table, proposer, number_at(numbers, at + which));
    }
    table
}

// The fast half of a line of kind 2.
#[tactic(auto, unfolding(crate::specs::line_states::States::fast_in_numbers))]
fn fast_in_numbers(numbers: &[u64]) -> FastState
    ensures { result ≡ fast_in_numbers numbers.now (min (line_number_at numbers.now 20) 64) }
{
    let flag = number_at(numbers, 17);
    let answer = number_at(numbers, 18);
    let fast_proposer_to_v = proposer_table(numbers, 1);
    let epaxos_proposer_scores = proposer_table(numbers, 2);
    let swift_proposer_scores = proposer_table(numbers, 3);
    FastState {
        fast_answer_set: number_at(numbers, 14),
        fast_preaccepted: number_at(numbers, 15),
        fast_proposers: number_at(numbers, 16),
        fast_proposer_to_v,
        epaxos_proposer_scores,
        swift_proposer_scores,
        swift_leader_answer: optional(flag, answer),
    }
}

#[tactic(auto, unfolding(crate::specs::line_states::States::read_at))]
fn read_at(numbers: &[u64], at: usize) -> OpenRead
    requires { at < 10000 }
    ensures { result ≡ read_at numbers.now at }
{
    let ready = number_at(numbers, at + 4);
    OpenRead {
        id: ReadId(number_at(numbers, at)),
        tag: number_at(numbers, at + 1),
        arrival_slot: number_at(numbers, at + 2),
        ready_count: number_at(numbers, at + 3),
        local_ready: ready == 1,
    }
}

// The table of the reads that stand at `at`, with none served. A `for` over places: the index says a place of the table and one of the line, where
// `iter_mut().enumerate()` would need `take(count)` besides, and the index all the same.
#[tactic(auto, using(crate::proofs::line_states::Turns::reads_next), unfolding(crate::specs::line_states::States::reads_to, crate::specs::line_states::States::read_table_at))]
fn reads_at(numbers: &[u64], at: usize, count: usize) -> ReadTable
    requires { (at < 1000) × (count ≤ 128) }
    ensures { result ≡ read_table_at numbers.now at count }
{
    let none = ReadTable::new();
    let mut reads = none.reads;
    let served = none.served;
    for i in 0..count {
        reads[i] = read_at(numbers, at + 5 * i);
    }
    ReadTable { reads, served }
}

// The state of a line of kind 2.
#[tactic(auto, unfolding(crate::specs::line_states::States::state_at))]
pub fn state_of(numbers: &[u64]) -> State
    ensures { result ≡ state_of numbers.now }
{
    let proposer_count = at_most(number_at(numbers, 20), 64);
    let open_count = number_at(numbers, 21 + 4 * proposer_count);
    let core = core_at(numbers, open_count);
    let fast = fast_in_numbers(numbers);
    let table = reads_at(numbers, 22 + 4 * proposer_count, at_most(open_count, 128));
    State {
        rounds: Rounds { core, fast },
        table,
    }
}

// How many numbers a line of kind 1 has.
#[tactic(auto, unfolding(crate::specs::line_states::Faults::windows_count_at))]
fn settings_count(numbers: &[u64]) -> usize
    ensures { result ≡ settings_count_at numbers.now (min (line_number_at numbers.now 10) 2048) }
{
    let committer_count = at_most(number_at(numbers, 10), 2048);
    let delegate_count = at_most(number_at(numbers, 11 + committer_count), 2048);
    let windows = 13 + committer_count + delegate_count;
    let window_count = at_most(number_at(numbers, windows), 2048);
    windows + 1 + 10 * window_count
}

// How many numbers a line of kind 2 has.
#[tactic(auto, unfolding(crate::specs::line_states::Faults::state_count_at))]
fn state_count(numbers: &[u64]) -> usize
    ensures { result ≡ state_count_at numbers.now (min (line_number_at numbers.now 20) 2048) }
{
    let proposer_count = at_most(number_at(numbers, 20), 2048);
    let open_count = at_most(number_at(numbers, 21 + 4 * proposer_count), 2048);
    22 + 4 * proposer_count + 5 * open_count
}

// How many numbers the line has by its kind and the counts that stand on it. A count from 2048 on gives more numbers than a line may have.
#[tactic(auto, unfolding(crate::specs::line_states::Faults::expected_count))]
fn expected_count(numbers: &[u64]) -> usize
    ensures { result ≡ expected_count numbers.now }
{
    match number_at(numbers, 0) {
        1 => settings_count(numbers),
        2 => state_count(numbers),
        3 => 2,
        4 => 3,
        kind => words_place(kind).unwrap_or(0) + 6,
    }
}

#[tactic(auto, unfolding(crate::specs::line_states::Faults::is_kind))]
fn is_kind(kind: u64) -> bool
    ensures { result ≡ is_kind kind }
{
    1 <= kind && kind <= 10
}

fn is_flag(n: u64) -> bool
    ensures { result ≡ is_flag n }
{
    n <= 1
}

#[tactic(auto, unfolding(crate::specs::line_states::Faults::settings_flags))]
fn settings_flags(numbers: &[u64]) -> bool
    ensures { result ≡ settings_flags numbers.now }
{
    is_flag(number_at(numbers, 7)) && is_flag(number_at(numbers, 9))
}

// The flags of the first count reads of a table that begins at `at`.
#[tactic(auto, unfolding(crate::specs::line_states::Faults::read_flags))]
fn read_flags(numbers: &[u64], at: usize, count: usize) -> bool
    requires { (at < 10000) × (count ≤ 2048) }
    ensures { result ≡ read_flags numbers.now at count }
{
    (0..count).all(|i| is_flag(number_at(numbers, at + 5 * i)))
}

// The flags of a line of kind 2.
#[tactic(auto, unfolding(crate::specs::line_states::Faults::state_flags_at))]
fn state_flags(numbers: &[u64]) -> bool
    ensures { result ≡ state_flags_at numbers.now (21 + 4 * min (line_number_at numbers.now 20) 2048) }
{
    let at = 21 + 4 * at_most(number_at(numbers, 20), 2048);
    let open_count = at_most(number_at(numbers, at), 2048);
    is_flag(number_at(numbers, 2))
        && is_flag(number_at(numbers, 4))
        && is_flag(number_at(numbers, 5))
        && is_flag(number_at(numbers, 17))
        && read_flags(numbers, at + 5, open_count)
}

// The flags of a message whose host's words begin at `at`: a place, and no slice that begins there, as in `said_at` of `lines_read::line_calls`.
#[tactic(auto, unfolding(crate::specs::line_states::Faults::message_flags))]
fn message_flags(numbers: &[u64], at: usize) -> bool
    requires { at < 100 }
    ensures { result ≡ message_flags numbers.now at }
{
    is_flag(number_at(numbers, 2))
        && is_flag(number_at(numbers, at))
        && is_flag(number_at(numbers, at + 1))
        && is_flag(number_at(numbers, at + 3))
        && is_flag(number_at(numbers, at + 4))
}

#[tactic(auto, unfolding(crate::specs::line_states::Faults::flags_fit))]
fn flags_fit(numbers: &[u64]) -> bool
    ensures { result ≡ flags_fit numbers.now }
{
    let kind = number_at(numbers, 0);
    if kind == 1 {
        return settings_flags(numbers);
    }
    if kind == 2 {
        return state_flags(numbers);
    }
    match words_place(kind) {
        Some(at) => message_flags(numbers, at),
        None => true,
    }
}

#[tactic(auto, unfolding(crate::specs::line_states::Faults::mode_number_fits))]
fn mode_number_fits(numbers: &[u64]) -> bool
    ensures { result ≡ mode_number_fits numbers.now }
{
    number_at(numbers, 0) != 1 || number_at(numbers, 6) <= 5
}

#[tactic(auto, unfolding(crate::specs::line_states::Faults::promise_kind_fits))]
fn promise_kind_fits(numbers: &[u64]) -> bool
    ensures { result ≡ promise_kind_fits numbers.now }
{
    match number_at(numbers, 0) {
        2 => number_at(numbers, 8) <= 3,
        5 => number_at(numbers, 7) <= 2,
        _ => true,
    }
}

#[tactic(auto, unfolding(crate::specs::line_states::Faults::settings_places))]
fn settings_places(numbers: &[u64]) -> bool
    ensures { result ≡ settings_places numbers.now }
{
    let committer_count = at_most(number_at(numbers, 10), 65);
    committer_count <= 64 && number_at(numbers, 11 + committer_count) <= 64
}

// Whether the first count proposers of a line of kind 2 are process numbers.
#[tactic(auto, unfolding(crate::specs::line_states::Faults::proposers_fit))]
fn proposers_fit(numbers: &[u64], count: usize) -> bool
    requires { count ≤ 64 }
    ensures { result ≡ proposers_fit numbers.now count }
{
    (0..count).all(|i| number_at(numbers, 21 + 4 * i) < 64)
}

// The places of a line of kind 2.
#[tactic(auto, unfolding(crate::specs::line_states::Faults::state_places_at))]
fn state_places(numbers: &[u64]) -> bool
    ensures { result ≡ state_places_at numbers.now (min (line_number_at numbers.now 20) 65) }
{
    let p = at_most(number_at(numbers, 20), 65);
    p <= 64 && number_at(numbers, 21 + 4 * p) <= 128 && proposers_fit(numbers, p)
}

#[tactic(auto, unfolding(crate::specs::line_states::Faults::places_fit))]
fn places_fit(numbers: &[u64]) -> bool
    ensures { result ≡ places_fit numbers.now }
{
    match number_at(numbers, 0) {
        1 => settings_places(numbers),
        2 => state_places(numbers),
        _ => true,
    }
}

// What is wrong with the numbers of a line.
#[tactic(auto, unfolding(crate::specs::line_states::Faults::numbers_fault))]
pub fn numbers_fault(numbers: &[u64]) -> Result<(), Fault>
    ensures { result ≡ numbers_fault numbers.now }
{
    if !is_kind(number_at(numbers, 0)) {
        return Err(Fault::UnknownKind);
    }
    if expected_count(numbers) != numbers.len() {
        return Err(Fault::WrongCount);
    }
    if !flags_fit(numbers) {
        return Err(Fault::NotFlag);
    }
    if !mode_number_fits(numbers) {
        return Err(Fault::NoSuchMode);
    }
    if !promise_kind_fits(numbers) {
        return Err(Fault::NoSuchPromise);
    }
    if !places_fit(numbers) {
        return Err(Fault::PlaceAboveLimit);
    }
    Ok(())
}
