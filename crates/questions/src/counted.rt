// Answers that are only counted, accepts by the leader and promises by whoever gathers them: one set of the core grows by the sender, and nothing is
// sent. They are found by the numbers of the call and of the core, before a message or the settings are put together.
#![tactic(auto)]

ghost use Rattle.std.specs.Prelude.{◌≡◌};
ghost use Rattle.questions.specs.counted.Counting.{round_in, member_of, setup_majority, in_own_round, repeats_held, accepted_set_with, only_counts_accept, keeps_held, prepared_set_with, completes_majority, gathers_promises, only_counts_promise, only_counts, with_counted};

use arrays::Setup;
use basics::tables::PerProcess;
use flat::{FlatCore, FlatMessage};
use message::{PFMode, PaxosRound};
use round_state::{Member, accept_fits, get_last_accepted_round};

// setup, c and m are parameters of their own: they are the flat forms of three arrays that a host lends, and each question reads one or two of them.

pub fn round_in(m: FlatMessage) -> PaxosRound
    ensures { result ≡ round_in m }
{
    PaxosRound {
        round_group: m.round_group,
        leader: m.leader,
    }
}

fn member_of(setup: Setup) -> Member
    ensures { result ≡ member_of setup }
{
    crate::decided::asked_of(setup).member
}

// A majority of the group's replicas.
pub fn setup_majority(setup: Setup) -> u64
    ensures { result ≡ setup_majority setup }
{
    quorum::row_of(setup.replica_count).majority
}

// Whether member and source are live replicas, and the message is of no later round than the core's. Older ones are ignored before.
#[tactic(auto, using(message::proofs::Comparisons::rounds_before), unfolding(crate::specs::counted::Counting::in_own_round))]
fn in_own_round(setup: Setup, c: FlatCore, m: FlatMessage) -> bool
    ensures { result ≡ in_own_round setup c m }
{
    if !basics::sets::contains(setup.alive_replicas, setup.my_pid) {
        return false;
    }
    if !basics::sets::contains(setup.alive_replicas, m.src) {
        return false;
    }
    flat::decoded_round(c.round) >= Some(round_in(m))
}

// Whether what is held is the accept's value, accepted in its round: then the accept changes it in nothing.
#[tactic(auto, using(message::proofs::Comparisons::rounds_before), unfolding(crate::specs::counted::Counting::repeats_held))]
fn repeats_held(c: FlatCore, m: FlatMessage) -> bool
    ensures { result ≡ repeats_held c m }
{
    let held = flat::decoded_held(c.max_rv);
    let round = round_in(m);
    if get_last_accepted_round(held) < Some(round) {
        return false;
    }
    accept_fits(held, round, m.v)
}

#[tactic(auto, unfolding(crate::specs::counted::Counting::accepted_set_with))]
fn accepted_set_with(setup: Setup, c: FlatCore, m: FlatMessage) -> u64
    ensures { result ≡ accepted_set_with setup c m }
{
    member_of(setup).counted(m.src, c.accepted_set)
}

// Whether an accept is counted by the leader and the majority is not reached.
#[tactic(auto, unfolding(crate::specs::counted::Counting::only_counts_accept))]
fn only_counts_accept(setup: Setup, c: FlatCore, m: FlatMessage) -> bool
    ensures { result ≡ only_counts_accept setup c m }
{
    setup.my_pid == m.leader
        && in_own_round(setup, c, m)
        && repeats_held(c, m)
        && basics::sets::size(accepted_set_with(setup, c, m)) < setup_majority(setup)
}

// Whether what is held stays: something is held, and the promise's value was not accepted later.
#[tactic(auto, using(message::proofs::Comparisons::rounds_before), unfolding(crate::specs::counted::Counting::keeps_held))]
fn keeps_held(c: FlatCore, m: FlatMessage) -> bool
    ensures { result ≡ keeps_held c m }
{
    let held = flat::decoded_held(c.max_rv);
    if held.is_none() {
        return false;
    }
    let promise = flat::decoded_promise(m.rv);
    get_last_accepted_round(held) >= promise.get_accept_round()
}

#[tactic(auto, unfolding(crate::specs::counted::Counting::prepared_set_with))]
fn prepared_set_with(setup: Setup, c: FlatCore, m: FlatMessage) -> u64
    ensures { result ≡ prepared_set_with setup c m }
{
    member_of(setup).counted(m.src, c.prepared_set)
}

// Whether the majority is reached with this promise: then the accept phase begins.
#[tactic(auto, unfolding(crate::specs::counted::Counting::completes_majority))]
fn completes_majority(setup: Setup, c: FlatCore, m: FlatMessage) -> bool
    ensures { result ≡ completes_majority setup c m }
{
    let majority = setup_majority(setup);
    basics::sets::size(c.prepared_set) < majority
        && basics::sets::size(prepared_set_with(setup, c, m)) >= majority
}

// Whether the member gathers the promises of the round. That a fast value's proposer may gather them is left to the handlers.
#[tactic(auto, unfolding(crate::specs::counted::Counting::gathers_promises))]
fn gathers_promises(setup: Setup, delegates: &PerProcess, m: FlatMessage) -> bool
    ensures { result ≡ gathers_promises setup delegates.now m }
{
    m.rv.fast == 0
        && settings::delegate_in(delegates, PFMode::of_number(setup.mode), m.leader) == setup.my_pid
}

// Whether a promise is counted, and the majority is not reached with this one.
#[tactic(auto, unfolding(crate::specs::counted::Counting::only_counts_promise))]
fn only_counts_promise(setup: Setup, delegates: &PerProcess, c: FlatCore, m: FlatMessage) -> bool
    ensures { result ≡ only_counts_promise setup delegates.now c m }
{
    gathers_promises(setup, delegates, m)
        && in_own_round(setup, c, m)
        && keeps_held(c, m)
        && !completes_majority(setup, c, m)
}

// Whether the message is only counted.
#[tactic(auto, unfolding(crate::specs::counted::Counting::only_counts))]
pub fn only_counts(setup: Setup, delegates: &PerProcess, c: FlatCore, m: FlatMessage) -> bool
    ensures { result ≡ only_counts setup delegates.now c m }
{
    match m.kind {
        flat::ACCEPT => only_counts_accept(setup, c, m),
        flat::PREPARE => only_counts_promise(setup, delegates, c, m),
        _ => false,
    }
}

// The core with the sender counted. An accept takes the slot off the fast path.
#[tactic(auto, unfolding(crate::specs::counted::Counting::with_counted))]
pub fn with_counted(setup: Setup, mut c: FlatCore, m: FlatMessage) -> FlatCore
    ensures { result ≡ with_counted setup c m }
{
    if m.kind == flat::ACCEPT {
        c.accepted_set = accepted_set_with(setup, c, m);
        c.slot_left_fast_path = 1;
        return c;
    }
    c.prepared_set = prepared_set_with(setup, c, m);
    c
}
