// The numbers of a line as a call (docs/ORACLE.md, "Call lines"). A number past the end of the line counts as 0, so that no function here
// asks how long the line is; the line's fault says whether it is a call at all. Kinds of lines and of promises are numbers, as the format has them:
// each is looked at in one place, and any number has an answer there.
#![tactic(auto)]

ghost use Rattle.std.specs.Prelude.{◌≡◌, ◌<◌, IfSome};
ghost use Rattle.lines_read.specs.line_calls.Calls.{optional, promise_of, prepare_of, accept_of, line_message, words_place, said_at, delivery_at, call_of_numbers};

use call_lines::number_at;
use calls::Call;
use calls::delivery::{Delivery, Said};
use message::{ConsensusMessage, ConsensusMsg, PaxosRound, ReadId, RoundV};

// `x?`: the value counts where the flag is 1.
pub fn optional<T: Drop>(flag: u64, value: T) -> Option<T>
    ensures { result ≡ optional flag value }
{
    (flag == 1).then_some(value)
}

#[tactic(auto, unfolding(crate::specs::line_calls::Calls::promise_of))]
pub fn promise_of(kind: u64, a: u64, b: u64, v: u64) -> RoundV
    ensures { result ≡ promise_of kind a b v }
{
    match kind {
        0 => RoundV::FastV { proposer: a, v },
        1 => RoundV::PaxosV {
            accept_round: None,
            v,
        },
        _ => RoundV::PaxosV {
            accept_round: Some(PaxosRound {
                round_group: a,
                leader: b,
            }),
            v,
        },
    }
}

// The message of a line of kind 5.
#[tactic(auto, unfolding(crate::specs::line_calls::Calls::prepare_of))]
fn prepare_of(numbers: &[u64]) -> ConsensusMsg
    ensures { result ≡ prepare_of numbers.now }
{
    let round = PaxosRound {
        round_group: number_at(numbers, 5),
        leader: number_at(numbers, 6),
    };
    let kind = number_at(numbers, 7);
    let a = number_at(numbers, 8);
    let b = number_at(numbers, 9);
    let v = number_at(numbers, 10);
    ConsensusMsg::Prepare {
        slot: number_at(numbers, 4),
        round,
        rv: promise_of(kind, a, b, v),
    }
}

#[tactic(auto, unfolding(crate::specs::line_calls::Calls::accept_of))]
fn accept_of(numbers: &[u64]) -> ConsensusMsg
    ensures { result ≡ accept_of numbers.now }
{
    let round = PaxosRound {
        round_group: number_at(numbers, 5),
        leader: number_at(numbers, 6),
    };
    ConsensusMsg::Accept {
        slot: number_at(numbers, 4),
        round,
        v: number_at(numbers, 7),
    }
}

// The message of a line of kind 5 to 10.
#[tactic(auto, unfolding(crate::specs::line_calls::Calls::line_message))]
fn line_message(numbers: &[u64]) -> ConsensusMsg
    ensures { result ≡ line_message numbers.now }
{
    let fourth = number_at(numbers, 4);
    let fifth = number_at(numbers, 5);
    match number_at(numbers, 0) {
        5 => prepare_of(numbers),
        6 => accept_of(numbers),
        7 => ConsensusMsg::ForwardRequest { v: fourth },
        8 => ConsensusMsg::Commit {
            slot: fourth,
            v: fifth,
        },
        9 => ConsensusMsg::ReadRequest { id: ReadId(fourth) },
        _ => ConsensusMsg::ReadResponse {
            id: ReadId(fourth),
            next_readable_slot: fifth,
        },
    }
}

// Where the host's words begin on a line of this kind, if it has some.
#[tactic(auto, unfolding(crate::specs::line_calls::Calls::words_place))]
pub fn words_place(kind: u64) -> Option<usize>
    ensures value { result ≡ words_place kind }
    ensures upper_bound { IfSome result (λ at. at < 100) }
{
    match kind {
        5 => Some(11),
        6 => Some(8),
        7 | 9 => Some(5),
        8 | 10 => Some(6),
        _ => None,
    }
}

// A place and no slice that begins there: a line may end before it, so that the place would be cut to its length first. So in `delivery_at`.
#[tactic(auto, unfolding(crate::specs::line_calls::Calls::said_at))]
fn said_at(numbers: &[u64], at: usize) -> Said
    requires { at < 100 }
    ensures { result ≡ said_at numbers.now at }
{
    let held = number_at(numbers, at);
    let flag = number_at(numbers, at + 1);
    let requester = number_at(numbers, at + 2);
    let fast = number_at(numbers, at + 3);
    Said {
        value_held: held == 1,
        requester: optional(flag, requester),
        fast: fast == 1,
    }
}

// The message of a line whose host's words begin at `at`.
#[tactic(auto, unfolding(crate::specs::line_calls::Calls::delivery_at))]
fn delivery_at(numbers: &[u64], at: usize) -> Delivery
    requires { at < 100 }
    ensures { result ≡ delivery_at numbers.now at }
{
    let last = number_at(numbers, 2);
    let last_v = number_at(numbers, 3);
    let flag = number_at(numbers, at + 4);
    let requester = number_at(numbers, at + 5);
    let message = ConsensusMessage {
        msg: line_message(numbers),
        src: number_at(numbers, 1),
        last_v: optional(last, last_v),
    };
    Delivery {
        message,
        said: said_at(numbers, at),
        held_requester: optional(flag, requester),
    }
}

// The call of a line of kind 3 to 10. On a line of another kind, which is no call, the words count as those from its first number on.
#[tactic(auto, unfolding(crate::specs::line_calls::Calls::call_of_numbers))]
pub fn call_of_numbers(numbers: &[u64]) -> Call
    ensures { result ≡ call_of_numbers numbers.now }
{
    match number_at(numbers, 0) {
        3 => Call::Propose(number_at(numbers, 1)),
        4 => Call::StartRead {
            tag: number_at(numbers, 1),
            arrival_slot: number_at(numbers, 2),
        },
        kind => Call::Receive(delivery_at(numbers, words_place(kind).unwrap_or(0))),
    }
}
