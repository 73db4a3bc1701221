// Whether the numbers and the process numbers of a message are within the limits: refusals 2 and 3.
#![tactic(auto)]

ghost use Rattle.std.specs.Prelude.{◌≡◌};
ghost use Rattle.message.specs.limits.Limits.{is_number, is_slot, round_numbers, rv_numbers, msg_numbers, number_given, rv_processes, msg_processes, requester_below};

use crate::{ConsensusMsg, LARGEST_NUMBER, LARGEST_SLOT, PaxosRound, RoundV};

pub fn is_number(n: u64) -> bool
    ensures { result ≡ is_number n }
{
    n <= LARGEST_NUMBER
}

// The slot after the last one that may be named is spent.
pub fn is_slot(n: u64) -> bool
    ensures { result ≡ is_slot n }
{
    n <= LARGEST_SLOT
}

#[tactic(auto, unfolding(crate::specs::limits::Limits::round_numbers))]
fn round_numbers(round: PaxosRound) -> bool
    ensures { result ≡ round_numbers round }
{
    is_number(round.round_group) && is_number(round.leader)
}

#[tactic(auto, unfolding(crate::specs::limits::Limits::rv_numbers))]
fn rv_numbers(rv: RoundV) -> bool
    ensures { result ≡ rv_numbers rv }
{
    match rv {
        RoundV::FastV { proposer, v } => is_number(proposer) && is_number(v),
        RoundV::PaxosV {
            accept_round: None,
            v,
        } => is_number(v),
        RoundV::PaxosV {
            accept_round: Some(round),
            v,
        } => round_numbers(round) && is_number(v),
    }
}

#[tactic(auto, unfolding(crate::specs::limits::Limits::msg_numbers))]
pub fn msg_numbers(msg: ConsensusMsg) -> bool
    ensures { result ≡ msg_numbers msg }
{
    match msg {
        ConsensusMsg::Prepare { slot, round, rv } => {
            is_slot(slot) && round_numbers(round) && rv_numbers(rv)
        }
        ConsensusMsg::Accept { slot, round, v } => {
            is_slot(slot) && round_numbers(round) && is_number(v)
        }
        ConsensusMsg::ForwardRequest { v } => is_number(v),
        ConsensusMsg::Commit { slot, v } => is_slot(slot) && is_number(v),
        ConsensusMsg::ReadRequest { id } => is_number(id.0),
        ConsensusMsg::ReadResponse {
            id,
            next_readable_slot,
        } => is_number(id.0) && is_number(next_readable_slot),
    }
}

// A value or a process number, where one is given.
#[tactic(auto, unfolding(crate::specs::limits::Limits::number_given))]
pub fn number_given(n: Option<u64>) -> bool
    ensures { result ≡ number_given n }
{
    n.is_none_or(is_number)
}

#[tactic(auto, unfolding(crate::specs::limits::Limits::rv_processes))]
fn rv_processes(n: u64, rv: RoundV) -> bool
    ensures { result ≡ rv_processes n rv }
{
    match rv {
        RoundV::FastV { proposer, .. } => proposer < n,
        RoundV::PaxosV { accept_round, .. } => accept_round.is_none_or(|round| round.leader < n),
    }
}

#[tactic(auto, unfolding(crate::specs::limits::Limits::msg_processes))]
pub fn msg_processes(n: u64, msg: ConsensusMsg) -> bool
    ensures { result ≡ msg_processes n msg }
{
    match msg {
        ConsensusMsg::Prepare { round, rv, .. } => round.leader < n && rv_processes(n, rv),
        ConsensusMsg::Accept { round, .. } => round.leader < n,
        ConsensusMsg::ForwardRequest { .. }
        | ConsensusMsg::Commit { .. }
        | ConsensusMsg::ReadRequest { .. }
        | ConsensusMsg::ReadResponse { .. } => true,
    }
}

#[tactic(auto, unfolding(crate::specs::limits::Limits::requester_below))]
pub fn requester_below(n: u64, requester: Option<u64>) -> bool
    ensures { result ≡ requester_below n requester }
{
    requester.is_none_or(|p| p < n)
}
