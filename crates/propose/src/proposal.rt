// Who may propose, and in which round.
#![tactic(auto)]

ghost use Rattle.std.specs.Prelude.{◌≡◌};
ghost use Rattle.propose.specs.proposal.Proposal.{not_allowed, electing, proposal_round, round_allowed, may_propose};

use message::{PaxosRound, Refusal};
use steps::{Asked, Core};

// Every assertion that the Rust meets in `propose` is this refusal.
pub fn not_allowed() -> Refusal
    ensures { result ≡ not_allowed }
{
    Refusal::ProposalNotAllowed
}

// Whose round a proposal opens.
#[tactic(auto, unfolding(crate::specs::proposal::Proposal::electing))]
pub fn electing(asked: Asked) -> u64
    ensures { result ≡ electing asked }
{
    if asked.mode.is_swift_paxos() {
        return asked.first_leader;
    }
    asked.member.my_pid
}

// The round that a proposal opens.
pub fn proposal_round(asked: Asked, core: Core) -> PaxosRound
    ensures { result ≡ proposal_round asked core }
{
    core.paxos
        .round
        .unwrap_or(PaxosRound::DEFAULT)
        .next_leader_round(electing(asked))
}

// In MultiPaxos only the leader from the start proposes; in the other modes every round is allowed.
#[tactic(auto, using(message::proofs::Comparisons::rounds_equal))]
fn round_allowed(asked: Asked, core: Core) -> bool
    ensures { result ≡ round_allowed asked core }
{
    if asked.mode.is_multi_paxos() {
        return Some(proposal_round(asked, core)) == asked.starting_round;
    }
    true
}

// Whether the Rust's propose would meet no failed assertion.
#[tactic(auto, using(message::proofs::Comparisons::rounds_equal), unfolding(crate::specs::proposal::Proposal::may_propose))]
pub fn may_propose(asked: Asked, core: Core) -> bool
    ensures { result ≡ may_propose asked core }
{
    if core.paxos.max_rv.is_some() {
        return false;
    }
    steps::enter::can_propose(asked)
        && core.paxos.round == asked.starting_round
        && round_allowed(asked, core)
}
