// A call on a shard that its owner lends and that is changed in place, and what of such a shard is read.
#![tactic(auto)]

ghost use Rattle.std.specs.Prelude.{◌≡◌};
ghost use Rattle.consensus.specs.Call.{call_decision, call_of};

use calls::{Call, Reply, Taken};
use consensus::Shard;
use message::{PaxosRound, Refusal};
use read_tracker::ReadTable;

// What is decided of the call before it is handled.
fn decision_in_place(s: &Shard, call: Call) -> Result<Taken, Refusal>
    ensures { result ≡ call_decision s.now call }
{
    calls::decision_of(s.made, &s.settings, s.state.rounds.core, call)
}

// A call on the shard that is lent: its state is taken out, the call by value is made of it, and the state is written back. The settings stay where they are.
#[tactic(auto, unfolding(consensus::specs::Call::call_with))]
pub fn call_in_place(s: &mut Shard, call: Call) -> Reply
    ensures { (s.new ≡ (call_of s.old call).shard) × (result ≡ (call_of s.old call).reply) }
{
    let decision = decision_in_place(s, call);
    let answer = consensus::state_call(s.state, decision);
    s.state = answer.state;
    answer.reply
}

// The slot of a shard that is lent to be read.
pub fn slot(s: &Shard) -> u64
    ensures { result ≡ s.now.state.rounds.core.slot }
{
    s.state.rounds.core.slot
}

// Its round.
pub fn round(s: &Shard) -> Option<PaxosRound>
    ensures { result ≡ s.now.state.rounds.core.paxos.round }
{
    s.state.rounds.core.paxos.round
}

// The number of its open reads.
pub fn open_reads(s: &Shard) -> u64
    ensures { result ≡ s.now.state.rounds.core.tracker.open_count }
{
    s.state.rounds.core.tracker.open_count
}

// Its open reads, and those that the last call served.
pub fn reads(s: &Shard) -> ReadTable
    ensures { result ≡ s.now.state.table }
{
    s.state.table
}
