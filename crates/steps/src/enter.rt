// What a Prepare and an Accept have in common: who takes part, which messages are old, and the round that a message enters.
#![tactic(auto)]

ghost use Rattle.std.specs.Prelude.{◌≡◌};
ghost use Rattle.steps.specs.enter.Enter.{can_propose, source_taken, in_round, is_older, from_live, enter};

use crate::{Asked, Core, CoreStep, Heard, no_messages};
use message::{PaxosRound, Refusal};

// asked, heard and round are parameters of their own, as in classic::accept, which tells of a trial: two of these six functions take all three.

// Whether the member takes part: a replica does, and in SwiftPaxos its clients do.
pub fn can_propose(asked: Asked) -> bool
    ensures { result ≡ can_propose asked }
{
    asked.member.replica || asked.mode.is_swift_paxos()
}

fn source_taken(asked: Asked, heard: Heard) -> bool
    ensures { result ≡ source_taken asked heard }
{
    heard.source_live || asked.mode.is_swift_paxos()
}

// A later round is entered.
#[tactic(auto, using(message::proofs::Comparisons::rounds_before), unfolding(crate::specs::enter::Enter::in_round))]
fn in_round(core: Core, round: PaxosRound) -> Core
    ensures { result ≡ in_round round core }
{
    let paxos = core.paxos;
    if paxos.round < Some(round) {
        return core.with_paxos(paxos.goto_round(Some(round)));
    }
    core
}

// Whether a message is of an older slot or round.
#[tactic(auto, using(message::proofs::Comparisons::rounds_before), unfolding(crate::specs::enter::Enter::is_older))]
fn is_older(core: Core, slot: u64, round: PaxosRound) -> bool
    ensures { result ≡ is_older slot round core }
{
    slot < core.slot || Some(round) < core.paxos.round
}

#[tactic(auto, unfolding(crate::specs::enter::Enter::from_live))]
fn from_live(asked: Asked, heard: Heard, round: PaxosRound, core: Core) -> Result<CoreStep, Refusal>
    ensures { result ≡ from_live asked heard round core }
{
    if source_taken(asked, heard) {
        return Ok(in_round(core, round).continues(no_messages()));
    }
    Err(Refusal::SourceNotLive)
}

// What a Prepare and an Accept have in common. One that is simply old does nothing, before anything else of it is looked at.
#[tactic(auto, unfolding(crate::specs::enter::Enter::enter))]
pub fn enter(
    asked: Asked,
    heard: Heard,
    slot: u64,
    round: PaxosRound,
    core: Core,
) -> Result<CoreStep, Refusal>
    ensures { result ≡ enter asked heard slot round core }
{
    if can_propose(asked) {
        if is_older(core, slot, round) {
            return Ok(core.stays_silent());
        }
        return from_live(asked, heard, round, core);
    }
    Ok(core.stays_silent())
}
