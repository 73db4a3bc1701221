// The round state of the paxos family, first half: rounds, the held promise, and who is counted. With the crates fast_state, fast_state::epaxos and
// fast_state::swift it is the Rust's round_state.rs. Each operation takes the state and hands back the next one, or why it is refused.
#![tactic(auto)]

ghost use Rattle.std.specs.Prelude.{◌≡◌, Some};
ghost use Rattle.round_state.specs.Paxos.{get_v, get_last_accepted_round, is_prepared, paxos_can_commit, with_sender, with_own, counted, goto_round, next_round, full_clear, held_after_promise, receive_promise, paxos_propose_v, held_is, accept_fits, receive_accept, accept_own, self_accept, adopt_from_epaxos};

use message::{PaxosRound, Refusal, RoundV};
use quorum::QuorumRow;

// What the round state asks of the settings: the own number, whether it is a replica's, and the quorums.
#[derive(Clone, Copy, PartialEq, Eq, Debug)]
pub struct Member {
    pub my_pid: u64,
    pub replica: bool,
    pub quorums: QuorumRow,
}

// Paxos and MultiPaxos state. `max_rv` is the promise that is held. The prepared and accepted counts are the sizes of their sets.
#[derive(Clone, Copy, PartialEq, Eq, Debug)]
pub struct PaxosState {
    pub round: Option<PaxosRound>,
    pub max_rv: Option<RoundV>,
    pub prepared_set: u64,
    pub accepted_set: u64,
}

// The value that is held.
pub fn get_v(held: Option<RoundV>) -> Option<u64>
    ensures { result ≡ get_v held }
{
    held.map(|rv| rv.get_v())
}

pub fn get_last_accepted_round(held: Option<RoundV>) -> Option<PaxosRound>
    ensures { result ≡ get_last_accepted_round held }
{
    held.and_then(|rv| rv.get_accept_round())
}

// What is held after a promise: the new one if nothing is held or its accept round is later.
#[tactic(auto, using(message::proofs::Comparisons::rounds_before), unfolding(crate::specs::Paxos::held_after_promise))]
pub fn after_promise(held: Option<RoundV>, rv: RoundV) -> Option<RoundV>
    ensures { result ≡ held_after_promise held rv }
{
    match held {
        Some(old) if old.get_accept_round() >= rv.get_accept_round() => held,
        _ => Some(rv),
    }
}

// Whether what is held is v, accepted in the round.
#[tactic(auto, using(message::proofs::Comparisons::rounds_equal))]
fn is_accepted(held: Option<RoundV>, round: PaxosRound, v: u64) -> bool
    ensures { result ≡ held_is held round v }
{
    match held {
        Some(RoundV::PaxosV { accept_round, v: w }) => accept_round == Some(round) && w == v,
        _ => false,
    }
}

// Whether an accept is later than the last accepted round, or equal to what is held.
#[tactic(auto, using(message::proofs::Comparisons::rounds_before), unfolding(crate::specs::Paxos::accept_fits))]
pub fn accept_fits(held: Option<RoundV>, round: PaxosRound, v: u64) -> bool
    ensures { result ≡ accept_fits held round v }
{
    get_last_accepted_round(held) < Some(round) || is_accepted(held, round, v)
}

impl Member {
    #[tactic(auto, unfolding(crate::specs::Paxos::with_sender))]
    fn with_sender(self, src: u64, set: u64) -> u64
        ensures { result ≡ with_sender self src set }
    {
        if src == self.my_pid {
            return set;
        }
        basics::sets::insert(set, src)
    }

    #[tactic(auto, unfolding(crate::specs::Paxos::with_own))]
    fn with_own(self, set: u64) -> u64
        ensures { result ≡ with_own self set }
    {
        if self.replica {
            return basics::sets::insert(set, self.my_pid);
        }
        set
    }

    // The set with the sender, and with the own process if it is a replica.
    pub fn counted(self, src: u64, set: u64) -> u64
        ensures { result ≡ counted self src set }
    {
        self.with_own(self.with_sender(src, set))
    }
}

// `mut self` is the form that document 01 names for operations that hand back the next state: they store what they change.
impl PaxosState {
    pub fn is_prepared(self, me: Member) -> bool
        ensures { result ≡ is_prepared me self }
    {
        basics::sets::size(self.prepared_set) >= me.quorums.majority
    }

    pub fn paxos_can_commit(self, me: Member) -> bool
        ensures { result ≡ paxos_can_commit me self }
    {
        basics::sets::size(self.accepted_set) >= me.quorums.majority
    }

    // A new round clears both sets, not the held promise.
    pub fn next_round(mut self) -> PaxosState
        ensures { result ≡ next_round self }
    {
        self.prepared_set = 0;
        self.accepted_set = 0;
        self
    }

    // Another round, with nothing counted in it.
    pub fn goto_round(mut self, round: Option<PaxosRound>) -> PaxosState
        ensures { result ≡ goto_round round self }
    {
        self.round = round;
        self.next_round()
    }

    // A commit clears everything but the round, which is set before.
    pub fn full_clear(mut self) -> PaxosState
        ensures { result ≡ full_clear self }
    {
        self.max_rv = None;
        self.next_round()
    }

    #[tactic(auto, unfolding(crate::specs::Paxos::receive_promise))]
    pub fn receive_promise(mut self, me: Member, src: u64, rv: RoundV) -> PaxosState
        ensures { result ≡ receive_promise me src rv self }
    {
        self.prepared_set = me.counted(src, self.prepared_set);
        self.max_rv = after_promise(self.max_rv, rv);
        self
    }

    // The promise for one's own proposal, where nothing is held and nothing prepared.
    #[tactic(auto, unfolding(crate::specs::Paxos::paxos_propose_v))]
    pub fn paxos_propose_v(self, me: Member, rv: RoundV) -> Result<PaxosState, Refusal>
        ensures { result ≡ paxos_propose_v me rv self }
    {
        if self.max_rv.is_some() || !basics::sets::is_empty(self.prepared_set) {
            return Err(Refusal::Panic);
        }
        Ok(self.receive_promise(me, me.my_pid, rv))
    }

    #[tactic(auto, unfolding(crate::specs::Paxos::receive_accept))]
    pub fn receive_accept(
        mut self,
        me: Member,
        src: u64,
        round: PaxosRound,
        v: u64,
    ) -> Result<PaxosState, Refusal>
        ensures { result ≡ receive_accept me src round v self }
    {
        if !accept_fits(self.max_rv, round, v) {
            return Err(Refusal::AcceptUnlikeHeld);
        }
        self.accepted_set = me.counted(src, self.accepted_set);
        self.max_rv = Some(RoundV::PaxosV {
            accept_round: Some(round),
            v,
        });
        Ok(self)
    }

    #[tactic(auto, unfolding(crate::specs::Paxos::accept_own))]
    fn accept_own(
        self,
        me: Member,
        round: PaxosRound,
        held: Option<u64>,
    ) -> Result<PaxosState, Refusal>
        ensures { result ≡ accept_own me round self held }
    {
        self.receive_accept(me, me.my_pid, round, held.ok_or(Refusal::Panic)?)
    }

    // One's own accept of the held value, where nothing is accepted yet.
    #[tactic(auto, unfolding(crate::specs::Paxos::self_accept))]
    pub fn self_accept(self, me: Member, round: PaxosRound) -> Result<PaxosState, Refusal>
        ensures { result ≡ self_accept me round self }
    {
        if basics::sets::is_empty(self.accepted_set) {
            return self.accept_own(me, round, get_v(self.max_rv));
        }
        Err(Refusal::AcceptUnlikeHeld)
    }

    // One's own accept of another value than the held one.
    pub fn adopt_from_epaxos(
        mut self,
        me: Member,
        round: PaxosRound,
        v: u64,
    ) -> Result<PaxosState, Refusal>
        ensures { result ≡ adopt_from_epaxos me round v self }
    {
        self.max_rv = Some(RoundV::PaxosV {
            accept_round: None,
            v,
        });
        self.self_accept(me, round)
    }
}
