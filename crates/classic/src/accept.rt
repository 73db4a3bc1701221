// What an Accept does: who is told of an accepted value, who counts, and the commit that the last of the accepts brings.
#![tactic(auto)]

ghost use Rattle.std.specs.Prelude.{◌≡◌};
ghost use Rattle.classic.specs.accept.Accept.{tells_committer, is_committer, accept_to, committer_hears, answer_accept, commit_message, tells_commit, with_commit_message, try_commit, accept_answer, continues_fast, counts_accepts, accept_taken, accepting};

use message::{ConsensusMsg, PFMode, PaxosRound, Refusal};
use steps::{Asked, Core, CoreStep, Destination, Heard, Outgoing, SentMessages};

// asked, heard and round are parameters of their own: a struct of them was tried here, and the page was as long, since the contracts name the settings' part
// and the message's part apart, and 5 of these 14 functions take one or two of the three.

// Whether a committer hears the accepts of the mode.
fn tells_committer(mode: PFMode) -> bool
    ensures { result ≡ tells_committer mode }
{
    matches!(mode, PFMode::MultiPaxos3P | PFMode::SwiftPaxos)
}

// Whether the member commits the value by the accepts that it hears, as the round's leader does.
#[tactic(auto, using(message::proofs::Comparisons::process_equal), unfolding(crate::specs::accept::Accept::is_committer))]
fn is_committer(asked: Asked, heard: Heard) -> bool
    ensures { result ≡ is_committer asked heard }
{
    tells_committer(asked.mode) && heard.committer == Some(asked.member.my_pid)
}

fn accept_to(asked: Asked, core: Core, round: PaxosRound, p: u64) -> Outgoing
    ensures { result ≡ accept_to asked core round p }
{
    let accept = ConsensusMsg::Accept {
        slot: core.slot,
        round,
        v: steps::held_value(core.paxos.max_rv),
    };
    asked.sends(core, Destination::One(p), accept)
}

// Whether process p, the committer, hears an accept besides the leader.
#[tactic(auto, unfolding(crate::specs::accept::Accept::committer_hears))]
fn committer_hears(asked: Asked, round: PaxosRound, p: u64) -> bool
    ensures { result ≡ committer_hears asked round p }
{
    tells_committer(asked.mode) && p != round.leader && p != asked.member.my_pid
}

// The own accept, to the committer first and then to the leader.
#[tactic(auto, unfolding(crate::specs::accept::Accept::answer_accept))]
fn answer_accept(
    asked: Asked,
    round: PaxosRound,
    core: Core,
    committer: Option<u64>,
) -> SentMessages
    ensures { result ≡ answer_accept asked round core committer }
{
    let to_leader = accept_to(asked, core, round, round.leader);
    match committer {
        Some(p) if committer_hears(asked, round, p) => {
            steps::two_messages(accept_to(asked, core, round, p), to_leader)
        }
        _ => steps::one_message(to_leader),
    }
}

// The held value is committed: to all, and to its requester first.
pub fn commit_message(asked: Asked, core: Core, requester: Option<u64>) -> Outgoing
    ensures { result ≡ commit_message asked core requester }
{
    let commit = ConsensusMsg::Commit {
        slot: core.slot,
        v: steps::held_value(core.paxos.max_rv),
    };
    asked.sends(
        core,
        Destination::All(asked.first_served(requester)),
        commit,
    )
}

// The leader tells of the commit. A committer tells of it where the requester is another process.
#[tactic(auto, using(message::proofs::Comparisons::process_equal), unfolding(crate::specs::accept::Accept::tells_commit))]
fn tells_commit(asked: Asked, heard: Heard, round: PaxosRound) -> bool
    ensures { result ≡ tells_commit asked heard round }
{
    if round.leader == asked.member.my_pid {
        return true;
    }
    heard.requester != Some(asked.member.my_pid)
}

#[tactic(auto, unfolding(crate::specs::accept::Accept::with_commit_message))]
fn with_commit_message(
    asked: Asked,
    heard: Heard,
    round: PaxosRound,
    core: Core,
    messages: SentMessages,
) -> SentMessages
    ensures { result ≡ with_commit_message asked heard round core messages }
{
    if tells_commit(asked, heard, round) {
        return messages.also(commit_message(asked, core, heard.requester));
    }
    messages
}

// A majority of accepts commits the value.
#[tactic(auto, unfolding(crate::specs::accept::Accept::try_commit))]
pub fn try_commit(
    asked: Asked,
    heard: Heard,
    round: PaxosRound,
    v: u64,
    core: Core,
    messages: SentMessages,
) -> CoreStep
    ensures { result ≡ try_commit asked heard round v core messages }
{
    if core.paxos.paxos_can_commit(asked.member) {
        let told = with_commit_message(asked, heard, round, core, messages);
        return core.left_fast_path().commits(v, told);
    }
    core.stays(messages)
}

// What the delegate's accept is answered with. The leader answers nobody, and no other accept is answered.
#[tactic(auto, unfolding(crate::specs::accept::Accept::accept_answer))]
fn accept_answer(asked: Asked, heard: Heard, round: PaxosRound, core: Core) -> SentMessages
    ensures { result ≡ accept_answer asked heard round core }
{
    if asked.member.my_pid == round.leader {
        return steps::no_messages();
    }
    if heard.src == heard.delegate {
        return answer_accept(asked, round, core, heard.committer);
    }
    steps::no_messages()
}

// Whether the fast half goes on: in SwiftPaxos, at a committer that has answered.
#[tactic(auto, unfolding(crate::specs::accept::Accept::continues_fast))]
fn continues_fast(asked: Asked, heard: Heard, round: PaxosRound) -> bool
    ensures { result ≡ continues_fast asked heard round }
{
    asked.member.my_pid != round.leader
        && heard.src == heard.delegate
        && asked.mode.is_swift_paxos()
        && is_committer(asked, heard)
}

// Whether the accepts that are heard may commit the value here: at the leader, and at a committer.
#[tactic(auto, unfolding(crate::specs::accept::Accept::counts_accepts))]
fn counts_accepts(asked: Asked, heard: Heard, round: PaxosRound) -> bool
    ensures { result ≡ counts_accepts asked heard round }
{
    asked.member.my_pid == round.leader || is_committer(asked, heard)
}

// The Rust's three branches, of the leader, of one that answers and of one that only counts, meet in one place that commits: a function with one
// caller is compiled into it, and then nothing is copied.
#[tactic(auto, using(crate::proofs::accept::Roles::accepted_by_role))]
fn accept_taken(
    asked: Asked,
    heard: Heard,
    round: PaxosRound,
    v: u64,
    core: Core,
) -> Result<CoreStep, Refusal>
    ensures { result ≡ accept_taken asked heard round v core }
{
    let answer = accept_answer(asked, heard, round, core);
    if continues_fast(asked, heard, round) {
        return Ok(core.continues(answer));
    }
    if counts_accepts(asked, heard, round) {
        return Ok(try_commit(asked, heard, round, v, core, answer));
    }
    if heard.src == heard.delegate {
        return Ok(core.stays(answer));
    }
    Err(Refusal::Panic)
}

// An Accept in the round of the state.
#[tactic(auto, unfolding(crate::specs::accept::Accept::accepting))]
pub fn accepting(
    asked: Asked,
    heard: Heard,
    round: PaxosRound,
    v: u64,
    core: Core,
) -> Result<CoreStep, Refusal>
    ensures { result ≡ accepting asked heard round v core }
{
    let p = core
        .paxos
        .receive_accept(asked.member, heard.src, round, v)?;
    let taken = crate::prepare::off_fast_path(asked, core.with_paxos(p));
    accept_taken(asked, heard, round, v, taken)
}
