// The handlers of the paxos family: the Rust's paxos_family.rs. Prepare and Accept by mode, and the commit of a slot.
#![tactic(auto)]

ghost use Rattle.std.specs.Prelude.{◌≡◌, true, false, Ok};
ghost use Rattle.steps.specs.Steps.{goes_on};
ghost use Rattle.paxos_family.specs.Process.{entered_prepare, on_prepare, on_accept, process_classic, fast_prepared, fast_promised, leads_round, starts_accept, waits, fast_answered, fast_gather, entered_fast_prepare, on_fast_prepare, replica_accept, entered_fast_accept, on_fast_accept, process_change, process_fast};
ghost use Rattle.paxos_family.specs.Commit.{commit_core, commit_slot, next_core, next_slot};
ghost use Rattle.fast_state.specs.Adopt.{lowest_best};

use fast_state::{FastAnswers, FastState, FastTables};
use message::{ConsensusMsg, PaxosRound, Refusal, RoundV};
use steps::{Asked, ChangeStep, Core, CoreStep, Heard, Rounds, RoundsStep};

// asked, heard and round are parameters of their own, as in classic::accept and classic::prepare, whose functions are called with them: a struct of the three
// would be taken apart in each contract (classic::accept tells of a trial). So are answers and tables: the first is changed by value, the others are lent.

// The rest of the handler where it goes on from a step, and else the step. In EPaxos and SwiftPaxos the same stands in the four handlers: by a function
// and_then_change like this one the proofs of the three whose rest takes the tables did not close, with `|core|` nor with `move |core|` (the goal `returns`).
#[inline(always)]
fn and_then<F: FnOnce(Core) -> Result<CoreStep, Refusal>>(
    step: CoreStep,
    rest: F,
) -> Result<CoreStep, Refusal>
    requires { F.IsAlwaysCallable rest }
    ensures goes_on { goes_on step.next ≡ true → F.post rest step.state result }
    ensures ends { goes_on step.next ≡ false → result ≡ Ok step }
{
    if step.next.goes_on() {
        return rest(step.state);
    }
    Ok(step)
}

// A Prepare in the entered round: the delegate goes on and counts the promise.
#[tactic(auto, unfolding(crate::specs::Process::entered_prepare))]
fn entered_prepare(
    asked: Asked,
    heard: Heard,
    round: PaxosRound,
    rv: RoundV,
    core: Core,
) -> Result<CoreStep, Refusal>
    ensures { result ≡ entered_prepare asked heard round rv core }
{
    let step = classic::prepare::prepare_answered(asked, heard, round, rv, core)?;
    and_then(
        step,
        |core| classic::prepare::gather(asked, heard, round, rv, core),
    )
}

#[tactic(auto, unfolding(crate::specs::Process::on_prepare))]
fn on_prepare(
    asked: Asked,
    heard: Heard,
    slot: u64,
    round: PaxosRound,
    rv: RoundV,
    core: Core,
) -> Result<CoreStep, Refusal>
    ensures { result ≡ on_prepare asked heard slot round rv core }
{
    let step = steps::enter::enter(asked, heard, slot, round, core)?;
    and_then(step, |core| entered_prepare(asked, heard, round, rv, core))
}

#[tactic(auto, unfolding(crate::specs::Process::on_accept))]
fn on_accept(
    asked: Asked,
    heard: Heard,
    slot: u64,
    round: PaxosRound,
    v: u64,
    core: Core,
) -> Result<CoreStep, Refusal>
    ensures { result ≡ on_accept asked heard slot round v core }
{
    let step = steps::enter::enter(asked, heard, slot, round, core)?;
    and_then(
        step,
        |core| classic::accept::accepting(asked, heard, round, v, core),
    )
}

// A message in the classic modes, which change the core alone. A ForwardRequest does nothing; Commit and reads are handled before.
#[tactic(auto, unfolding(crate::specs::Process::process_classic))]
pub fn process_classic(
    asked: Asked,
    heard: Heard,
    msg: ConsensusMsg,
    core: Core,
) -> Result<CoreStep, Refusal>
    ensures { result ≡ process_classic asked heard msg core }
{
    match msg {
        ConsensusMsg::Prepare { slot, round, rv } => on_prepare(
            asked, heard, slot, round, rv, core,
        ),
        ConsensusMsg::Accept { slot, round, v } => on_accept(asked, heard, slot, round, v, core),
        ConsensusMsg::ForwardRequest { .. }
        | ConsensusMsg::Commit { .. }
        | ConsensusMsg::ReadRequest { .. }
        | ConsensusMsg::ReadResponse { .. } => Ok(core.stays_silent()),
    }
}

// Of a Prepare a SwiftPaxos client, which is no replica, holds and answers nothing: the Rust goes to
// process_answers_at_swift_paxos_client at once.
#[tactic(auto, unfolding(crate::specs::Process::fast_prepared))]
fn fast_prepared(
    asked: Asked,
    heard: Heard,
    round: PaxosRound,
    rv: RoundV,
    core: Core,
) -> Result<CoreStep, Refusal>
    ensures { result ≡ fast_prepared asked heard round rv core }
{
    if asked.member.replica {
        return classic::prepare::prepare_answered(asked, heard, round, rv, core);
    }
    Ok(core.continues(steps::no_messages()))
}

// Nor does a client count a promise.
#[tactic(auto, unfolding(crate::specs::Process::fast_promised))]
fn fast_promised(asked: Asked, heard: Heard, rv: RoundV, core: Core) -> Core
    ensures { result ≡ fast_promised asked heard rv core }
{
    if asked.member.replica {
        return classic::prepare::with_promise(asked, heard, rv, core);
    }
    core
}

// Whether the member is a replica and leads the round.
#[tactic(auto, unfolding(crate::specs::Process::leads_round))]
fn leads_round(asked: Asked, round: PaxosRound) -> bool
    ensures { result ≡ leads_round asked round }
{
    asked.member.replica && round.leader == asked.member.my_pid
}

// The leader of SwiftPaxos accepts at once, where nothing is accepted yet. In EPaxos, once a value is accepted, the promises count as in Paxos.
#[tactic(auto, unfolding(crate::specs::Process::starts_accept))]
fn starts_accept(asked: Asked, round: PaxosRound, core: Core, promised: Core) -> bool
    ensures { result ≡ starts_accept asked round core promised }
{
    if asked.mode.is_swift_paxos() {
        return leads_round(asked, round) && !classic::prepare::has_accepted(promised);
    }
    classic::prepare::has_accepted(promised)
        && classic::prepare::becomes_prepared(asked, core, promised)
}

#[tactic(auto, unfolding(crate::specs::Process::waits))]
fn waits(asked: Asked, round: PaxosRound, promised: Core) -> bool
    ensures { result ≡ waits asked round promised }
{
    if asked.mode.is_swift_paxos() {
        return leads_round(asked, round);
    }
    classic::prepare::has_accepted(promised)
}

// Any other promise is an answer on the fast path.
#[tactic(auto, unfolding(crate::specs::Process::fast_answered))]
fn fast_answered(
    asked: Asked,
    heard: Heard,
    round: PaxosRound,
    rv: RoundV,
    promised: Core,
    answers: FastAnswers,
    tables: FastTables,
) -> Result<ChangeStep, Refusal>
    ensures { result ≡ fast_answered lowest_best asked heard round rv promised answers tables.entry.values.now tables.entry.epaxos_scores.now tables.entry.swift_scores.now }
{
    if asked.mode.is_swift_paxos() {
        return fast::swift::swift_client_prepare(
            asked,
            heard,
            round,
            rv,
            promised,
            answers,
            tables.swift_scores,
        );
    }
    fast::epaxos::epaxos_answer(
        asked,
        heard,
        round,
        rv,
        promised,
        answers,
        tables.values,
        tables.epaxos_scores,
    )
}

// The delegate counts a promise as its mode does.
#[tactic(auto, unfolding(crate::specs::Process::fast_gather))]
fn fast_gather(
    asked: Asked,
    heard: Heard,
    round: PaxosRound,
    rv: RoundV,
    core: Core,
    answers: FastAnswers,
    tables: FastTables,
) -> Result<ChangeStep, Refusal>
    ensures { result ≡ fast_gather lowest_best asked heard round rv core answers tables.entry.values.now tables.entry.epaxos_scores.now tables.entry.swift_scores.now }
{
    let promised = fast_promised(asked, heard, rv, core);
    if starts_accept(asked, round, core, promised) {
        return Ok(classic::prepare::accept_phase(asked, round, promised)?.unchanged(answers));
    }
    if waits(asked, round, promised) {
        return Ok(promised.stays_unchanged(answers));
    }
    fast_answered(asked, heard, round, rv, promised, answers, tables)
}

#[tactic(auto, unfolding(crate::specs::Process::entered_fast_prepare))]
fn entered_fast_prepare(
    asked: Asked,
    heard: Heard,
    round: PaxosRound,
    rv: RoundV,
    core: Core,
    answers: FastAnswers,
    tables: FastTables,
) -> Result<ChangeStep, Refusal>
    ensures { result ≡ entered_fast_prepare lowest_best asked heard round rv core answers tables.entry.values.now tables.entry.epaxos_scores.now tables.entry.swift_scores.now }
{
    let step = fast_prepared(asked, heard, round, rv, core)?;
    if step.next.goes_on() {
        return fast_gather(asked, heard, round, rv, step.state, answers, tables);
    }
    Ok(step.unchanged(answers))
}

#[tactic(auto, unfolding(crate::specs::Process::on_fast_prepare))]
fn on_fast_prepare(
    asked: Asked,
    heard: Heard,
    slot: u64,
    round: PaxosRound,
    rv: RoundV,
    core: Core,
    answers: FastAnswers,
    tables: FastTables,
) -> Result<ChangeStep, Refusal>
    ensures { result ≡ on_fast_prepare lowest_best asked heard slot round rv core answers tables.entry.values.now tables.entry.epaxos_scores.now tables.entry.swift_scores.now }
{
    let step = steps::enter::enter(asked, heard, slot, round, core)?;
    if step.next.goes_on() {
        return entered_fast_prepare(asked, heard, round, rv, step.state, answers, tables);
    }
    Ok(step.unchanged(answers))
}

// It goes on by hand too: what follows takes the messages of the step beside its core, which no other rest does, so and_then_change would not do for it.
#[tactic(auto, unfolding(crate::specs::Process::replica_accept))]
fn replica_accept(
    asked: Asked,
    heard: Heard,
    round: PaxosRound,
    v: u64,
    core: Core,
    answers: FastAnswers,
    tables: FastTables,
) -> Result<ChangeStep, Refusal>
    ensures { result ≡ replica_accept asked heard round v core answers tables.entry.swift_scores.now }
{
    let step = classic::accept::accepting(asked, heard, round, v, core)?;
    if step.next.goes_on() {
        return fast::swift::swift_answered_accept(
            asked,
            heard,
            round,
            v,
            step.state,
            step.messages,
            answers,
            tables.swift_scores,
        );
    }
    Ok(step.unchanged(answers))
}

#[tactic(auto, unfolding(crate::specs::Process::entered_fast_accept))]
fn entered_fast_accept(
    asked: Asked,
    heard: Heard,
    round: PaxosRound,
    v: u64,
    core: Core,
    answers: FastAnswers,
    tables: FastTables,
) -> Result<ChangeStep, Refusal>
    ensures { result ≡ entered_fast_accept asked heard round v core answers tables.entry.swift_scores.now }
{
    if asked.member.replica {
        return replica_accept(asked, heard, round, v, core, answers, tables);
    }
    fast::swift::swift_client_accept(asked, heard, round, v, core, answers, tables.swift_scores)
}

#[tactic(auto, unfolding(crate::specs::Process::on_fast_accept))]
fn on_fast_accept(
    asked: Asked,
    heard: Heard,
    slot: u64,
    round: PaxosRound,
    v: u64,
    core: Core,
    answers: FastAnswers,
    tables: FastTables,
) -> Result<ChangeStep, Refusal>
    ensures { result ≡ on_fast_accept asked heard slot round v core answers tables.entry.swift_scores.now }
{
    let step = steps::enter::enter(asked, heard, slot, round, core)?;
    if step.next.goes_on() {
        return entered_fast_accept(asked, heard, round, v, step.state, answers, tables);
    }
    Ok(step.unchanged(answers))
}

// A message in EPaxos and SwiftPaxos, with the values of the proposers and the scores of each mode.
#[tactic(auto, unfolding(crate::specs::Process::process_change))]
pub fn process_change(
    asked: Asked,
    heard: Heard,
    msg: ConsensusMsg,
    core: Core,
    answers: FastAnswers,
    tables: FastTables,
) -> Result<ChangeStep, Refusal>
    ensures { result ≡ process_change lowest_best asked heard msg core answers tables.entry.values.now tables.entry.epaxos_scores.now tables.entry.swift_scores.now }
{
    match msg {
        ConsensusMsg::Prepare { slot, round, rv } => on_fast_prepare(
            asked, heard, slot, round, rv, core, answers, tables,
        ),
        ConsensusMsg::Accept { slot, round, v } => {
            on_fast_accept(asked, heard, slot, round, v, core, answers, tables)
        },
        ConsensusMsg::ForwardRequest { .. }
        | ConsensusMsg::Commit { .. }
        | ConsensusMsg::ReadRequest { .. }
        | ConsensusMsg::ReadResponse { .. } => Ok(core.stays_unchanged(answers)),
    }
}

// The same, with the change made.
#[tactic(auto, unfolding(crate::specs::Process::process_fast))]
pub fn process_fast(
    asked: Asked,
    heard: Heard,
    msg: ConsensusMsg,
    s: Rounds,
) -> Result<RoundsStep, Refusal>
    ensures { result ≡ process_fast lowest_best asked heard msg s }
{
    let fast = s.fast;
    let step = process_change(asked, heard, msg, s.core, fast.answers(), fast.tables())?;
    Ok(step.change_rounds(fast))
}

// A commit, but for the fast half.
pub fn commit_core(asked: Asked, v: u64, core: Core) -> Core
    ensures { result ≡ commit_core asked v core }
{
    Core {
        slot: message::increment(core.slot),
        last_v: Some(v),
        slot_left_fast_path: core.slot_left_fast_path,
        paxos: core.paxos.goto_round(asked.starting_round).full_clear(),
        tracker: core.tracker,
    }
}

// The value becomes the last one, and the next slot begins in the starting round, with nothing held or counted. The fast half is clear already in the classic
// modes, which never change it.
#[tactic(auto, unfolding(crate::specs::Commit::commit_slot))]
pub fn commit_slot(asked: Asked, v: u64, s: Rounds) -> Rounds
    ensures { result ≡ commit_slot asked v s }
{
    let core = commit_core(asked, v, s.core);
    if asked.mode.has_fast_path() {
        return Rounds {
            core,
            fast: FastState::no_answers(),
        };
    }
    Rounds { core, fast: s.fast }
}

// The next slot, with the mark of the fast path cleared once the commit has read it: of the core, and of the core with the fast half.
pub fn next_core(asked: Asked, v: u64, core: Core) -> Core
    ensures { result ≡ next_core asked v core }
{
    let mut next = commit_core(asked, v, core);
    next.slot_left_fast_path = false;
    next
}

pub fn next_slot(asked: Asked, v: u64, s: Rounds) -> Rounds
    ensures { result ≡ next_slot asked v s }
{
    let mut next = commit_slot(asked, v, s);
    next.core.slot_left_fast_path = false;
    next
}
