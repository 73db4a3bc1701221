// The round state of the paxos family, second half: fast answers, proposers and their scores, and what EPaxos and SwiftPaxos have in
// common; and the two halves together. A call changes the answers and, in the tables by proposer, the entry of one proposer: so the handlers hand
// back this change, and the tables are read where they stand.
#![tactic(auto)]

pub mod epaxos;
pub mod swift;

ghost use Rattle.std.specs.Prelude.{◌≡◌};
ghost use Rattle.fast_state.specs.Fast.{answers_of, unchanged, to_v_after, epaxos_scores_after, swift_scores_after, changed, no_answers, preaccepted_after, second_answer, is_unanswered};
ghost use Rattle.fast_state.specs.RoundState.{new_round_state};

use basics::tables::PerProcess;
use message::{PaxosRound, Refusal};
use round_state::{Member, PaxosState};

// EPaxos and SwiftPaxos state. The Rust's map from proposers to values is an array by process, with the set of those present. Three tables of numbers, here and
// in FastTables, and none of structs: a host lends them as arrays of numbers (C interface), and each mode reads its own.
#[derive(Clone, Copy)]
pub struct FastState {
    pub fast_answer_set: u64,
    pub fast_preaccepted: u64,
    pub fast_proposers: u64,
    pub fast_proposer_to_v: PerProcess,
    pub epaxos_proposer_scores: PerProcess,
    pub swift_proposer_scores: PerProcess,
    pub swift_leader_answer: Option<u64>,
}

// The same without the tables.
#[derive(Clone, Copy, PartialEq, Eq, Debug)]
pub struct FastAnswers {
    pub fast_answer_set: u64,
    pub fast_preaccepted: u64,
    pub fast_proposers: u64,
    pub swift_leader_answer: Option<u64>,
}

// The three tables by proposer, where they stand: in a state, or in memory that a host lends.
#[derive(Clone, Copy)]
pub struct FastTables<'a> {
    pub values: &'a PerProcess,
    pub epaxos_scores: &'a PerProcess,
    pub swift_scores: &'a PerProcess,
}

// What a call changes in the tables: nothing, the value of a proposer, or its value and its score. "Nothing" is a case of its own, and no None: it is
// what most calls do, and no value is missing.
#[derive(Clone, Copy, PartialEq, Eq, Debug)]
pub enum TableChange {
    SameEntries,
    Recorded { proposer: u64, v: u64 },
    EPaxosScored { proposer: u64, v: u64, score: u64 },
    SwiftScored { proposer: u64, v: u64, score: u64 },
}

// What a call changes in the state: the answers that there are afterwards, and the entry of a proposer.
#[derive(Clone, Copy, PartialEq, Eq, Debug)]
pub struct FastChange {
    pub answers: FastAnswers,
    pub entry: TableChange,
}

#[derive(Clone, Copy)]
pub struct PaxosFamilyRoundState {
    pub paxos: PaxosState,
    pub fast: FastState,
}

// The best score so far, and its proposer.
#[derive(Clone, Copy, PartialEq, Eq, Debug)]
pub struct Best {
    pub score: u64,
    pub proposer: Option<u64>,
}

// The answers for one's own proposal, after one more for a proposer.
#[tactic(auto, unfolding(crate::specs::Fast::preaccepted_after))]
pub fn preaccepted_after(me: Member, proposer: u64, n: u64) -> u64
    ensures { result ≡ preaccepted_after me proposer n }
{
    if proposer == me.my_pid {
        return message::increment(n);
    }
    n
}

impl FastAnswers {
    pub fn unchanged(self) -> FastChange
        ensures { result ≡ unchanged self }
    {
        FastChange {
            answers: self,
            entry: TableChange::SameEntries,
        }
    }

    // A second answer from one process.
    #[tactic(auto, unfolding(crate::specs::Fast::second_answer))]
    pub fn second_answer(self, me: Member, src: u64) -> Result<FastChange, Refusal>
        ensures { result ≡ second_answer me src self }
    {
        if src == me.my_pid {
            return Ok(self.unchanged());
        }
        Err(Refusal::SecondFastAnswer)
    }

    // No answer, none preaccepted, no proposer.
    #[tactic(auto, unfolding(crate::specs::Fast::is_unanswered))]
    pub fn is_unanswered(self) -> bool
        ensures { result ≡ is_unanswered self }
    {
        basics::sets::is_empty(self.fast_answer_set)
            && self.fast_preaccepted == 0
            && basics::sets::is_empty(self.fast_proposers)
    }
}

impl TableChange {
    // Writes the entry into the tables, which are lent, since a host keeps them in memory of its own.
    #[tactic(auto, unfolding(crate::specs::Fast::to_v_after, crate::specs::Fast::epaxos_scores_after, crate::specs::Fast::swift_scores_after))]
    pub fn put(self, values: &mut PerProcess, epaxos: &mut PerProcess, swift: &mut PerProcess)
        ensures values { values.new ≡ to_v_after self values.old }
        ensures epaxos { epaxos.new ≡ epaxos_scores_after self epaxos.old }
        ensures swift { swift.new ≡ swift_scores_after self swift.old }
    {
        match self {
            TableChange::SameEntries => {}
            TableChange::Recorded { proposer, v } => basics::tables::store(values, proposer, v),
            TableChange::EPaxosScored { proposer, v, score } => {
                basics::tables::store(values, proposer, v);
                basics::tables::store(epaxos, proposer, score);
            }
            TableChange::SwiftScored { proposer, v, score } => {
                basics::tables::store(values, proposer, v);
                basics::tables::store(swift, proposer, score);
            }
        }
    }
}

impl FastState {
    // A state with no answer: as it is at the start of each slot.
    pub fn no_answers() -> FastState
        ensures { result ≡ no_answers }
    {
        FastState {
            fast_answer_set: 0,
            fast_preaccepted: 0,
            fast_proposers: 0,
            fast_proposer_to_v: [0; 64],
            epaxos_proposer_scores: [2; 64],
            swift_proposer_scores: [0; 64],
            swift_leader_answer: None,
        }
    }

    pub fn answers(self) -> FastAnswers
        ensures { result ≡ answers_of self }
    {
        FastAnswers {
            fast_answer_set: self.fast_answer_set,
            fast_preaccepted: self.fast_preaccepted,
            fast_proposers: self.fast_proposers,
            swift_leader_answer: self.swift_leader_answer,
        }
    }

    pub fn tables(&self) -> FastTables<'_>
        ensures values { result.values.now ≡ self.now.fast_proposer_to_v }
        ensures epaxos { result.epaxos_scores.now ≡ self.now.epaxos_proposer_scores }
        ensures swift { result.swift_scores.now ≡ self.now.swift_proposer_scores }
    {
        FastTables {
            values: &self.fast_proposer_to_v,
            epaxos_scores: &self.epaxos_proposer_scores,
            swift_scores: &self.swift_proposer_scores,
        }
    }

    // The state with a change made to it.
    pub fn changed(mut self, change: FastChange) -> FastState
        ensures { result ≡ changed change self }
    {
        let answers = change.answers;
        self.fast_answer_set = answers.fast_answer_set;
        self.fast_preaccepted = answers.fast_preaccepted;
        self.fast_proposers = answers.fast_proposers;
        self.swift_leader_answer = answers.swift_leader_answer;
        change.entry.put(
            &mut self.fast_proposer_to_v,
            &mut self.epaxos_proposer_scores,
            &mut self.swift_proposer_scores,
        );
        self
    }
}

impl PaxosFamilyRoundState {
    pub fn new(starting_round: Option<PaxosRound>) -> PaxosFamilyRoundState
        ensures { result ≡ new_round_state starting_round }
    {
        let paxos = PaxosState {
            round: starting_round,
            max_rv: None,
            prepared_set: 0,
            accepted_set: 0,
        };
        let fast = FastState::no_answers();
        PaxosFamilyRoundState { paxos, fast }
    }
}
