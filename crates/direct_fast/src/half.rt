// The fast half of a shard as the arrays of numbers that a host lends: what is read out of them, and a change that is made where they stand.
#![tactic(auto)]

ghost use Rattle.std.specs.Prelude.{◌≡◌};
ghost use Rattle.direct_fast.specs.half.FastArrays.{answers_in, answers_numbers, put_change, cleared, put_after};

use crate::finish::After;
use arrays::{AnswersArray, FastArrays};
use fast_state::{FastAnswers, FastChange};
use flat::FlatOption;

// Functions with names and no From, as those of arrays: the numbers stand in an array that is lent.
pub fn answers_in(a: &AnswersArray) -> FastAnswers
    ensures { result ≡ answers_in a.now }
{
    let leader_answer = FlatOption {
        given: a[3],
        n: a[4],
    };
    FastAnswers {
        fast_answer_set: a[0],
        fast_preaccepted: a[1],
        fast_proposers: a[2],
        swift_leader_answer: flat::decoded_option(leader_answer),
    }
}

fn put_answers(a: &mut AnswersArray, answers: FastAnswers)
    ensures { a.new ≡ answers_numbers answers }
{
    let answer = answers.swift_leader_answer;
    let f = flat::encoded_option(answer);
    *a = [
        answers.fast_answer_set,
        answers.fast_preaccepted,
        answers.fast_proposers,
        f.given,
        f.n,
    ];
}

fn put_change(half: &mut FastArrays, change: FastChange)
    ensures { half.new ≡ put_change change half.old }
{
    put_answers(&mut half.answers, change.answers);
    change
        .entry
        .put(&mut half.values, &mut half.epaxos, &mut half.swift);
}

// No answer, as in a new shard and after a commit.
pub fn clear(half: &mut FastArrays)
    ensures { half.new ≡ cleared }
{
    half.answers = [0; 5];
    half.values = [0; 64];
    half.epaxos = [2; 64];
    half.swift = [0; 64];
}

// What becomes of the fast half where a call is taken.
pub fn put_after(half: &mut FastArrays, after: After)
    ensures { half.new ≡ put_after after half.old }
{
    match after {
        After::Changed(change) => put_change(half, change),
        After::Cleared => clear(half),
    }
}
