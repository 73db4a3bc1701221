// The quorums for a number of replicas, by document 01's formula.
#![tactic(auto)]

ghost use Rattle.std.specs.Prelude.{◌≡◌};
ghost use Rattle.quorum.specs.Quorum.{row_of};

// The quorums for one number of replicas: a majority, EPaxos's, and the fast one.
#[derive(Clone, Copy, PartialEq, Eq, Debug)]
pub struct QuorumRow {
    pub majority: u64,
    pub epaxos: u64,
    pub fast: u64,
}

// The row for n replicas. Every count has an answer: 0 takes the row of 1, and a count above 64 that of 64.
pub fn row_of(n: u64) -> QuorumRow
    ensures { result ≡ row_of n }
{
    let replicas = n.clamp(1, 64);
    let majority = replicas / 2 + 1;
    // the largest number below three quarters of the replicas
    let most = (3 * replicas - 1) / 4;
    QuorumRow {
        majority,
        epaxos: most.max(majority),
        fast: (most + 1).max(majority),
    }
}
