// A call of the engine as one function, with computed runs (proofs/ComputedRuns.antt) and the laws (proofs/Laws.antt) stated of its definition. Each edit puts
// a wrong engine in its place, in code and definition together.
#![tactic(auto)]

ghost use Rattle.std.specs.Prelude.{◌≡◌};
ghost use Rattle.engine_laws.specs.Engine.{engine};

use calls::Call;
use consensus::{Answer, Shard};

// `call_of` of crates/consensus, by way of `engine`
pub fn call(shard: Shard, call: Call) -> Answer
    ensures { result ≡ engine shard call }
{
    shard.call(call)
}
