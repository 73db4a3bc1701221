// The exported function of crates/direct, as a static library for C.
#![tactic(auto)]

ghost use Rattle.std.specs.Prelude.{◌≡◌};
ghost use Rattle.arrays.specs.Arrays.{flat_call_of};
ghost use Rattle.direct.specs.Direct.{LeftUnlessTaken};
ghost use Rattle.direct.specs.Stands.{memory_in, host_has, by_direct, DirectStands};

use arrays::{CallArray, ShardArrays};
use direct::handlers::ReplyInArrays;

// A call on a shard that is lent: what is left in its arrays stands for the engine's call of the shard that they stood for (`stands`), and which numbers are left
// is `by_direct` (`numbers`). 0: it was taken, and core, reads and reply are written. 1 to 12, or 17: it is refused with this number. 255: it has to go to
// the fast half, and nothing is written.
#[unsafe(no_mangle)]
pub extern "C" fn chanbook_direct_call(
    shard: &mut ShardArrays,
    call: &CallArray,
    reply: &mut ReplyInArrays,
) -> u64
    ensures stands { DirectStands (memory_in shard.old) (flat_call_of call.now) reply.old (host_has result shard.new reply.new) }
    ensures numbers { host_has result shard.new reply.new ≡ by_direct (memory_in shard.old) (flat_call_of call.now) reply.old }
    ensures kept { (shard.new.settings ≡ shard.old.settings) × (shard.new.fast ≡ shard.old.fast) }
    ensures left_unless_taken { LeftUnlessTaken result shard.old.reads shard.new.reads }
{
    direct::chanbook_direct_call(shard, call, reply)
}
