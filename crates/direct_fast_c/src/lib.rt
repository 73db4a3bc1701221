// The exported function of crates/direct_fast, as a static library for C.
#![tactic(auto)]

ghost use Rattle.std.specs.Prelude.{◌≡◌};
ghost use Rattle.arrays.specs.Arrays.{flat_call_of};
ghost use Rattle.direct.specs.Direct.{LeftUnlessTaken};
ghost use Rattle.direct.specs.Stands.{memory_in, host_has};
ghost use Rattle.direct_fast.specs.FastStands.{by_fast, FastStands};

use arrays::{CallArray, ShardArrays};
use direct::handlers::ReplyInArrays;

// A call on a shard that is lent: what is left in its arrays stands for the engine's call of the shard that they stood for (`stands`), and which numbers are left
// is `by_fast` (`numbers`). 0: it was taken, and core, fast half, reads and reply are written. 1 to 12, or 17: it is refused with this number. 255: it goes
// to `chanbook_direct_call`, since the fast half has no part in it, and nothing is written.
#[unsafe(no_mangle)]
pub extern "C" fn chanbook_fast_call(
    shard: &mut ShardArrays,
    call: &CallArray,
    reply: &mut ReplyInArrays,
) -> u64
    ensures stands { FastStands (memory_in shard.old) (flat_call_of call.now) reply.old (host_has result shard.new reply.new) }
    ensures numbers { host_has result shard.new reply.new ≡ by_fast (memory_in shard.old) (flat_call_of call.now) reply.old }
    ensures kept { shard.new.settings ≡ shard.old.settings }
    ensures left_unless_taken { LeftUnlessTaken result shard.old.reads shard.new.reads }
{
    direct_fast::chanbook_fast_call(shard, call, reply)
}
