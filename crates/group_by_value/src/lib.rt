// A group for test runs: an array of shards by value, of which a call replaces one.
#![tactic(auto)]

ghost use Rattle.std.specs.Prelude.{◌≡◌, ◌<◌};
ghost use Rattle.group.specs.Claim.{member_settings};
ghost use Rattle.group_by_value.specs.Group.{new_group, shard_at, called};

use calls::{Call, Reply};
use consensus::Shard;
use message::Refusal;
use settings::Settings;

#[derive(Clone, Copy)]
pub struct Group {
    pub members: [Shard; 64],
}

// The group after a call, and what the call handed back.
#[derive(Clone, Copy)]
pub struct GroupAnswer {
    pub group: Group,
    pub reply: Reply,
}

// The settings of one member: those of the group, with its own number.
fn member_settings(settings: Settings, member: u64) -> Settings
    ensures { result ≡ member_settings settings member }
{
    let mut own = settings;
    own.my_pid = member;
    own
}

impl Group {
    #[tactic(auto, using(crate::proofs::Members::members_none, crate::proofs::Members::members_next))]
    pub fn new(settings: Settings) -> Group
        ensures { result ≡ new_group settings }
    {
        let first = Shard::new(member_settings(settings, 0));
        let mut members = [first; 64];
        // by the index, as the definition sets one place after the other: by `iter_mut` the invariant would speak of the places that are not reached yet
        for i in 0..64 {
            members[i] = Shard::new(member_settings(settings, i as u64));
        }
        Group { members }
    }

    fn shard_at(&self, at: usize) -> Shard
        requires { at < 64 }
        ensures { (d : Shard) → result ≡ shard_at d self.now at }
    {
        self.members[at]
    }

    // A call on a member. A number above 63 is none, and gives 3.
    #[tactic(auto, using(crate::proofs::Members::called_within, crate::proofs::Members::called_past))]
    pub fn call(self, member: u64, call: Call) -> GroupAnswer
        ensures { (d : Shard) → result ≡ called d self member call }
    {
        if member < 64 {
            let at = member as usize;
            let mut next = self;
            let shard = self.shard_at(at);
            let answer = shard.call(call);
            let after = answer.shard;
            next.members[at] = after;
            let reply = answer.reply;
            return GroupAnswer { group: next, reply };
        }
        GroupAnswer {
            group: self,
            reply: calls::refused_reply(Refusal::NoSuchProcess),
        }
    }
}
