// A shard begins from the settings of its group.
#![tactic(auto)]

ghost use Rattle.std.specs.Prelude.{◌≡◌};
ghost use Rattle.group_shard.specs.Begin.{begin_shard};

use consensus::Shard;
use group_settings::GroupSettings;

// The new shard of the engine's settings, with the mark of the group's. Hosts begin a shard in no other way, so that none has a shard whose group settings
// nobody looked at.
#[tactic(auto, unfolding(crate::specs::Begin::begin_shard, consensus::specs::Call::new_shard))]
pub fn begin_shard(group: GroupSettings) -> Shard
    ensures { result ≡ begin_shard group }
{
    let settings = group.settings;
    let new = Shard::new(settings);
    let state = new.state;
    Shard {
        made: group.outcome(),
        settings,
        state,
    }
}
