// A shard as it begins, in arrays that a host lends: those in which its calls then change it (crates/direct, crates/direct_fast).
#![tactic(auto)]

ghost use Rattle.std.specs.Prelude.{◌≡◌};
ghost use Rattle.group_settings.specs.GroupSettings.{flat_settings_number};
ghost use Rattle.direct.specs.Stands.{memory_in};
ghost use Rattle.host.specs.Begun.{new_memory};

use arrays::ShardArrays;
use group_settings::FlatGroupSettings;

// A shard as it begins from the settings of its group. Hands back the number that it is marked with, the first of its setup: 0; or of settings outside the
// limits 1, or of windows that do not fit 17, by which every call on it is refused.
#[tactic(auto, unfolding(crate::specs::Begun::new_memory, group_shard::specs::Begin::begin_shard))]
pub fn chanbook_shard_new(group: FlatGroupSettings, shard: &mut ShardArrays) -> u64
    ensures number { result ≡ flat_settings_number group }
    ensures begun { memory_in shard.new ≡ new_memory group }
{
    let settings = group.settings;
    let number = group_settings::flat_settings_number(group);
    let begun = group_shard::begin_shard(group_settings::decoded_group_settings(group));
    arrays::put_settings(&mut shard.settings, number, settings);
    arrays::put_core(&mut shard.core, flat::encoded_core(begun.state.rounds.core));
    direct_fast::half::clear(&mut shard.fast);
    shard.reads.clear();
    number
}
