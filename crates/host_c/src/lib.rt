// The exported function of crates/host, as a static library for C.
#![tactic(auto)]

ghost use Rattle.std.specs.Prelude.{◌≡◌};
ghost use Rattle.group_settings.specs.GroupSettings.{flat_settings_number};
ghost use Rattle.direct.specs.Stands.{memory_in};
ghost use Rattle.host.specs.Begun.{new_memory};

use arrays::ShardArrays;
use group_settings::FlatGroupSettings;

// A shard as it begins from the settings of its group. Hands back the number that it is marked with, the first of its setup: 0; or of settings outside the
// limits 1, or of windows that do not fit 17, by which every call on it is refused.
#[unsafe(no_mangle)]
pub extern "C" fn chanbook_shard_new(group: FlatGroupSettings, shard: &mut ShardArrays) -> u64
    ensures number { result ≡ flat_settings_number group }
    ensures begun { memory_in shard.new ≡ new_memory group }
{
    host::chanbook_shard_new(group, shard)
}
