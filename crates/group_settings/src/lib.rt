// The settings of a group with what its planners agree on besides (document 02): those of the engine, from E13 on a slot, and from E8 on windows. They stand
// above the engine, so that a shard keeps of them its own settings and its mark alone: of the windows a call copies nothing.
#![tactic(auto)]

ghost use Rattle.std.specs.Prelude.{◌≡◌};
ghost use Rattle.windows.specs.Windows.{check_windows};
ghost use Rattle.group_settings.specs.GroupSettings.{settings_outcome, settings_number, windows_outcome, decoded_group_settings, flat_settings_number};

use flat::FlatSettings;
use message::{Outcome, Refusal};
use settings::Settings;
use windows::{WindowRefusal, Windows};

// The slot from which a width must be whole MHz (E13): a host that wants none names the last slot that there is, 2^63−2. The windows in which a carrier may
// go on air (E8): up to 128, in the first places.
#[derive(Clone, Copy)]
pub struct GroupSettings {
    pub settings: Settings,
    pub whole_mhz_from: u64,
    pub windows: Windows,
}

// The same in numbers only, for a host in C or Rust. The windows are numbers as they are, five for a date.
#[repr(C)]
#[derive(Clone, Copy)]
pub struct FlatGroupSettings {
    pub settings: FlatSettings,
    pub whole_mhz_from: u64,
    pub windows: Windows,
}

// What the check of the windows makes of the settings: too many of them are outside the limits.
fn windows_outcome(windows: &Windows) -> Outcome
    ensures { result ≡ windows_outcome (check_windows windows.now) }
{
    match windows.check() {
        Ok(()) => Ok(()),
        Err(WindowRefusal::TooManyWindows) => Err(Refusal::SettingsOutsideLimits),
        Err(WindowRefusal::NotInCalendar) => Err(Refusal::NotInCalendar),
    }
}

impl GroupSettings {
    // Whether a shard or a register can be made of them, and else why not. All that gives 1 is looked at before any date.
    #[tactic(auto, unfolding(crate::specs::GroupSettings::settings_outcome))]
    pub fn outcome(self) -> Outcome
        ensures { result ≡ settings_outcome self }
    {
        let settings = self.settings;
        if !settings.within_limits() {
            return Err(Refusal::SettingsOutsideLimits);
        }
        if self.whole_mhz_from > message::LARGEST_SLOT {
            return Err(Refusal::SettingsOutsideLimits);
        }
        windows_outcome(&self.windows)
    }

    // The same as a number (C interface): 0, or that of the refusal.
    pub fn number(self) -> u64
        ensures { result ≡ settings_number self }
    {
        flat::encoded_outcome(self.outcome())
    }
}

// A function with a name and no From, as those of flat: hosts read their definitions by these names.
pub fn decoded_group_settings(f: FlatGroupSettings) -> GroupSettings
    ensures { result ≡ decoded_group_settings f }
{
    let settings = f.settings;
    GroupSettings {
        settings: flat::decoded_settings(settings),
        whole_mhz_from: f.whole_mhz_from,
        windows: f.windows,
    }
}

// The number of settings in numbers, which a host gets as a number (C interface). A mode that there is not is outside the limits too.
#[tactic(auto, unfolding(crate::specs::GroupSettings::flat_settings_number))]
pub fn flat_settings_number(f: FlatGroupSettings) -> u64
    ensures { result ≡ flat_settings_number f }
{
    let settings = f.settings;
    let decoded = decoded_group_settings(f);
    flat::encoded_made(decoded.outcome(), settings.mode)
}
