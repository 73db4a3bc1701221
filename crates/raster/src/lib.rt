// Carrier numbers (NR-ARFCN) of 3GPP TS 38.104, to whole kHz and back (document 02, E5).
#![tactic(auto)]

ghost use Rattle.std.specs.Prelude.{◌≡◌, ◌+◌, ◌<◌, ◌≤◌};
ghost use Rattle.raster.specs.Raster.{frequency_of, whole_steps, number_of, not_on_raster};

use basics::refusals::Refused;

// Why there is no answer: no raster number, or no raster frequency.
#[derive(Clone, Copy, PartialEq, Eq, Debug)]
pub struct NotOnRaster;

impl Refused for NotOnRaster {
    ghost refusal_number = { not_on_raster };

    // "14, no raster number or no raster frequency"
    fn number(self) -> u64 {
        14
    }
}

// "Numbers 0 to 599999 step 5 kHz from 0. Numbers 600000 to 2016666 step 15 kHz from 3,000,000 kHz. Numbers 2016667 to 3279165 step
// 60 kHz from 24,250,080 kHz." The frequency is in kHz; no other number has one.
#[tactic(auto, unfolding(crate::specs::Raster::frequency_of))]
pub fn frequency_of(number: u64) -> Option<u64>
    ensures { result ≡ frequency_of number }
{
    if number <= 599999 {
        return Some(5 * number);
    }
    if number <= 2016666 {
        return Some(3000000 + 15 * (number - 600000));
    }
    if number <= 3279165 {
        return Some(24250080 + 60 * (number - 2016667));
    }
    None
}

// The number that lies a whole number of steps behind the first one of a range, by how many kHz a frequency is above that one's.
#[tactic(auto, unfolding(crate::specs::Raster::whole_steps))]
fn whole_steps(first: u64, step: u64, above: u64) -> Option<u64>
    requires step_nonzero { 0 < step }
    requires above_bound { first + above ≤ 18446744073709551615 }
    ensures { result ≡ whole_steps first step above }
{
    if above % step == 0 {
        return Some(first + above / step);
    }
    None
}

// The way back: the carrier number of a frequency in kHz. The second range ends with 24,249,990 kHz, the third with 99,999,960.
#[tactic(auto, unfolding(crate::specs::Raster::number_of))]
pub fn number_of(khz: u64) -> Option<u64>
    ensures { result ≡ number_of khz }
{
    if khz < 3000000 {
        return whole_steps(0, 5, khz);
    }
    if khz <= 24249990 {
        return whole_steps(600000, 15, khz - 3000000);
    }
    if khz < 24250080 {
        return None;
    }
    if khz <= 99999960 {
        return whole_steps(2016667, 60, khz - 24250080);
    }
    None
}
