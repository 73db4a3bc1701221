// A register of cells begun from group settings (document 02, E13 and E8): "From a slot named in the settings (one above 2^63−2 gives 1), an assignment must
// have a width that is a multiple of 1,000 kHz." It stands above E6's register (crates/register), which does not move.
#![tactic(auto)]

ghost use Rattle.std.specs.Prelude.{◌≡◌};
ghost use Rattle.group_register.specs.Settings.{settings_from, unmade_number, unmade_by, settings_refusal, is_made};
ghost use Rattle.group_register.specs.WholeMhz.{is_odd};
ghost use Rattle.group_register.specs.GroupRegister.{group_register, new_group_register, group_applied, group_done, group_refusal_number, change_assignable, gives_odd_width, apply_in_group, group_page};

use basics::refusals::Refused;
use register::report::ReportPage;
use register::{CellEntry, Change, Entered, EntryRefusal, Register, RegisterPlaces};

// What a register keeps of the group settings that it was begun from: their number, 0 where it is made of them, and the slot from which widths are in
// whole MHz. The number stays one (C interface): a host's arrays hold it, and any number may stand there.
#[derive(Clone, Copy)]
pub struct RegisterSettings {
    pub number: u64,
    pub whole_mhz_from: u64,
}

#[derive(Clone, Copy)]
pub struct GroupRegister {
    pub settings: RegisterSettings,
    pub register: Register,
}

// Why a register is not made, with document 02's numbers: its settings are outside their limits, or one of their windows is none (E8).
#[derive(Clone, Copy, PartialEq, Eq, Debug)]
pub enum UnmadeBy {
    OutsideLimits = 1,
    NotInCalendar = 17,
}

// Why an entry is refused: the register is not made, which gives the number of its settings; 23, the width is not in whole MHz; or as in E6.
#[derive(Clone, Copy, PartialEq, Eq, Debug)]
pub enum GroupRefusal {
    Unmade(UnmadeBy),
    OddWidth,
    AsRegister(EntryRefusal),
}

#[derive(Clone, Copy)]
pub struct GroupApplied {
    pub group: GroupRegister,
    pub outcome: Result<Entered, GroupRefusal>,
}

impl RegisterSettings {
    // From the slot alone, where a host has no other settings.
    #[tactic(auto, unfolding(crate::specs::Settings::settings_from))]
    pub fn from_slot(slot: u64) -> RegisterSettings
        ensures { result ≡ settings_from slot }
    {
        if slot > message::LARGEST_SLOT {
            return RegisterSettings {
                number: 1,
                whole_mhz_from: slot,
            };
        }
        RegisterSettings {
            number: 0,
            whole_mhz_from: slot,
        }
    }

    // Whether the register is made; where it is not, every call on it gives the number of `unmade_by` before anything else.
    #[tactic(auto, using(crate::proofs::GroupLaws::made_number), unfolding(crate::specs::Settings::settings_refusal))]
    pub fn is_made(self) -> bool
        ensures { result ≡ is_made self }
    {
        self.number == 0
    }

    // Why the register is not made, where it is not: 17 stays 17, and any other number is read as 1.
    pub fn unmade_by(self) -> UnmadeBy
        ensures { result ≡ unmade_by self }
    {
        if self.number == 17 {
            UnmadeBy::NotInCalendar
        } else {
            UnmadeBy::OutsideLimits
        }
    }

    // The number that every call gives before anything else, and 0 of a register that is made.
    #[tactic(auto, using(crate::proofs::GroupLaws::made_number), unfolding(crate::specs::Settings::settings_refusal))]
    pub fn refusal(self) -> u64
        ensures { result ≡ settings_refusal self }
    {
        if self.is_made() {
            return 0;
        }
        self.unmade_by().number()
    }
}

impl Refused for UnmadeBy {
    ghost refusal_number = { unmade_number };

    // Document 02's number.
    fn number(self) -> u64 {
        self as u64
    }
}

impl Refused for GroupRefusal {
    ghost refusal_number = { group_refusal_number };

    // Document 02's number. By `match` and no discriminants: a cause of E6 is itself one of several, each with its number.
    fn number(self) -> u64 {
        match self {
            GroupRefusal::Unmade(why) => why.number(),
            GroupRefusal::OddWidth => 23,
            GroupRefusal::AsRegister(why) => why.number(),
        }
    }
}

impl GroupRegister {
    // A register of these settings that has seen no entry.
    pub fn new(settings: RegisterSettings) -> GroupRegister
        ensures { result ≡ new_group_register settings }
    {
        GroupRegister {
            settings,
            register: Register::new(),
        }
    }
}

// Whether an assignment of this slot has a width that is not in whole MHz, where it must be.
#[tactic(auto, unfolding(crate::specs::WholeMhz::is_odd))]
pub fn is_odd(whole_mhz_from: u64, entry: CellEntry) -> bool
    ensures { result ≡ is_odd whole_mhz_from entry }
{
    if whole_mhz_from > entry.slot {
        return false;
    }
    match entry.change {
        Change::Assign(assignment) => assignment.width % 1000 != 0,
        Change::Release => false,
    }
}

// Whether an assignment is within E6's limits; a release is.
fn change_assignable(change: Change) -> bool
    ensures { result ≡ change_assignable change }
{
    match change {
        Change::Assign(assignment) => assignment.assignable(),
        Change::Release => true,
    }
}

// Whether an entry is refused with 23, by the slot from which widths are in whole MHz and the next slot.
#[tactic(auto, unfolding(crate::specs::GroupRegister::gives_odd_width))]
pub fn gives_odd_width(whole_mhz_from: u64, next_slot: u64, entry: CellEntry) -> bool
    ensures { result ≡ gives_odd_width whole_mhz_from next_slot entry }
{
    is_odd(whole_mhz_from, entry)
        && entry.slot <= message::LARGEST_SLOT
        && next_slot <= entry.slot
        && change_assignable(entry.change)
}

// What becomes of an entry, in a register whose places may be lent: one that is not made stays; 23, with the slot seen; or as in E6.
#[tactic(auto, using(crate::proofs::GroupLaws::odd_slot_seen), unfolding(crate::specs::GroupRegister::apply_in_group, crate::specs::GroupRegister::apply_made))]
pub fn apply_in<R: RegisterPlaces>(
    settings: RegisterSettings,
    register: &mut R,
    entry: CellEntry,
) -> Result<Entered, GroupRefusal>
    ensures same { R.lent register.new ≡ R.lent register.old }
    ensures applied { group_applied settings (R.register register.new) result ≡ apply_in_group (group_register settings (R.register register.old)) entry }
{
    if !settings.is_made() {
        return Err(GroupRefusal::Unmade(settings.unmade_by()));
    }
    if gives_odd_width(settings.whole_mhz_from, register.next_slot(), entry) {
        register.see(entry.slot);
        return Err(GroupRefusal::OddWidth);
    }
    register::apply_in(register, entry).map_err(GroupRefusal::AsRegister)
}

// Nothing is refused, or nothing has become of an entry: the register is as it is.
pub fn group_done(group: GroupRegister) -> GroupApplied
    ensures { result ≡ group_done group }
{
    GroupApplied {
        group,
        outcome: Ok(Entered::Done),
    }
}

// The register after an entry.
pub fn apply_in_group(mut group: GroupRegister, entry: CellEntry) -> GroupApplied
    ensures { result ≡ apply_in_group group entry }
{
    let outcome = apply_in(group.settings, &mut group.register, entry);
    GroupApplied { group, outcome }
}

// The report, or the one line `refused,1` or `refused,17` of a register that is not made.
#[tactic(auto, unfolding(crate::specs::GroupRegister::group_page))]
pub fn group_page(group: GroupRegister) -> ReportPage
    ensures { result ≡ group_page group }
{
    if group.settings.is_made() {
        return register::report::report(group.register);
    }
    register::report::refusal_page(group.settings.refusal())
}
