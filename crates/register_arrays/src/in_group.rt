// A register of group settings in arrays of numbers that a host lends, changed in place (document 02, E13): the arrays of crates/register_arrays, and two
// numbers of the settings, their number and the slot from which widths are in whole MHz. The contracts are those of crates/group_register.
#![tactic(auto)]

ghost use Rattle.std.specs.Prelude.{◌≡◌};
ghost use Rattle.register.specs.stored.Stored.{widened};
ghost use Rattle.register_arrays.specs.stored.Columns.{stored_of_columns};
ghost use Rattle.register_arrays.specs.Columns.{SameArrays, entry_from_numbers};
ghost use Rattle.group_register.specs.GroupRegister.{group_register, new_group_register};
ghost use Rattle.register_arrays.specs.in_group.GroupColumns.{settings_in, group_of, after_group_entry, group_report_in};

use crate::stored::StoredColumns;
use crate::{Columns, FiguresArray, entry_from_numbers};
use group_register::RegisterSettings;
use register::{CellNumber, entry_number};

// A function and no `From`: neither RegisterSettings nor an array of numbers is a type of this crate.
pub fn settings_in(settings: &[u64; 2]) -> RegisterSettings
    ensures { result ≡ settings_in settings.now }
{
    let [number, whole_mhz_from] = *settings;
    RegisterSettings {
        number,
        whole_mhz_from,
    }
}

// A register of these settings that has seen no entry.
pub fn new_group_register(
    kept: RegisterSettings,
    settings: &mut [u64; 2],
    columns: &mut Columns<'_>,
)
    ensures same { SameArrays columns.old columns.new }
    ensures begun { group_of settings.new columns.new ≡ new_group_register kept }
{
    *settings = [kept.number, kept.whole_mhz_from];
    columns.clear();
}

// An entry, as numbers, and the number of what became of it: of a register that is not made, its own; 23, with the slot seen; or as in E6. Numbers and no
// CellEntry and Result: those are `group_register::apply_in`, and a host has numbers (C interface).
pub fn apply_group_entry(
    settings: &[u64; 2],
    columns: &mut Columns<'_>,
    slot: u64,
    kind: u64,
    cell: CellNumber,
    carrier: u64,
    width: u64,
) -> u64
    ensures same { SameArrays columns.old columns.new }
    ensures entered { (group_of settings.now columns.new, result)
        ≡ after_group_entry (group_of settings.now columns.old) (entry_from_numbers slot kind cell carrier width) }
{
    let entry = entry_from_numbers(slot, kind, cell, carrier, width);
    entry_number(group_register::apply_in(settings_in(settings), columns, entry))
}

// The report at the start of out, or the line `refused,1` or `refused,17` of a register that is not made, zeros after it; and its length.
#[tactic(auto, unfolding(crate::specs::in_group::GroupColumns::group_report_in))]
pub fn put_group_page(settings: &[u64; 2], figures: &FiguresArray, out: &mut [u8; 116]) -> u64
    ensures { (out.new, result) ≡ group_report_in settings.now figures.now }
{
    let kept = settings_in(settings);
    if kept.is_made() {
        return crate::put_page(figures, out);
    }
    let page = register::report::refusal_page(kept.refusal());
    let bytes = page.bytes;
    *out = bytes;
    page.len as u64
}

// The register that a stored one becomes, with the settings that it is read with.
pub fn widen_in_group(
    kept: RegisterSettings,
    stored: StoredColumns<'_>,
    settings: &mut [u64; 2],
    columns: &mut Columns<'_>,
)
    ensures same { SameArrays columns.old columns.new }
    ensures widened { group_of settings.new columns.new ≡ group_register kept (widened (stored_of_columns stored.entry)) }
{
    *settings = [kept.number, kept.whole_mhz_from];
    stored.widen(columns);
}
