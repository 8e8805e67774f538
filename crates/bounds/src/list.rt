// A list of selections, joined in one buffer: the causes of such a call, its charge, and the bound of each selection.
ghost use Rattle.std.specs.Prelude.{◌≡◌, ◌++◌, ◌*◌, ◌≤◌, length, drop};
ghost use Rattle.reader.specs.Family.{family_of};
ghost use Rattle.reader.specs.Causes.{first_cause};
ghost use Rattle.reader.specs.Refusals.{verdict};
ghost use Rattle.reader.specs.WellFormed.{WellFormed};
ghost use Rattle.bounds.specs.SelectionLists.{list_bounds};
ghost use Rattle.bounds.specs.Tally.{charge_of};
ghost use Rattle.bounds.specs.Calls.{list_inputs, list_causes};

use crate::rows::line_value;
use crate::selection::bad_selection;
use reader::family::peptide_count;
use reader::refusal::Refusal;
use reader::{Sizes, check};

// The charge of a list of so many selections: K when it has a selection.
pub(crate) fn charge_of(regions: u16, count: u16) -> u16
    ensures { result ≡ charge_of regions count }
{
    if count == 0 { 0 } else { regions }
}

// Declines by the first cause after those of the file, of a list of selections and an output of so many places.
fn check_inputs(
    sizes: Sizes,
    selections: &[u8],
    count: u16,
    tally: u32,
    room: usize,
) -> Result<(), Refusal>
    ensures { verdict result ≡ first_cause (list_inputs sizes.peptides sizes.regions selections.now count tally room) }
{
    if bad_selection(selections, (count as usize) * (sizes.peptides as usize)) {
        return Err(Refusal::Selection);
    }
    if room < count as usize {
        return Err(Refusal::Room);
    }
    if 32 < count {
        return Err(Refusal::ListLength);
    }
    // the sum might not fit: the charge is held against what the tally has left
    let charge = charge_of(sizes.regions, count);
    if 4294967295 - tally < charge as u32 {
        return Err(Refusal::Tally);
    }
    Ok(())
}

// Declines by the first cause of a call with a list of selections and an output of so many places.
pub(crate) fn check_list(
    file: &[u8],
    selections: &[u8],
    count: u16,
    tally: u32,
    room: usize,
) -> Result<(), Refusal>
    ensures { verdict result ≡ first_cause (list_causes file.now selections.now count tally room) }
{
    let sizes = check(file)?;
    check_inputs(sizes, selections, count, tally, room)
}

// Writes the bound of each selection, one for each place lent. The inside totals of one selection are room for those of the next.
pub(crate) fn write_bounds(file: &[u8], selections: &[u8], values: &mut [u16])
    requires well_formed { WellFormed (family_of file.now) }
    requires whole { length selections.now ≡ length values.old * (family_of file.now).peptides }
    ensures { values.new ≡ list_bounds (family_of file.now) selections.now (length values.old) }
{
    let m = peptide_count(file) as usize;
    let mut totals = [0u16; 8191];
    for (i, value) in values.iter_mut().enumerate() {
        let start = i * m;
        *value = line_value(file, &selections[start..start + m], &mut totals);
    }
}
