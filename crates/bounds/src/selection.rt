// A selection of peptides: m bytes, each 0 or 1.
ghost use Rattle.std.specs.Prelude.{cond, ◌≡◌, suc, ◌+◌, ◌<◌, ◌≤◌, length};
ghost use Rattle.bounds.specs.Ranges.{card};
ghost use Rattle.reader.specs.Causes.{first_cause};
ghost use Rattle.reader.specs.Refusals.{verdict};
ghost use Rattle.bounds.specs.Selections.{selected, cause14};
ghost use Rattle.bounds.specs.Calls.{causes_with_room};

use reader::check;
use reader::family::Peptide;
use reader::refusal::Refusal;

// Not that many bytes, or a byte over 1. The loop is not left early, so that the compiler can judge several bytes at once.
pub(crate) fn bad_selection(selection: &[u8], whole: usize) -> bool
    ensures { result ≡ cause14 whole selection.now }
{
    if selection.len() != whole {
        return true;
    }
    let mut over = false;
    for byte in selection {
        over |= 1 < *byte;
    }
    over
}

// How many peptides after the first one named, and up to the second, are selected. Most stretches are short: over a slice of the
// selection `bound` takes 1.05 times as long on 8,191 regions.
pub(crate) fn selected_between(selection: &[u8], after: Peptide, upto: Peptide) -> u16
    requires { (after.0 ≤ upto.0) × (upto.0 ≤ length selection.now) }
    ensures { result + card after.0 (selected selection.now) ≡ card upto.0 (selected selection.now) }
{
    let mut count = 0;
    for i in after.0..upto.0 {
        if selection[i as usize] == 1 {
            count += 1;
        }
    }
    count
}

// Declines by the first cause of a call with a selection and an output of so many places.
pub(crate) fn check_selection(file: &[u8], selection: &[u8], room: usize) -> Result<(), Refusal>
    ensures { verdict result ≡ first_cause (causes_with_room file.now selection.now room) }
{
    let sizes = check(file)?;
    if bad_selection(selection, sizes.peptides as usize) {
        return Err(Refusal::Selection);
    }
    if room < sizes.regions as usize {
        return Err(Refusal::Room);
    }
    Ok(())
}

// The same, of `bound`. It is not made a part of that call, whose totals then need no stack beside the arrays of the check. One function
// for both, called by `inside_totals` too, lets `phf_reduce` need 8 KB more than the header states.
#[inline(never)]
pub(crate) fn check_bound(file: &[u8], selection: &[u8], room: usize) -> Result<(), Refusal>
    ensures { verdict result ≡ first_cause (causes_with_room file.now selection.now room) }
{
    check_selection(file, selection, room)
}
