// The reduced file of a family, the one form in which its bounds are printed, and the comparison of two families.
#![tactic(auto)]

mod keep;
mod stretch;
mod write;

ghost use Rattle.std.specs.Prelude.{◌≡◌, ◌≤◌, length};
ghost use Rattle.reader.specs.Lists.{same_list};
ghost use Rattle.reader.specs.Family.{family_of};
ghost use Rattle.reader.specs.Causes.{Accepted};
ghost use Rattle.reduction.specs.Reduction.{reduced_file};
ghost use Rattle.reduction.specs.Private.Steps.{Begins, live_bytes, Parented, Totalled};
ghost use Rattle.reduction.specs.Calls.{pair_number, ReduceAnswers, ReduceWrites, SameAnswers};
ghost use Rattle.reduction.specs.Private.Writing.{Wrote};

use keep::list_reduced;
use reader::family::peptide_count;
use reader::refusal::Refusal;
use stretch::{Stretch, find_stretches};
use write::write_reduced;

// The length of a reduced file and its number of regions.
#[derive(Clone, Copy, PartialEq, Eq)]
pub struct Size {
    pub length: u16,
    pub regions: u16,
}

// The cause for which two families are not compared: one of the first, or of the second where the first has none.
#[derive(Clone, Copy, PartialEq, Eq)]
pub enum PairRefusal {
    First(Refusal),
    Second(Refusal),
}

// The number of the cause, as the table of docs/SCOPE.md has it; a cause of the second family has 100 added.
impl From<PairRefusal> for u16 {
    ghost from_gives = { λ refusal number. number ≡ pair_number refusal };

    fn from(refusal: PairRefusal) -> u16 {
        match refusal {
            PairRefusal::First(refusal) => u16::from(refusal),
            PairRefusal::Second(refusal) => u16::from(refusal) + 100,
        }
    }
}

// The inside total of each region with the live peptides selected.
fn live_totals(file: &[u8], live: &[u8; 4096], totals: &mut [u16; 8191])
    requires accepted { Accepted file.now }
    requires begins { Begins (live_bytes (family_of file.now)) live.now }
    ensures { Totalled file.now totals.new }
{
    let m = peptide_count(file) as usize;
    // no cause holds, and the bound of all live peptides is not needed
    let _ = bounds::inside_totals(file, &live[..m], totals);
}

// Reduces an accepted file. What is not needed at one time shares a place, which keeps the stack small: `from` and `to`
// hold the ends of the regions until the stretches are found, then the weights, then the reduced ranges; `zs` holds the
// totals, then the bounds of these ranges; and the place of the parents holds the kept bounds once these are known.
fn reduce_accepted(file: &[u8], parents: &mut [u16; 8191], out: &mut [u8]) -> Size
    requires parented { Parented file.now parents.old }
    requires file_in_bounds { length file.now ≤ length out.old }
    ensures { Wrote file.now out.old out.new result.length result.regions }
{
    let mut live = [0u8; 4096];
    let mut stretches = [Stretch { first: 0, last: 0 }; 8191];
    let mut from = [0u16; 8191];
    let mut to = [0u16; 8191];
    find_stretches(file, parents, &mut from, &mut to, &mut live, &mut stretches);
    let mut zs = [0u16; 8191];
    live_totals(file, &live, &mut zs);
    let n = list_reduced(
        file, parents, &live, &stretches, &mut from, &mut to, &mut zs,
    );
    write_reduced(file, n, &from, &to, &zs, out)
}

// Writes the reduced file at the start of the output, which must be as long as the family. A declined call writes nothing.
pub fn reduce(file: &[u8], out: &mut [u8]) -> Result<Size, Refusal>
    ensures reduce_answers { ReduceAnswers file.now out.old result }
    ensures reduce_writes { ReduceWrites file.now out.old out.new }
{
    let mut parents = [0u16; 8191];
    reader::parents(file, &mut parents)?;
    if out.len() < file.len() {
        return Err(Refusal::Room);
    }
    Ok(reduce_accepted(file, &mut parents, out))
}

// Whether the reductions of two accepted files are equal.
fn same_reduced(
    first: &[u8],
    first_parents: &mut [u16; 8191],
    second: &[u8],
    second_parents: &mut [u16; 8191],
) -> bool
    requires first_parented { Parented first.now first_parents.old }
    requires second_parented { Parented second.now second_parents.old }
    ensures { result ≡ same_list (reduced_file first.now) (reduced_file second.now) }
{
    let mut one = [0u8; 57354];
    let first_size = reduce_accepted(first, first_parents, &mut one);
    let mut other = [0u8; 57354];
    let second_size = reduce_accepted(second, second_parents, &mut other);
    one[..first_size.length as usize] == other[..second_size.length as usize]
}

// Whether two families have the same reduced file, which they have exactly when they have the same curves.
pub fn same(first: &[u8], second: &[u8]) -> Result<bool, PairRefusal>
    ensures { SameAnswers first.now second.now result }
{
    let mut first_parents = [0u16; 8191];
    reader::parents(first, &mut first_parents).map_err(PairRefusal::First)?;
    let mut second_parents = [0u16; 8191];
    reader::parents(second, &mut second_parents).map_err(PairRefusal::Second)?;
    Ok(same_reduced(first, &mut first_parents, second, &mut second_parents))
}
