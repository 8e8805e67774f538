// The family file: its bytes read and checked, its leaves, its regions and how they nest.
// Every public call takes any bytes, and its promise is an equation on what it answers and leaves in a lent slice.
#![tactic(auto)]

pub mod bytes;
pub mod causes;
pub mod family;
mod nesting;
pub mod refusal;
mod whole;

ghost use Rattle.std.specs.Prelude.{◌≡◌};
ghost use Rattle.reader.specs.Family.{family_of};
ghost use Rattle.reader.specs.Refusals.{verdict};
ghost use Rattle.reader.specs.Private.Climb.{Listed, ArrangementJudged, Judged};
ghost use Rattle.reader.specs.Calls.{sizes, counts, CheckAnswers, RegionsGiven, ParentsAnswers, ParentsWrites};

use causes::{check_listing, misordered_region};
use family::{leaf_count, peptide_count, region_count};
use nesting::{fill_parents, too_deep};
use refusal::Refusal;
use whole::WholeFile;

// m, N and K of an accepted family.
#[derive(Clone, Copy, PartialEq, Eq)]
pub struct Sizes {
    pub peptides: u16,
    pub leaves: u16,
    pub regions: u16,
}

// Declines by the first of the causes 8 to 10 that holds, or the parents are written.
fn check_arrangement(file: WholeFile, parents: &mut [u16; 8191]) -> Result<(), Refusal>
    requires { Listed file.bytes.now }
    ensures { ArrangementJudged (family_of file.entry.bytes.now) parents.new (verdict result) }
{
    if misordered_region(file) {
        return Err(Refusal::Misordered);
    }
    if fill_parents(file, parents) {
        return Err(Refusal::Crossing);
    }
    if too_deep(file, parents) {
        return Err(Refusal::TooDeep);
    }
    Ok(())
}

// Declines by the first of the causes 1 to 10 that holds, or the parents are written.
fn judge(file: &[u8], parents: &mut [u16; 8191]) -> Result<(), Refusal>
    ensures { Judged file.now parents.new (verdict result) }
{
    check_listing(file)?;
    check_arrangement(WholeFile { bytes: file }, parents)
}

// m, N and K, as the header has them.
fn counts(file: &[u8]) -> Sizes
    ensures { sizes result ≡ counts (family_of file.now) }
{
    Sizes {
        peptides: peptide_count(file),
        leaves: leaf_count(file),
        regions: region_count(file),
    }
}

// Whether the bytes are an accepted family: m, N and K, or the first cause that holds.
pub fn check(file: &[u8]) -> Result<Sizes, Refusal>
    ensures { CheckAnswers file.now result }
{
    let mut parents = [0u16; 8191];
    judge(file, &mut parents)?;
    Ok(counts(file))
}

// The part of the file that holds the regions; empty if the file is refused or has none.
pub fn regions<'a>(file: &'a [u8]) -> &'a [u8]
    ensures { RegionsGiven result.ref_ptr result.now file.entry.ref_ptr file.now }
{
    match check(file) {
        Ok(accepted) => {
            let from = 16 + 2 * (accepted.leaves as usize);
            &file[from..]
        }
        Err(_) => &file[0..0],
    }
}

// The check, and the parent of each region of an accepted family: the number, from 1, of the region just around it,
// or 0. They are written from the start of the lent slice, which must have room for K of them. A declined call writes nothing.
pub fn parents(file: &[u8], out: &mut [u16]) -> Result<Sizes, Refusal>
    ensures parents_answers { ParentsAnswers file.now out.old result }
    ensures parents_writes { ParentsWrites file.now out.old out.new }
{
    let mut found = [0u16; 8191];
    judge(file, &mut found)?;
    let n = region_count(file) as usize;
    if out.len() < n {
        return Err(Refusal::Room);
    }
    out[..n].copy_from_slice(&found[..n]);
    Ok(counts(file))
}
