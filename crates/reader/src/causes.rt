// Causes 1 to 8: the header, the leaf lengths and the regions one by one.
ghost use Rattle.std.specs.Prelude.{◌≡◌, ◌++◌};
ghost use Rattle.reader.specs.Refusals.{verdict};
ghost use Rattle.reader.specs.Family.{family_of};
ghost use Rattle.reader.specs.Nesting.{before};
ghost use Rattle.reader.specs.Causes.{cause1, cause5, cause6, cause7, cause8, misplaced, first_cause, layout_causes, marked_causes, header_causes, listing_causes};
ghost use Rattle.reader.specs.Calls.{held};

use crate::bytes::{number_at, number_within};
use crate::family::{Region, added_lengths, leaf_count, peptide_count, region_count, region_of};
use crate::refusal::Refusal;
use crate::whole::WholeFile;

// The most peptides and the most leaves that a family has.
const MOST_PEPTIDES: u16 = 4096;

const MOST_LEAVES: u16 = 4096;

// Under 16 bytes, or another mark than that at the start.
fn lacks_mark(file: &[u8], mark: &[u8; 4]) -> bool
    ensures { result ≡ cause1 mark.now file.now }
{
    file.len() < 16 || !file.starts_with(mark)
}

// Declines by the first of the causes 1 to 5 that holds, of a file with that mark and its leaf lengths from that byte on.
pub fn check_header(file: &[u8], mark: &[u8; 4], lengths_at: u16) -> Result<(), Refusal>
    ensures { verdict result ≡ first_cause (marked_causes mark.now lengths_at file.now) }
{
    if lacks_mark(file, mark) {
        return Err(Refusal::Mark);
    }
    check_layout(file, lengths_at)
}

// Declines by the first of the causes 2 to 5 that holds, of a file with its leaf lengths from that byte on.
pub fn check_layout(file: &[u8], lengths_at: u16) -> Result<(), Refusal>
    ensures { verdict result ≡ first_cause (layout_causes lengths_at file.now) }
{
    let m = number_at(file, 4);
    let n = number_at(file, 6);
    let k = number_at(file, 8);
    if m == 0 || MOST_PEPTIDES < m {
        return Err(Refusal::PeptideCount);
    }
    if n == 0 || MOST_LEAVES < n {
        return Err(Refusal::LeafCount);
    }
    if 2 * n - 1 < k {
        return Err(Refusal::RegionCount);
    }
    if bad_layout(file, lengths_at) {
        Err(Refusal::Layout)
    } else {
        Ok(())
    }
}

// Declines by the first of the causes 1 to 7 that holds: what a family file has to have before its regions are held against each other.
pub fn check_listing(file: &[u8]) -> Result<(), Refusal>
    ensures { verdict result ≡ first_cause (header_causes file.now ++ listing_causes (family_of file.now)) }
{
    check_header(file, b"PHFB", 16)?;
    let whole = WholeFile { bytes: file };
    if bad_lengths(whole) {
        return Err(Refusal::LeafLengths);
    }
    if misplaced_region(whole) {
        return Err(Refusal::Misplaced);
    }
    Ok(())
}

// An offset or the total not as laid down, or the given length not the total.
fn bad_layout(file: &[u8], lengths_at: u16) -> bool
    ensures { result ≡ cause5 lengths_at file.now }
{
    let regions_offset = (lengths_at as usize) + 2 * (number_at(file, 6) as usize);
    let total = regions_offset + 6 * (number_at(file, 8) as usize);
    number_at(file, 10) != lengths_at
        || number_at(file, 12) as usize != regions_offset
        || number_at(file, 14) as usize != total
        || file.len() != total
}

// The leaf lengths do not add to m.
fn bad_lengths(file: WholeFile) -> bool
    ensures { result ≡ cause6 (family_of file.entry.bytes.now) }
{
    let leaves = leaf_count(file.bytes);
    added_lengths(file.bytes, 0, leaves, number_within) != peptide_count(file.bytes) as u32
}

// First leaf 0, last below first, or last over N.
fn misplaced(r: Region, leaves: u16) -> bool
    ensures { result ≡ misplaced leaves (held r) }
{
    r.first.0 == 0 || r.last.0 < r.first.0 || leaves < r.last.0
}

// So it is with some region.
fn misplaced_region(file: WholeFile) -> bool
    ensures { result ≡ cause7 (family_of file.entry.bytes.now) }
{
    let leaves = leaf_count(file.bytes);
    for k in 0..region_count(file.bytes) {
        if misplaced(file.region(k), leaves) {
            return true;
        }
    }
    false
}

// A region stands before another: by first leaf rising and, at equal first leaf, by last leaf falling. No derived order is this one:
// the last leaves fall, and z does not count.
fn before(r: Region, q: Region) -> bool
    ensures { result ≡ before (held r) (held q) }
{
    r.first.0 < q.first.0 || (r.first.0 == q.first.0 && q.last.0 < r.last.0)
}

// A region not after the one before it.
pub(crate) fn misordered_region(file: WholeFile) -> bool
    ensures { result ≡ cause8 (family_of file.entry.bytes.now) }
{
    let mut r = region_of(file.bytes, 0);
    for k in 1..region_count(file.bytes) {
        let q = file.region(k);
        if !before(r, q) {
            return true;
        }
        r = q;
    }
    false
}
