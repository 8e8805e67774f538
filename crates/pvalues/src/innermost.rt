// The innermost region of each peptide, and the number of peptides of each region, from one pass over the regions. Regions have
// numbers from 1, and 0 is none, as in the parents that are handed out.
ghost use Rattle.std.specs.Prelude.{◌≡◌, ℕ, ◌-◌, ◌≤◌, length, get_or};
ghost use Rattle.reader.specs.Family.{family_of, leaves, peptides_up_to};
ghost use Rattle.reader.specs.WellFormed.{WellFormed};
ghost use Rattle.bounds.specs.Holding.{PaintedBefore};
ghost use Rattle.pvalues.specs.Private.Climbing.{Filled};

use crate::lowering::Lowering;
use reader::family::{Leaf, Peptide, peptides_between, region_count, region_of};

// The peptides of the leaves after one and up to another, in a family with at most 4,096 of them.
fn peptides_of(file: &[u8], after: Leaf, upto: Leaf) -> u16
    requires well_formed { WellFormed (family_of file.now) }
    requires upto_bound { upto.0 ≤ leaves (family_of file.now) }
    ensures { result ≡ peptides_up_to (family_of file.now) upto.0 - peptides_up_to (family_of file.now) after.0 }
{
    peptides_between(file, after, upto) as u16
}

// Writes a region's number at each of its peptides: those after the first one named, and up to the second.
fn paint(innermost: &mut [u16; 4096], after: Peptide, upto: Peptide, number: u16)
    requires { (after.0 ≤ upto.0) × (upto.0 ≤ 4096) }
    ensures { PaintedBefore innermost.old after.0 number upto.0 innermost.new }
{
    innermost[after.0 as usize..upto.0 as usize].fill(number);
}

// Writes at each peptide the number of the innermost region that has it, and for each region how many peptides it has: so many of its
// p-values are left to begin with, and so much is its z. In file order what is inside a region comes after it, so the last number
// written at a peptide stays. The first leaves rise, so the peptides before a region are counted on from those before the region
// before it.
pub(crate) fn fill_innermost(
    file: &[u8],
    innermost: &mut [u16; 4096],
    regions: &mut [Lowering; 8191],
)
    requires well_formed { WellFormed (family_of file.now) }
    requires zeroed { (i : ℕ) → get_or innermost.old i 0 ≡ 0 }
    ensures { Filled (family_of file.now) innermost.new regions.new }
{
    let mut passed = 0;
    let mut low = 0;
    for k in 0..region_count(file) {
        let region = region_of(file, k);
        let before = region.first.0 - 1;
        low += peptides_of(file, Leaf(passed), Leaf(before));
        passed = before;
        let size = peptides_of(file, Leaf(before), region.last);
        regions[k as usize] = Lowering {
            left: size,
            z: size,
        };
        paint(innermost, Peptide(low), Peptide(low + size), k + 1);
    }
}
