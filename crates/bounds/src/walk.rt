// The greedy walk along a path: a peptide is marked unless a region that holds it already has z marked peptides.
// The regions that hold a leaf are the innermost one and those around it, so a step costs the way to the leaf and the depth
// of the nesting.
ghost use Rattle.std.specs.Prelude.{◌≡◌, ◌++◌, ℕ, false, ◌<◌, ◌≤◌, length, get_or, drop};
ghost use Rattle.reader.specs.Family.{family_of, leaves, leaf_of, region_count, region};
ghost use Rattle.reader.specs.WellFormed.{Ordered, Nested};
ghost use Rattle.bounds.specs.Curves.{curve_marks};
ghost use Rattle.bounds.specs.Private.Walks.{Walkable, InnermostAtLeaves, crowded, OneLess, MarkedNext};

use leaves::leaf_of;
use reader::family::{Leaf, Peptide, Region, region_count, region_of};

// Writes at each leaf the number of the innermost region that holds it. In file order what is inside a region comes after it,
// so the last number written at a leaf stays. A leaf is written once for each region around it, 64 times at most.
fn fill_innermost(file: &[u8], innermost: &mut [u16; 4097])
    requires ordered { Ordered (family_of file.now) }
    requires few { leaves (family_of file.now) < 4097 }
    requires by_index { (leaf : ℕ) → get_or innermost.old leaf 0 ≡ 0 }
    ensures { InnermostAtLeaves (family_of file.now) innermost.new }
{
    for k in 0..region_count(file) {
        let Region { first, last, .. } = region_of(file, k);
        innermost[first.0 as usize..=last.0 as usize].fill(k + 1);
    }
}

// Writes how many marks each region can take: its z.
fn fill_spare(file: &[u8], spare: &mut [u16; 8191])
    requires { region_count (family_of file.now) ≤ 8191 }
    ensures { (k : ℕ) → k < region_count (family_of file.now) → get_or spare.new k 0 ≡ (region (family_of file.now) k).z }
{
    for k in 0..region_count(file) {
        spare[k as usize] = region_of(file, k).z;
    }
}

// What a walk along a path goes by: the family, the parent of each region, and for each leaf the innermost region that holds it.
// Regions have numbers from 1, and 0 is none, as in the parents that are handed out.
#[derive(Clone, Copy)]
struct Nesting<'a> {
    file: &'a [u8],
    parents: &'a [u16],
    innermost: &'a [u16; 4097],
    ghost nested: { ∥ Nested (family_of file.now) parents.now ∥₁ },
    ghost innermost_at_leaves: { InnermostAtLeaves (family_of file.now) innermost.now },
}

impl Nesting<'_> {
    // Whether a region that holds the leaf can take no more marks.
    fn is_crowded(&self, spare: &[u16; 8191], leaf: Leaf) -> bool
        requires { leaf.0 < 4097 }
        ensures { result ≡ crowded (family_of self.now.file.now) spare.now leaf.0 }
    {
        let mut number = self.innermost[leaf.0 as usize];
        while number != 0 {
            let k = (number as usize) - 1;
            if spare[k] == 0 {
                return true;
            }
            number = self.parents[k];
        }
        false
    }

    // Takes one mark from what each region that holds the leaf can take. The parent is read first: two such lists often lie a
    // multiple of 4,096 bytes apart, and a read waits for a write at such a distance just before it.
    fn take_mark(&self, spare: &mut [u16; 8191], leaf: Leaf)
        requires leaf_in_bounds { leaf.0 < 4097 }
        requires not_crowded { crowded (family_of self.now.file.now) spare.old leaf.0 ≡ false }
        ensures { OneLess (family_of self.now.file.now) spare.old leaf.0 spare.new }
    {
        let mut number = self.innermost[leaf.0 as usize];
        while number != 0 {
            let k = (number as usize) - 1;
            number = self.parents[k];
            spare[k] -= 1;
        }
    }

    // Marks the peptide unless a region that holds it is crowded: 1 if it is marked, else 0.
    fn mark_next(&self, spare: &mut [u16; 8191], peptide: Peptide) -> u8
        requires { leaf_of (family_of self.now.file.now) peptide.0 < 4097 }
        ensures { MarkedNext (family_of self.now.file.now) spare.old peptide.0 spare.new result }
    {
        let leaf = leaf_of(self.file, peptide);
        if self.is_crowded(spare, leaf) {
            return 0;
        }
        self.take_mark(spare, leaf);
        1
    }
}

// A path along which a family is walked, with the family and the parent of each of its regions.
#[derive(Clone, Copy)]
pub(crate) struct Walk<'a> {
    pub(crate) file: &'a [u8],
    pub(crate) parents: &'a [u16],
    pub(crate) path: &'a [u16],
    ghost walkable: { ∥ Walkable (family_of file.now) path.now parents.now ∥₁ },
}

impl Walk<'_> {
    // Writes the marks along the path.
    pub(crate) fn write_marks(&self, marks: &mut [u8])
        requires { length self.now.path.now ≤ length marks.old }
        ensures { marks.new ≡ curve_marks (family_of self.now.file.now) self.now.path.now ++ drop (length self.now.path.now) marks.old }
    {
        let mut spare = [0u16; 8191];
        fill_spare(self.file, &mut spare);
        let mut innermost = [0u16; 4097];
        fill_innermost(self.file, &mut innermost);
        let nesting = Nesting {
            file: self.file,
            parents: self.parents,
            innermost: &innermost,
        };
        for (t, number) in self.path.iter().enumerate() {
            marks[t] = nesting.mark_next(&mut spare, Peptide(*number));
        }
    }
}
