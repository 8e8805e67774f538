// A cursor that walks along the line, over whole leaves, and counts the selected peptides on its way.
ghost use Rattle.std.specs.Prelude.{◌≡◌, ◌-◌, ◌<◌, ◌≤◌, MatchOption};
ghost use Rattle.reader.specs.Family.{family_of, leaves, region_count, region, peptides_up_to};
ghost use Rattle.reader.specs.Calls.{held};
ghost use Rattle.bounds.specs.Private.Rows.{BeginsBy, BeginsAfter, Ready, OnLeaf, PassedTo};

use crate::selection::selected_between;
use reader::family::{Leaf, Peptide, Region, leaf_length, region_count, region_of};

// The line of a well-formed family's leaves, and the peptides that are selected on it.
#[derive(Clone, Copy)]
pub(crate) struct Line<'a> {
    pub file: &'a [u8],
    pub selection: &'a [u8],
    ghost ready: { ∥ Ready (family_of file.now) selection.now ∥₁ },
}

// Where a walk along the line stands: the next region, and the last leaf and the last peptide passed, 0 before the first.
#[derive(Clone, Copy)]
pub(crate) struct Cursor {
    pub region: u16,
    pub leaf: Leaf,
    pub peptide: Peptide,
}

// What was counted on the way to a place.
#[derive(Clone, Copy)]
pub(crate) struct Counted {
    pub count: u16,
    pub at: Cursor,
}

// The last peptide of a leaf, from the last one of a leaf before it. Most stretches are a leaf or none: with `peptides_between` in
// its place `bound` takes 1.1 times as long on 8,191 regions.
fn last_peptide(file: &[u8], leaf: Leaf, peptide: Peptide, last: Leaf) -> Peptide
    requires few { peptides_up_to (family_of file.now) last.0 ≤ 4096 }
    requires forward { leaf.0 ≤ last.0 }
    requires passed { peptide.0 ≡ peptides_up_to (family_of file.now) leaf.0 }
    ensures { result.0 ≡ peptides_up_to (family_of file.now) last.0 }
{
    let mut p = peptide.0;
    for j in leaf.0..last.0 {
        p += leaf_length(file, Leaf(j + 1));
    }
    Peptide(p)
}

impl Line<'_> {
    // Goes on to the end of a leaf, and counts the selected peptides on the way.
    pub fn pass(&self, from: Cursor, last: Leaf) -> Counted
        requires on_leaf { OnLeaf (family_of self.now.file.now) from }
        requires forward { from.leaf.0 ≤ last.0 }
        requires on_line { last.0 ≤ leaves (family_of self.now.file.now) }
        ensures { PassedTo (family_of self.now.file.now) self.now.selection.now from last.0 result }
    {
        let peptide = last_peptide(self.file, from.leaf, from.peptide, last);
        Counted {
            count: selected_between(self.selection, from.peptide, peptide),
            at: Cursor {
                region: from.region,
                leaf: last,
                peptide,
            },
        }
    }

    // The k-th region, where there is one and it begins at the leaf or before.
    pub fn region_by(&self, k: u16, last: Leaf) -> Option<Region>
        ensures { MatchOption result (BeginsAfter (family_of self.now.file.now) k last.0) (λ next. BeginsBy (family_of self.now.file.now) k last.0 × (held next ≡ region (family_of self.now.file.now) k)) }
    {
        if region_count(self.file) <= k {
            return None;
        }
        let region = region_of(self.file, k);
        if region.first.0 <= last.0 {
            Some(region)
        } else {
            None
        }
    }

    // Goes on to the next region, whose record is given, and counts the selected peptides before it.
    pub fn pass_to_region(&self, from: Cursor, next: Region) -> Counted
        requires on_leaf { OnLeaf (family_of self.now.file.now) from }
        requires some_region { from.region < region_count (family_of self.now.file.now) }
        requires ahead { from.leaf.0 < (region (family_of self.now.file.now) from.region).first }
        requires next_value { held next ≡ region (family_of self.now.file.now) from.region }
        ensures { PassedTo (family_of self.now.file.now) self.now.selection.now from ((region (family_of self.now.file.now) from.region).first - 1) result }
    {
        self.pass(from, Leaf(next.first.0 - 1))
    }
}
