// Leaves, peptides and regions of a family file.
ghost use Rattle.std.specs.Prelude.{◌≡◌, ℕ, ◌+◌, ◌-◌, ◌*◌, ◌<◌, ◌≤◌, length};
ghost use Rattle.reader.specs.Family.{family_of, leaves, region_count, leaf_length, peptides_up_to, region, total_length};
ghost use Rattle.reader.specs.Bytes.{number_at};
ghost use Rattle.reader.specs.Calls.{held};

use crate::bytes::{number_at, number_within};

// The number of a leaf, 1 to N.
#[derive(Clone, Copy, Default)]
pub struct Leaf(pub u16);

// The number of a peptide, 1 to m.
#[derive(Clone, Copy)]
pub struct Peptide(pub u16);

// All peptides of the leaves from the first to the last, of which at most z are false.
#[derive(Clone, Copy, Default)]
pub struct Region {
    pub first: Leaf,
    pub last: Leaf,
    pub z: u16,
}

// m, the number of peptides, as the header has it.
pub fn peptide_count(file: &[u8]) -> u16
    ensures { result ≡ (family_of file.now).peptides }
{
    number_at(file, 4)
}

// N, the number of leaves, as the header has it.
pub fn leaf_count(file: &[u8]) -> u16
    ensures { result ≡ leaves (family_of file.now) }
{
    number_at(file, 6)
}

// K, the number of regions, as the header has it.
pub fn region_count(file: &[u8]) -> u16
    ensures { result ≡ region_count (family_of file.now) }
{
    number_at(file, 8)
}

// The length of a leaf; 0 where the file has no leaf of that number.
pub fn leaf_length(file: &[u8], leaf: Leaf) -> u16
    ensures { result ≡ leaf_length (family_of file.now) leaf.0 }
{
    let j = leaf.0;
    if j == 0 || leaf_count(file) < j {
        return 0;
    }
    number_at(file, 14 + 2 * (j as usize))
}

// The lengths of the leaves after one and up to another, added up; the number at an offset is read as the caller says. The loop has no
// way out: with a reading that has none, several lengths are added at once.
pub(crate) fn added_lengths<F: Fn(&[u8], usize) -> u16>(
    file: &[u8],
    after: u16,
    upto: u16,
    number: F,
) -> u32
    requires after_le_upto { (after ≤ upto) × (upto ≤ leaves (family_of file.now)) }
    requires readable { (j : ℕ) → j < upto → F.pre number file (16 + 2 * j) }
    requires reads { (j n : ℕ) → j < upto → F.post number file (16 + 2 * j) n → n ≡ number_at file.now (16 + 2 * j) }
    ensures { result ≡ peptides_up_to (family_of file.now) upto - peptides_up_to (family_of file.now) after }
{
    let mut sum: u32 = 0;
    for j in after as usize..upto as usize {
        sum += number(file, 16 + 2 * j) as u32;
    }
    sum
}

// How many peptides the leaves after one and up to another have, as their lengths say: 0 where the second does not come after the
// first. Leaves past the last one have none.
pub fn peptides_between(file: &[u8], after: Leaf, upto: Leaf) -> u32
    ensures { result ≡ peptides_up_to (family_of file.now) upto.0 - peptides_up_to (family_of file.now) after.0 }
{
    let start = after.0;
    let end = upto.0.min(leaf_count(file));
    if end <= start {
        return 0;
    }
    if file.len() < 16 + 2 * (end as usize) {
        return added_lengths(file, start, end, number_at);
    }
    added_lengths(file, start, end, number_within)
}

// The k-th region, where the file is known to have it: the check has compared the length with the header by then, and
// spends its time here.
pub(crate) fn region_within(file: &[u8], k: u16) -> Region
    requires k_bound { k < region_count (family_of file.now) }
    requires k_in_bounds { total_length (leaves (family_of file.now)) (k + 1) ≤ length file.now }
    ensures { held result ≡ region (family_of file.now) k }
{
    let at = 16 + 2 * (number_within(file, 6) as usize) + 6 * (k as usize);
    Region {
        first: Leaf(number_within(file, at)),
        last: Leaf(number_within(file, at + 2)),
        z: number_within(file, at + 4),
    }
}

// The k-th region, counted from 0; all fields 0 where the file has no such region. What lies past the end counts as 0. The record of a
// region is written out twice, here and above: one function for both readings would need a line of contract for each that it saves.
pub fn region_of(file: &[u8], k: u16) -> Region
    ensures { held result ≡ region (family_of file.now) k }
{
    if file.len() < 16 || number_within(file, 8) <= k {
        return Region::default();
    }
    let at = 16 + 2 * (number_within(file, 6) as usize) + 6 * (k as usize);
    if at + 6 <= file.len() {
        return region_within(file, k);
    }
    Region {
        first: Leaf(number_at(file, at)),
        last: Leaf(number_at(file, at + 2)),
        z: number_at(file, at + 4),
    }
}
