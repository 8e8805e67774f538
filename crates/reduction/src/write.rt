// The file of the reduced ranges, written at the start of the output: where ranges begin and end, and from this the header, the
// leaf lengths and the regions.
ghost use Rattle.std.specs.Prelude.{◌≡◌, ◌++◌, ℕ, ◌+◌, ◌*◌, ◌≤◌, length, get_or, false};
ghost use Rattle.std.proofs.lemmas.List.Edits.{sets};
ghost use Rattle.reader.specs.Bytes.{bytes_of, with_numbers};
ghost use Rattle.reader.specs.Causes.{Accepted};
ghost use Rattle.bounds.specs.Ranges.{card};
ghost use Rattle.reduction.specs.Reduction.{leaf_lengths};
ghost use Rattle.reduction.specs.Private.Steps.{Listed};
ghost use Rattle.reduction.specs.Private.Writing.{header_numbers, OnLine, ends_at, Marks, marked_in, region_numbers, Wrote};

use crate::Size;
use reader::bytes::{put_number, put_numbers};
use reader::family::peptide_count;

// The reduced ranges in file order: the first peptide, the last one and the bound of each. Three arrays and not one of ranges, as
// their places serve other numbers too. (The Ranges of keep borrow them to write.)
#[derive(Clone, Copy)]
struct Ranges<'a> {
    from: &'a [u16],
    to: &'a [u16],
    bounds: &'a [u16],
}

// Writes the mark and the six numbers of the header of a file with its leaf lengths from that byte on; the answer is the last of
// them, the length of the file. Its twin is in levels: one function for both would be public, and none of these may ask that the
// sums fit.
fn write_header(
    out: &mut [u8],
    mark: &[u8; 4],
    m: u16,
    leaves: u16,
    regions: u16,
    lengths_at: u16,
) -> u16
    requires leaves_bound { leaves ≤ 4096 }
    requires regions_bound { regions ≤ 8191 }
    requires lengths_at_bound { lengths_at ≤ 144 }
    requires room { 16 ≤ length out.old }
    ensures total { result ≡ lengths_at + 2 * leaves + 6 * regions }
    ensures written { out.new ≡ sets out.old 0 (mark.now ++ bytes_of (header_numbers m leaves regions lengths_at)) }
{
    let regions_at = lengths_at + 2 * leaves;
    let total = regions_at + 6 * regions;
    let numbers = [m, leaves, regions, lengths_at, regions_at, total];
    out[0..4].copy_from_slice(mark);
    put_numbers(out, 4, &numbers);
    total
}

// Marks the peptides after which a range begins or at which one ends, and m: there the leaves of the file to be written end. That m
// is 4,096 at most is asked where it is used: a type for that would be longer. Place
// 0 is marked too where a range begins at peptide 1; nobody asks there.
fn mark_borders(m: u16, ranges: Ranges, borders: &mut [bool; 4097])
    requires on_line { OnLine m (length ranges.from.now) ranges.from.now ranges.to.now }
    requires unmarked { (p : ℕ) → get_or borders.old p false ≡ false }
    ensures { Marks borders.new (ends_at m (length ranges.entry.from.now) ranges.entry.from.now ranges.entry.to.now) }
{
    borders[m as usize] = true;
    for (k, first) in ranges.from.iter().enumerate() {
        borders[(*first - 1) as usize] = true;
        borders[ranges.to[k] as usize] = true;
    }
}

// How many leaves of the file to be written end after the first peptide named, and up to the second: a walk along the line.
fn borders_between(borders: &[bool; 4097], after: u16, upto: u16) -> u16
    requires after_le_upto { after ≤ upto }
    requires on_line { upto ≤ 4096 }
    ensures { result + card after (marked_in borders.now) ≡ card upto (marked_in borders.now) }
{
    let mut count = 0;
    for p in after..upto {
        if borders[p as usize + 1] {
            count += 1;
        }
    }
    count
}

// Writes the length of each leaf, from one leaf end to the next.
fn write_lengths(m: u16, borders: &[bool; 4097], out: &mut [u8])
    requires { m ≤ 4096 }
    ensures { out.new ≡ with_numbers out.old 16 (leaf_lengths m (marked_in borders.now)) }
{
    let mut at = 16;
    let mut last = 0;
    for p in 1..m + 1 {
        if borders[p as usize] {
            put_number(out, at, p - last);
            at += 2;
            last = p;
        }
    }
}

// Writes the regions: a range begins with the leaf after those that end before it, and ends with the leaf that ends where
// it does. The first peptides rise, so the leaves before a range are counted on from those before the range before it.
fn write_regions(ranges: Ranges, borders: &[bool; 4097], at: usize, out: &mut [u8])
    requires on_line { OnLine 4096 (length ranges.from.now) ranges.from.now ranges.to.now }
    requires bounds { length ranges.from.now ≤ length ranges.bounds.now }
    requires room { at + 6 * length ranges.from.now ≤ length out.old }
    ensures { out.new ≡ with_numbers out.old at (region_numbers (length ranges.entry.from.now) (marked_in borders.now) ranges.entry.from.now ranges.entry.to.now ranges.entry.bounds.now) }
{
    let mut passed = 0;
    let mut before = 0;
    for (k, from) in ranges.from.iter().enumerate() {
        let low = *from - 1;
        before += borders_between(borders, passed, low);
        passed = low;
        let first = before + 1;
        let last = before + borders_between(borders, low, ranges.to[k]);
        let region = [first, last, ranges.bounds[k]];
        put_numbers(out, at + 6 * k, &region);
    }
}

// Writes the file of the reduced ranges at the start of the output. `borders` says of each peptide whether a range begins
// after it or ends with it. The leaf lengths of that file, which do not exist yet, are made from it; no leaf of a family that is read
// is looked up in it.
pub(crate) fn write_reduced(
    file: &[u8],
    n: u16,
    from: &[u16],
    to: &[u16],
    bounds: &[u16],
    out: &mut [u8],
) -> Size
    requires accepted { Accepted file.now }
    requires listed { Listed file.now n from.now to.now bounds.now }
    requires file_in_bounds { length file.now ≤ length out.old }
    ensures { Wrote file.now out.old out.new result.length result.regions }
{
    let count = n as usize;
    let ranges = Ranges {
        from: &from[..count],
        to: &to[..count],
        bounds: &bounds[..count],
    };
    let m = peptide_count(file);
    let mut borders = [false; 4097];
    mark_borders(m, ranges, &mut borders);
    let leaves = borders_between(&borders, 0, m);
    let total = write_header(out, b"PHFB", m, leaves, n, 16);
    write_lengths(m, &borders, out);
    write_regions(ranges, &borders, 16 + 2 * leaves as usize, out);
    Size {
        length: total,
        regions: n,
    }
}
