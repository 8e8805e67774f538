// What is read off the marks of a path: the entries of the curve, each one more than the entry before it where there is a mark,
// and the cut.
ghost use Rattle.std.specs.Prelude.{◌≡◌, cond, ◌++◌, ◌+◌, ◌*◌, ◌<◌, ◌≤◌, length, drop, leb};
ghost use Rattle.reader.specs.Family.{family_of};
ghost use Rattle.reader.specs.Lists.{tabulate};
ghost use Rattle.bounds.specs.Curves.{curve_values, curve_marks, largest_up_to, cut_of};
ghost use Rattle.bounds.specs.Private.Walks.{marks_up_to, MarksOf};

use crate::walk::Walk;

// Entry t from the entry before it and mark t.
fn next_entry(entry: u16, mark: u8) -> u16
    requires { (entry < 65535) × (mark ≤ 1) }
    ensures { result ≡ entry + mark }
{
    entry + (mark as u16)
}

// Writes the entries of a curve, from all its marks.
fn write_values(marks: &[u8], values: &mut [u16])
    requires marks_of { MarksOf marks.now }
    requires room { length marks.now < length values.old }
    ensures { values.new ≡ tabulate (length marks.now + 1) (marks_up_to marks.now) ++ drop (length marks.now + 1) values.old }
{
    let mut entry = 0;
    values[0] = 0;
    for (t, mark) in marks.iter().enumerate() {
        entry = next_entry(entry, *mark);
        values[t + 1] = entry;
    }
}

// The later of two cuts: t if entry t times b is at most a times t, else the one found before.
fn later_cut(before: u16, entry: u16, t: u16, a: u16, b: u16) -> u16
    ensures { result ≡ cond (leb (entry * b) (a * t)) t before }
{
    if (entry as u32) * (b as u32) <= (a as u32) * (t as u32) {
        t
    } else {
        before
    }
}

// The largest t at which entry t times b is at most a times t, from all marks of a curve.
fn last_passing(marks: &[u8], a: u16, b: u16) -> u16
    requires { MarksOf marks.now }
    ensures { result ≡ largest_up_to (length marks.now) (λ t. leb (marks_up_to marks.now t * b) (a * t)) }
{
    let mut entry = 0;
    let mut cut = 0;
    for (i, mark) in marks.iter().enumerate() {
        entry = next_entry(entry, *mark);
        cut = later_cut(cut, entry, (i + 1) as u16, a, b);
    }
    cut
}

impl Walk<'_> {
    // Writes the curve along the path and its marks.
    pub(crate) fn write_curve(&self, values: &mut [u16], marks: &mut [u8])
        requires values_room { length self.now.path.now + 1 ≤ length values.old }
        requires marks_room { length self.now.path.now ≤ length marks.old }
        ensures values_after { values.new ≡ curve_values (family_of self.now.file.now) self.now.path.now ++ drop (length self.now.path.now + 1) values.old }
        ensures marks_after { marks.new ≡ curve_marks (family_of self.now.file.now) self.now.path.now ++ drop (length self.now.path.now) marks.old }
    {
        self.write_marks(marks);
        write_values(&marks[..self.path.len()], values);
    }

    // The cut along the path.
    pub(crate) fn find_cut(&self, a: u16, b: u16) -> u16
        ensures { result ≡ cut_of (family_of self.now.file.now) self.now.path.now a b }
    {
        let mut marks = [0u8; 4096];
        self.write_marks(&mut marks);
        last_passing(&marks[..self.path.len()], a, b)
    }
}
