// The bound of a selection with its taken regions, the bounds of a list of selections, the curve along a path with its marks, and
// the cut.
#![tactic(auto)]

mod cursor;
mod entries;
mod list;
mod path;
mod rows;
mod selection;
mod taking;
mod walk;

ghost use Rattle.bounds.specs.Calls.{BoundAnswers, TakenWrites, TotalsWrites, ListAnswers, ListWrites, CurveAnswers, CurveValuesWrites, CurveMarksWrites, CurveDeclines, CutAnswers};

use list::{charge_of, check_list, write_bounds};
use path::check_path;
use reader::family::region_count;
use reader::refusal::Refusal;
use rows::line_value;
use selection::{check_bound, check_selection};
use taking::write_bound;
use walk::Walk;

// What a list of selections is charged, or why it is declined; and the tally with that charge added.
#[derive(Clone, Copy, PartialEq, Eq)]
pub struct Listed {
    pub charged: Result<u16, Refusal>,
    pub tally: u32,
}

// The bound of a selection, and for each region, in file order, 1 if it is taken, else 0.
pub fn bound(file: &[u8], selection: &[u8], taken: &mut [u8]) -> Result<u16, Refusal>
    ensures bound_answers { BoundAnswers file.now selection.now taken.old result }
    ensures taken_writes { TakenWrites file.now selection.now taken.old taken.new }
{
    check_bound(file, selection, taken.len())?;
    Ok(write_bound(file, selection, taken))
}

// The bound of a selection, and for each region, in file order, its inside total.
pub fn inside_totals(file: &[u8], selection: &[u8], out: &mut [u16]) -> Result<u16, Refusal>
    ensures bound_answers { BoundAnswers file.now selection.now out.old result }
    ensures totals_writes { TotalsWrites file.now selection.now out.old out.new }
{
    check_selection(file, selection, out.len())?;
    let value = line_value(file, selection, out);
    Ok(value)
}

// The bounds of up to 32 selections, joined in one buffer, each as if sent by itself. The values are written from the start of the
// lent slice; a declined call leaves it and the tally unchanged.
pub fn bound_list(
    file: &[u8],
    selections: &[u8],
    count: u16,
    tally: u32,
    values: &mut [u16],
) -> Listed
    ensures list_answers { ListAnswers file.now selections.now count tally values.old result }
    ensures list_writes { ListWrites file.now selections.now count tally values.old values.new }
{
    match check_list(file, selections, count, tally, values.len()) {
        Ok(()) => {
            write_bounds(file, selections, &mut values[..count as usize]);
            let charge = charge_of(region_count(file), count);
            Listed {
                charged: Ok(charge),
                tally: tally + (charge as u32),
            }
        }
        Err(refusal) => Listed {
            charged: Err(refusal),
            tally,
        },
    }
}

// The curve along a path and its marks: entry t is the bound of the first t peptides, mark t is 1 where it is one more
// than the entry before it. They are written from the start of the lent slices; a declined call leaves these unchanged.
pub fn curve(file: &[u8], path: &[u16], values: &mut [u16], marks: &mut [u8]) -> Result<(), Refusal>
    ensures curve_answers { CurveAnswers file.now path.now values.old marks.old result }
    ensures curve_values_writes { CurveValuesWrites file.now path.now values.old marks.old values.new }
    ensures curve_marks_writes { CurveMarksWrites file.now path.now values.old marks.old marks.new }
    ensures curve_declines { CurveDeclines file.now path.now values.old marks.old result }
{
    let mut parents = [0u16; 8191];
    check_path(file, path, &mut parents)?;
    if values.len() <= path.len() || marks.len() < path.len() {
        return Err(Refusal::Room);
    }
    let walk = Walk {
        file,
        parents: &parents,
        path,
    };
    walk.write_curve(values, marks);
    Ok(())
}

// The cut at q = a / b: the largest t at which entry t times b is at most a times t.
pub fn cut(file: &[u8], path: &[u16], a: u16, b: u16) -> Result<u16, Refusal>
    ensures { CutAnswers file.now path.now a b result }
{
    let mut parents = [0u16; 8191];
    check_path(file, path, &mut parents)?;
    if b == 0 || b < a {
        return Err(Refusal::Fraction);
    }
    let walk = Walk {
        file,
        parents: &parents,
        path,
    };
    Ok(walk.find_cut(a, b))
}
