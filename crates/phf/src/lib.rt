// The C interface: the calls of the libraries under C names, and nothing else. include/phf.h is this file as C sees it.
// A slice is a pointer and a number of elements. An answer is a struct by value: the number of the first cause that holds,
// 0 for none, then the values; a field that has no value is 0. The tally of a declined list comes back as it came. The answer of a
// choice, and of bounds from p-values, is the number alone.
#![tactic(auto)]

mod fields;

ghost use Rattle.std.specs.Prelude.{◌≡◌};
ghost use Rattle.bounds.specs.Calls.{TakenWrites, ListWrites, CurveValuesWrites, CurveMarksWrites};
ghost use Rattle.hybrid.specs.Calls.{HybridWrites};
ghost use Rattle.levels.specs.Calls.{ToLevelsWrites, FromLevelsWrites};
ghost use Rattle.pvalues.specs.Calls.{FromPWrites};
ghost use Rattle.reduction.specs.Calls.{ReduceWrites};
ghost use Rattle.volcano.specs.Calls.{ChooseWrites};
ghost use Rattle.volcano.specs.declared.Rule.TheVariants.{AtMost, Between, Volcano};
ghost use Rattle.phf.specs.Calls.{PhfCheckAnswers, PhfRegionsAnswers, PhfRegionsPlaced, PhfBoundAnswers, PhfListAnswers, PhfChooseAnswers, PhfCurveAnswers, PhfCutAnswers, PhfReduceAnswers, PhfSameAnswers, PhfFromPAnswers, PhfHybridAnswers, PhfToLevelsAnswers, PhfFromLevelsAnswers};

use fields::number_of;
use volcano::Rule;

#[repr(C)]
#[derive(Clone, Copy)]
pub struct PhfChecked {
    pub number: u16,
    pub peptides: u16,
    pub leaves: u16,
    pub regions: u16,
}

#[repr(C)]
#[derive(Clone, Copy)]
pub struct PhfPart {
    pub offset: u32,
    pub length: u32,
}

#[repr(C)]
#[derive(Clone, Copy)]
pub struct PhfBounded {
    pub number: u16,
    pub bound: u16,
}

#[repr(C)]
#[derive(Clone, Copy)]
pub struct PhfListed {
    pub number: u16,
    pub charge: u16,
    pub tally: u32,
}

#[repr(C)]
#[derive(Clone, Copy)]
pub struct PhfCurved {
    pub number: u16,
    pub place: u16,
}

#[repr(C)]
#[derive(Clone, Copy)]
pub struct PhfCutting {
    pub number: u16,
    pub place: u16,
    pub cut: u16,
}

#[repr(C)]
#[derive(Clone, Copy)]
pub struct PhfReduced {
    pub number: u16,
    pub length: u16,
    pub regions: u16,
}

#[repr(C)]
#[derive(Clone, Copy)]
pub struct PhfCompared {
    pub number: u16,
    pub same: u16,
}

#[repr(C)]
#[derive(Clone, Copy)]
pub struct PhfConverted {
    pub number: u16,
    pub length: u16,
}

// Whether the bytes are an accepted family: m, N and K, or the number of the first cause that holds.
#[unsafe(no_mangle)]
pub extern "C" fn phf_check(file: &[u8]) -> PhfChecked
    ensures { PhfCheckAnswers file.now result }
{
    reader::check(file).into()
}

// Where the regions stand in an accepted file: the offset of their first byte and how many bytes they have.
// C cannot be handed a part of the file, so it gets the part's place.
#[unsafe(no_mangle)]
pub extern "C" fn phf_regions(file: &[u8]) -> PhfPart
    ensures phf_regions_answers { PhfRegionsAnswers file.now result }
    ensures phf_regions_placed { PhfRegionsPlaced file.now result }
{
    match reader::check(file) {
        Ok(sizes) => PhfPart {
            offset: 16 + 2 * (sizes.leaves as u32),
            length: 6 * (sizes.regions as u32),
        },
        Err(_) => PhfPart {
            offset: 0,
            length: 0,
        },
    }
}

// The bound of a selection, and for each region, in file order, 1 if it is taken, else 0.
#[unsafe(no_mangle)]
pub extern "C" fn phf_bound(file: &[u8], selection: &[u8], taken: &mut [u8]) -> PhfBounded
    ensures phf_bound_answers { PhfBoundAnswers file.now selection.now taken.old result }
    ensures taken_writes { TakenWrites file.now selection.now taken.old taken.new }
{
    bounds::bound(file, selection, taken).into()
}

// The bounds of up to 32 selections, joined in one buffer, and the tally with the list's charge added.
#[unsafe(no_mangle)]
pub extern "C" fn phf_bounds_list(
    file: &[u8],
    selections: &[u8],
    count: u16,
    tally: u32,
    values: &mut [u16],
) -> PhfListed
    ensures phf_list_answers { PhfListAnswers file.now selections.now count tally values.old result }
    ensures list_writes { ListWrites file.now selections.now count tally values.old values.new }
{
    bounds::bound_list(file, selections, count, tally, values).into()
}

// The curve along a path and its marks.
#[unsafe(no_mangle)]
pub extern "C" fn phf_curve(
    file: &[u8],
    path: &[u16],
    values: &mut [u16],
    marks: &mut [u8],
) -> PhfCurved
    ensures phf_curve_answers { PhfCurveAnswers file.now path.now values.old marks.old result }
    ensures curve_values_writes { CurveValuesWrites file.now path.now values.old marks.old values.new }
    ensures curve_marks_writes { CurveMarksWrites file.now path.now values.old marks.old marks.new }
{
    bounds::curve(file, path, values, marks).into()
}

// The cut at q = a / b: the largest t at which entry t times b is at most a times t.
#[unsafe(no_mangle)]
pub extern "C" fn phf_cut(file: &[u8], path: &[u16], a: u16, b: u16) -> PhfCutting
    ensures { PhfCutAnswers file.now path.now a b result }
{
    bounds::cut(file, path, a, b).into()
}

// Writes the reduced file at the start of the output: its length and number of regions.
#[unsafe(no_mangle)]
pub extern "C" fn phf_reduce(file: &[u8], out: &mut [u8]) -> PhfReduced
    ensures phf_reduce_answers { PhfReduceAnswers file.now out.old result }
    ensures reduce_writes { ReduceWrites file.now out.old out.new }
{
    reduction::reduce(file, out).into()
}

// Whether two families reduce to the same file: 1 for yes, 0 for no.
#[unsafe(no_mangle)]
pub extern "C" fn phf_same(first: &[u8], second: &[u8]) -> PhfCompared
    ensures { PhfSameAnswers first.now second.now result }
{
    reduction::same(first, second).into()
}

// The selection of the peptides whose p is at or under a cut: the number of the first cause that holds, 0 for none. C has no enum
// with numbers in its cases, so each rule has a name of its own.
#[unsafe(no_mangle)]
pub extern "C" fn phf_choose_at_most(
    m: u16,
    p_values: &[f64],
    folds: &[f64],
    cut: f64,
    out: &mut [u8],
) -> u16
    ensures phf_choose_answers { PhfChooseAnswers m p_values.now folds.now (AtMost cut) out.old result }
    ensures choose_writes { ChooseWrites m p_values.now folds.now (AtMost cut) out.old out.new }
{
    number_of(volcano::choose(m, p_values, folds, Rule::AtMost(cut), out))
}

// The same, for p from one cut to another, both included.
#[unsafe(no_mangle)]
pub extern "C" fn phf_choose_between(
    m: u16,
    p_values: &[f64],
    folds: &[f64],
    low: f64,
    high: f64,
    out: &mut [u8],
) -> u16
    ensures phf_choose_answers { PhfChooseAnswers m p_values.now folds.now (Between low high) out.old result }
    ensures choose_writes { ChooseWrites m p_values.now folds.now (Between low high) out.old out.new }
{
    number_of(volcano::choose(m, p_values, folds, Rule::Between(low, high), out))
}

// The same, for p at or under a cut with the log fold change at least `fold` or at most its negative.
#[unsafe(no_mangle)]
pub extern "C" fn phf_choose_volcano(
    m: u16,
    p_values: &[f64],
    folds: &[f64],
    cut: f64,
    fold: f64,
    out: &mut [u8],
) -> u16
    ensures phf_choose_answers { PhfChooseAnswers m p_values.now folds.now (Volcano cut fold) out.old result }
    ensures choose_writes { ChooseWrites m p_values.now folds.now (Volcano cut fold) out.old out.new }
{
    number_of(volcano::choose(m, p_values, folds, Rule::Volcano(cut, fold), out))
}

// The number of the first cause that holds; for 0 the file with the z from the p-values, whole millionths, at the start of the output.
#[unsafe(no_mangle)]
pub extern "C" fn phf_bounds_from_p(
    file: &[u8],
    p_values: &[u32],
    deviation_squared: u32,
    out: &mut [u8],
) -> u16
    ensures phf_from_p_answers { PhfFromPAnswers file.now p_values.now deviation_squared out.old result }
    ensures from_p_writes { FromPWrites file.now p_values.now deviation_squared out.old out.new }
{
    number_of(pvalues::bounds_from_p(file, p_values, deviation_squared, out))
}

// The hybrid curve along a path, without marks: at each entry the smaller of the region bound and the Simes bound at the given level.
// p-values and level are whole millionths.
#[unsafe(no_mangle)]
pub extern "C" fn phf_hybrid(
    file: &[u8],
    path: &[u16],
    p_values: &[u32],
    level: u32,
    values: &mut [u16],
) -> PhfCurved
    ensures phf_hybrid_answers { PhfHybridAnswers file.now path.now p_values.now level values.old result }
    ensures hybrid_writes { HybridWrites file.now path.now p_values.now level values.old values.new }
{
    hybrid::hybrid(file, path, p_values, level, values).into()
}

// Writes the file of a family by level at the start of the output: its length.
#[unsafe(no_mangle)]
pub extern "C" fn phf_to_levels(file: &[u8], out: &mut [u8]) -> PhfConverted
    ensures phf_to_levels_answers { PhfToLevelsAnswers file.now out.old result }
    ensures to_levels_writes { ToLevelsWrites file.now out.old out.new }
{
    levels::to_levels(file, out).into()
}

// Writes the family file of what a file by level lists at the start of the output: its length.
#[unsafe(no_mangle)]
pub extern "C" fn phf_from_levels(file: &[u8], out: &mut [u8]) -> PhfConverted
    ensures phf_from_levels_answers { PhfFromLevelsAnswers file.now out.old result }
    ensures from_levels_writes { FromLevelsWrites file.now out.old out.new }
{
    levels::from_levels(file, out).into()
}
