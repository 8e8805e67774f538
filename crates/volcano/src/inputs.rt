// Causes 2 and 17 to 19: the number of peptides, the slices, the rows and the rule.
ghost use Rattle.std.specs.Prelude.{◌≡◌};
ghost use Rattle.reader.specs.Causes.{cause2, first_cause};
ghost use Rattle.reader.specs.Refusals.{verdict};
ghost use Rattle.volcano.specs.Rules.{off_scale, cause17, cause18, cause19};
ghost use Rattle.volcano.specs.Calls.{choose_causes};

use crate::Rule;
use reader::refusal::Refusal;

// m is 0 or over 4,096: cause 2 of a number, where reader tries it of a file.
#[tactic(auto, unfolding(reader::specs::Causes::cause2))]
fn bad_count(m: u16) -> bool
    ensures { result ≡ cause2 m }
{
    m == 0 || 4096 < m
}

// The two slices not of length m, or the output under m.
#[tactic(auto, unfolding(crate::specs::Rules::cause17, reader::specs::Calls::short))]
fn wrong_lengths(m: u16, p_values: &[f64], folds: &[f64], room: usize) -> bool
    ensures { result ≡ cause17 m p_values.now folds.now room }
{
    let rows = usize::from(m);
    p_values.len() != rows || folds.len() != rows || room < rows
}

// Not a number, for which no comparison holds, or outside 0 to 1.
fn off_scale(p: f64) -> bool
    ensures { result ≡ off_scale p }
{
    !(0.0 <= p && p <= 1.0)
}

// A p that is not a number or outside 0 to 1, or a fold not finite. All are looked at: a way out after each costs more.
fn bad_rows(p_values: &[f64], folds: &[f64]) -> bool
    ensures { result ≡ cause18 p_values.now folds.now }
{
    let bad_p = p_values.iter().fold(false, |bad, p| bad | off_scale(*p));
    let bad_fold = folds
        .iter()
        .fold(false, |bad, fold| bad | !fold.is_finite());
    bad_p | bad_fold
}

// A cut or f that is not a number, or f under 0.
#[tactic(auto, unfolding(crate::specs::Rules::cause19))]
fn bad_rule(rule: Rule) -> bool
    ensures { result ≡ cause19 rule }
{
    match rule {
        Rule::AtMost(cut) => cut.is_nan(),
        Rule::Between(low, high) => low.is_nan() || high.is_nan(),
        Rule::Volcano(cut, f) => cut.is_nan() || f.is_nan() || f < 0.0,
    }
}

// Declines a choice with an output of so many places for the first cause that holds.
pub(crate) fn check_choice(
    m: u16,
    p_values: &[f64],
    folds: &[f64],
    rule: Rule,
    room: usize,
) -> Result<(), Refusal>
    ensures { verdict result ≡ first_cause (choose_causes m p_values.now folds.now rule room) }
{
    if bad_count(m) {
        return Err(Refusal::PeptideCount);
    }
    if wrong_lengths(m, p_values, folds, room) {
        return Err(Refusal::RowCount);
    }
    if bad_rows(p_values, folds) {
        return Err(Refusal::Row);
    }
    if bad_rule(rule) {
        return Err(Refusal::Rule);
    }
    Ok(())
}
