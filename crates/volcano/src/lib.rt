// Selections from a volcano plot: the peptides whose p-value and log fold change pass a rule.
#![tactic(auto)]

mod inputs;

ghost use Rattle.std.specs.Prelude.{◌++◌, ◌≡◌, ◌≤◌, length, drop};
ghost use Rattle.volcano.specs.Rules as rules;
ghost use Rattle.volcano.specs.Rules.{chosen};
ghost use Rattle.volcano.specs.Calls.{ChooseAnswers, ChooseWrites};

use inputs::check_choice;
use reader::refusal::Refusal;

// What is measured of a peptide.
#[derive(Clone, Copy)]
pub struct Row {
    pub p: f64,
    pub fold: f64,
}

// How peptides are chosen: p at or under a cut; p from one cut to another; p at or under a cut, with the fold outside a band.
#[derive(Clone, Copy)]
pub enum Rule {
    AtMost(f64),
    Between(f64, f64),
    Volcano(f64, f64),
}

// Whether a row passes the rule. Both sides of a comparison are looked at, since a branch that cannot be foreseen costs more.
#[tactic(auto, unfolding(crate::specs::Rules::passes))]
pub fn passes(rule: Rule, row: Row) -> bool
    ensures { result ≡ rules.passes rule row }
{
    match rule {
        Rule::AtMost(cut) => row.p <= cut,
        Rule::Between(low, high) => (low <= row.p) & (row.p <= high),
        Rule::Volcano(cut, f) => (row.p <= cut) & ((f <= row.fold) | (row.fold <= -f)),
    }
}

// Writes for each row 1 if it passes the rule, else 0. The rows come as two slices, as C has them.
fn write_chosen(p_values: &[f64], folds: &[f64], rule: Rule, out: &mut [u8])
    requires { (length p_values.now ≡ length folds.now) × (length p_values.now ≤ length out.old) }
    ensures { out.new ≡ chosen rule p_values.now folds.now ++ drop (length p_values.now) out.old }
{
    for (i, p) in p_values.iter().enumerate() {
        let row = Row {
            p: *p,
            fold: folds[i],
        };
        out[i] = u8::from(passes(rule, row));
    }
}

// The selection of the peptides whose row passes the rule, at the start of the output. A declined call leaves the output unchanged.
pub fn choose(
    m: u16,
    p_values: &[f64],
    folds: &[f64],
    rule: Rule,
    out: &mut [u8],
) -> Result<(), Refusal>
    ensures choose_answers { ChooseAnswers m p_values.now folds.now rule out.old result }
    ensures choose_writes { ChooseWrites m p_values.now folds.now rule out.old out.new }
{
    check_choice(m, p_values, folds, rule, out.len())?;
    write_chosen(p_values, folds, rule, out);
    Ok(())
}
