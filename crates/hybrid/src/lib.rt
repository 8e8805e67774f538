// The hybrid curve: the curve of a path, and wherever the Simes bound, which goes by p-values, is smaller, that one.
#![tactic(auto)]

mod inputs;
mod simes;
mod slots;

ghost use Rattle.hybrid.specs.Calls.{HybridAnswers, HybridWrites, HybridDeclines};

use inputs::check_inputs;
use reader::family::peptide_count;
use reader::refusal::Refusal;
use simes::write_smaller;

// The hybrid curve along a path: entry t is the smaller of the region bound and the Simes bound of the first t peptides. The p-values
// are whole millionths, the first that of peptide 1, and so is the level of the Simes bound. The entries are written from the start of
// the lent slice, without marks; a declined call leaves it unchanged.
pub fn hybrid(
    file: &[u8],
    path: &[u16],
    p_values: &[u32],
    level: u32,
    values: &mut [u16],
) -> Result<(), Refusal>
    ensures hybrid_answers { HybridAnswers file.now path.now p_values.now level values.old result }
    ensures hybrid_writes { HybridWrites file.now path.now p_values.now level values.old values.new }
    ensures hybrid_declines { HybridDeclines file.now path.now p_values.now level values.old result }
{
    let mut region_curve = [0u16; 4097];
    let mut marks = [0u8; 4096];
    bounds::curve(file, path, &mut region_curve, &mut marks)?;
    check_inputs(file, path, p_values, level, values.len())?;
    write_smaller(
        peptide_count(file),
        path,
        p_values,
        level,
        &region_curve,
        values,
    );
    Ok(())
}
