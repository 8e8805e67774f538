// The leaf of a peptide, found by a walk along the leaf lengths of a family file. The call takes any bytes, and its promise is an
// equation on what it answers.
#![tactic(auto)]

mod leaf_walk;

ghost use Rattle.leaves.specs.Calls.{LeafAnswers};

use leaf_walk::{Walk, leaf_by_leaf};
use reader::family::{Leaf, Peptide, leaf_count};

// The leaf of a peptide, found by walking the leaf lengths; leaf 0 where they end before it, which is no leaf's number: so the
// definition `leaf_of` has it. Fewer leaves than the smallest block has are counted at once.
pub fn leaf_of(file: &[u8], peptide: Peptide) -> Leaf
    ensures { LeafAnswers file.now peptide.0 result.0 }
{
    let leaves = leaf_count(file);
    if file.len() < 16 + 2 * (leaves as usize) {
        return leaf_by_leaf(file, peptide);
    }
    let start = Walk {
        file,
        leaves,
        passed: Leaf(0),
        left: peptide.0,
    };
    if leaves < 16 {
        return start.leaf_of_last();
    }
    let near = start.pass_blocks(8).pass_blocks(2);
    if leaves - near.passed.0 < 16 {
        near.leaf_of_last()
    } else {
        near.leaf_of_sixteen()
    }
}
