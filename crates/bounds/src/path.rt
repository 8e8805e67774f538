// Whether a family and a path are accepted: causes 1 to 10, then 11, 12 and 13, each over the whole path.
ghost use Rattle.std.specs.Prelude.{◌≡◌, ℕ, ◌<◌, ◌≤◌, length, get_or};
ghost use Rattle.reader.specs.Refusals.{verdict};
ghost use Rattle.bounds.specs.Curves.{cause12};
ghost use Rattle.bounds.specs.Private.Walks.{number_cause, Differing, Admission};

use reader::refusal::Refusal;

// A path number 0 or over m.
fn off_the_line(path: &[u16], peptides: u16) -> bool
    ensures { result ≡ cause12 peptides path.now }
{
    path.iter().any(|number| *number == 0 || peptides < *number)
}

// Declines by the first of the causes 11 and 12.
fn check_numbers(path: &[u16], peptides: u16) -> Result<(), Refusal>
    ensures { verdict result ≡ number_cause peptides path.now }
{
    if (peptides as usize) < path.len() {
        return Err(Refusal::PathLength);
    }
    if off_the_line(path, peptides) {
        return Err(Refusal::OffTheLine);
    }
    Ok(())
}

// Declines with the first place, counted from 1, whose peptide stands earlier too.
fn check_repeats(path: &[u16]) -> Result<(), Refusal>
    requires short { length path.now ≤ 4096 }
    requires numbers { (i : ℕ) → i < length path.now → get_or path.now i 0 ≤ 4096 }
    ensures { Differing path.now result }
{
    let mut seen = [false; 4097];
    for (i, number) in path.iter().enumerate() {
        let peptide = *number as usize;
        if seen[peptide] {
            return Err(Refusal::Repeated((i + 1) as u16));
        }
        seen[peptide] = true;
    }
    Ok(())
}

// Declines by the first of the causes 1 to 13; where none holds, the parents of the regions are written.
pub(crate) fn check_path(
    file: &[u8],
    path: &[u16],
    parents: &mut [u16; 8191],
) -> Result<(), Refusal>
    ensures { Admission file.now path.now parents.new result }
{
    let sizes = reader::parents(file, parents)?;
    check_numbers(path, sizes.peptides)?;
    check_repeats(path)
}
