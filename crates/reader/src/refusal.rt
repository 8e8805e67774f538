// Why a call declines: one refusal for each cause of docs/SCOPE.md, "Why a call declines", in the order of its table.
ghost use Rattle.std.specs.Prelude.{◌≡◌};
ghost use Rattle.reader.specs.Refusals.{number_of};

// The cause for which a call declines, with the place that is returned beside it.
#[derive(Clone, Copy, PartialEq, Eq)]
pub enum Refusal {
    // Fewer than 16 bytes, or another mark.
    Mark,
    // m.
    PeptideCount,
    // N.
    LeafCount,
    // K.
    RegionCount,
    // The offsets, the total, or the number of bytes.
    Layout,
    // They do not add up to m.
    LeafLengths,
    // A region whose leaves are not leaves of the family.
    Misplaced,
    // A region not after the one before it.
    Misordered,
    // Two regions share a leaf, neither inside the other.
    Crossing,
    // More than 63 regions around one.
    TooDeep,
    // A path longer than m, or in the program with an odd number of bytes.
    PathLength,
    // A number of the path that is no peptide.
    OffTheLine,
    // A peptide that stands twice in the path, with the place where it stands again.
    Repeated(u16),
    // Not m bytes, or a byte over 1.
    Selection,
    // a / b, where the path is cut.
    Fraction,
    // An output too short.
    Room,
    // The p-values and folds of a choice, or its output, not m.
    RowCount,
    // A p-value outside 0 to 1, or a fold not finite.
    Row,
    // A cut that is no number, or a band under 0.
    Rule,
    // The p-values in millionths, not m.
    PValueCount,
    // One over 1,000,000 millionths.
    PValue,
    // The constant for bounds from p-values.
    Deviation,
    // The level of the Simes bound.
    Level,
    // More than 32 selections.
    ListLength,
    // The tally would not fit.
    Tally,
    // Those of a file by level do not add up to K.
    LevelCounts,
    // A region of such a file not at its place, or there twice.
    Levels,
}

// The number of the cause, as the table has it.
impl From<Refusal> for u16 {
    ghost from_gives = { λ refusal number. number ≡ number_of refusal };

    fn from(refusal: Refusal) -> u16 {
        match refusal {
            Refusal::Mark => 1,
            Refusal::PeptideCount => 2,
            Refusal::LeafCount => 3,
            Refusal::RegionCount => 4,
            Refusal::Layout => 5,
            Refusal::LeafLengths => 6,
            Refusal::Misplaced => 7,
            Refusal::Misordered => 8,
            Refusal::Crossing => 9,
            Refusal::TooDeep => 10,
            Refusal::PathLength => 11,
            Refusal::OffTheLine => 12,
            Refusal::Repeated(_) => 13,
            Refusal::Selection => 14,
            Refusal::Fraction => 15,
            Refusal::Room => 16,
            Refusal::RowCount => 17,
            Refusal::Row => 18,
            Refusal::Rule => 19,
            Refusal::PValueCount => 20,
            Refusal::PValue => 21,
            Refusal::Deviation => 22,
            Refusal::Level => 23,
            Refusal::ListLength => 24,
            Refusal::Tally => 25,
            Refusal::LevelCounts => 26,
            Refusal::Levels => 27,
        }
    }
}
