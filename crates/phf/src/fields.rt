// What a call of the libraries answers, as the fields of a struct of C: the number of the refusal, 0 for none, then the values.
ghost use Rattle.std.specs.Prelude.{◌≡◌, get_or};
ghost use Rattle.reader.specs.Refusals.{beside, verdict, report};
ghost use Rattle.reader.specs.Calls.{sizes};
ghost use Rattle.bounds.specs.Calls.{the_number, no_values, report_list};
ghost use Rattle.reduction.specs.Calls.{size_values};
ghost use Rattle.phf.specs.Fields.{placeless, placeless_pair, checked_fields, bounded_fields, listed_fields, curved_fields, cutting_fields, reduced_fields, compared_fields, converted_fields};

use crate::{
    PhfBounded, PhfChecked, PhfCompared, PhfConverted, PhfCurved, PhfCutting, PhfListed, PhfReduced,
};
use bounds::Listed;
use reader::Sizes;
use reader::refusal::Refusal;
use reduction::{PairRefusal, Size};

// The number of a refusal, 0 for none.
pub(crate) fn number_of(answer: Result<(), Refusal>) -> u16
    ensures { result ≡ verdict answer }
{
    match answer {
        Ok(()) => 0,
        Err(refusal) => refusal.into(),
    }
}

// The place that comes with number 13; 0 with any other, which has none.
fn place_of(refusal: Refusal) -> u16
    ensures { result ≡ get_or (beside refusal) 0 0 }
{
    match refusal {
        Refusal::Repeated(place) => place,
        _ => 0,
    }
}

impl From<Result<Sizes, Refusal>> for PhfChecked {
    ghost from_gives = { λ answer fields. fields ≡ checked_fields (placeless sizes answer) };

    fn from(answer: Result<Sizes, Refusal>) -> PhfChecked {
        match answer {
            Ok(sizes) => PhfChecked {
                number: 0,
                peptides: sizes.peptides,
                leaves: sizes.leaves,
                regions: sizes.regions,
            },
            Err(refusal) => PhfChecked {
                number: refusal.into(),
                peptides: 0,
                leaves: 0,
                regions: 0,
            },
        }
    }
}

impl From<Result<u16, Refusal>> for PhfBounded {
    ghost from_gives = { λ answer fields. fields ≡ bounded_fields (placeless the_number answer) };

    fn from(answer: Result<u16, Refusal>) -> PhfBounded {
        match answer {
            Ok(bound) => PhfBounded { number: 0, bound },
            Err(refusal) => {
                let number = u16::from(refusal);
                PhfBounded { number, bound: 0 }
            }
        }
    }
}

// A declined list is charged nothing.
impl From<Listed> for PhfListed {
    ghost from_gives = { λ answer fields. fields ≡ listed_fields (report_list answer) };

    fn from(answer: Listed) -> PhfListed {
        let (number, charge) = match answer.charged {
            Ok(charge) => (0, charge),
            Err(refusal) => (refusal.into(), 0),
        };
        PhfListed {
            number,
            charge,
            tally: answer.tally,
        }
    }
}

impl From<Result<(), Refusal>> for PhfCurved {
    ghost from_gives = { λ answer fields. fields ≡ curved_fields (report no_values answer) };

    fn from(answer: Result<(), Refusal>) -> PhfCurved {
        match answer {
            Ok(()) => PhfCurved {
                number: 0,
                place: 0,
            },
            Err(refusal) => PhfCurved {
                number: refusal.into(),
                place: place_of(refusal),
            },
        }
    }
}

impl From<Result<u16, Refusal>> for PhfCutting {
    ghost from_gives = { λ answer fields. fields ≡ cutting_fields (report the_number answer) };

    fn from(answer: Result<u16, Refusal>) -> PhfCutting {
        match answer {
            Ok(cut) => PhfCutting {
                number: 0,
                place: 0,
                cut,
            },
            Err(refusal) => PhfCutting {
                number: refusal.into(),
                place: place_of(refusal),
                cut: 0,
            },
        }
    }
}

impl From<Result<Size, Refusal>> for PhfReduced {
    ghost from_gives = { λ answer fields. fields ≡ reduced_fields (placeless size_values answer) };

    fn from(answer: Result<Size, Refusal>) -> PhfReduced {
        match answer {
            Ok(size) => PhfReduced {
                number: 0,
                length: size.length,
                regions: size.regions,
            },
            Err(refusal) => PhfReduced {
                number: refusal.into(),
                length: 0,
                regions: 0,
            },
        }
    }
}

impl From<Result<bool, PairRefusal>> for PhfCompared {
    ghost from_gives = { λ answer fields. fields ≡ compared_fields (placeless_pair answer) };

    fn from(answer: Result<bool, PairRefusal>) -> PhfCompared {
        match answer {
            Ok(same) => PhfCompared {
                number: 0,
                same: same as u16,
            },
            Err(refusal) => {
                let number = u16::from(refusal);
                PhfCompared { number, same: 0 }
            }
        }
    }
}

impl From<Result<u16, Refusal>> for PhfConverted {
    ghost from_gives = { λ answer fields. fields ≡ converted_fields (placeless the_number answer) };

    fn from(answer: Result<u16, Refusal>) -> PhfConverted {
        match answer {
            Ok(length) => PhfConverted { number: 0, length },
            Err(refusal) => {
                let number = u16::from(refusal);
                PhfConverted { number, length: 0 }
            }
        }
    }
}
