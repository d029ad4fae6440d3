//! Some of the fields of a header.

ghost use Rattle.std.specs.Prelude.{◌<◌, ◌≤◌, All};

use crate::cell::{Cell, FIELDS, width};

/// Fields by their places, the first `many` of the array.
#[derive(Clone, Copy, Debug)]
pub(crate) struct Fields {
    pub(crate) fields: [usize; FIELDS],
    pub(crate) many: usize,
    ghost few: { many ≤ 11 },
    ghost fit: { All (λ field. field < 11) fields },
}

impl Fields {
    /// The fields in which a cell has not every number of the field's width.
    pub(crate) fn asked_by(cell: &Cell) -> Fields {
        let mut fields = [0usize; FIELDS];
        let mut many = 0;
        for field in 0..FIELDS {
            let interval = cell.interval(field);
            if interval.low > 0 || interval.high < (1 << width(field)) - 1 {
                fields[many] = field;
                many += 1;
            }
        }
        Fields { fields, many }
    }
}
