//! The rows of equations on samples.

ghost use Rattle.std.specs.Prelude.{◌≡◌, All, IfOk};
ghost use Rattle.pr_base.specs.Rows.{IsRow};
ghost use Rattle.pr_flat.specs.Flats.{equations_of};
ghost use Rattle.pr_flat.specs.Widths.{AreWidths};
ghost use Rattle.pr_flat.specs.Values.{input_widths};
ghost use Rattle.pr_source.specs.Outputs.{given_all};

use crate::evaluator::Evaluator;
use pr_base::Sample;
use pr_flat::Flat;
use pr_width::Widths;
use std::alloc::{AllocError, Global};

/// For each sample the numbers of the outputs.
pub fn eval(
    alloc: Global,
    flat: &Flat,
    widths: &Widths,
    samples: &[Sample],
) -> Result<Vec<Sample>, AllocError>
    requires widths { AreWidths (equations_of flat.now) widths.now }
    requires samples { All (IsRow (input_widths (equations_of flat.now))) samples.now }
    ensures { IfOk result (λ rows. rows.items ≡
        given_all (equations_of flat.now) flat.now.outputs.items widths.now samples.now) }
{
    let mut evaluator = Evaluator::new(alloc, flat)?;
    let mut rows = Vec::new(alloc);
    for sample in samples {
        let mut row = vec![in alloc; 0; flat.outputs.len()]?;
        evaluator.next(flat, widths, sample.numbers(), &mut row);
        rows.push(Sample::new(row))?;
    }
    Ok(rows)
}
