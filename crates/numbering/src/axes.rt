ghost use Rattle.std.specs.Prelude.{◌≡◌};
ghost use Rattle.grid.specs.Answers.{refusal};
ghost use Rattle.numbering.specs.Calls.{axis_refusal};

use crate::numbering::Numbering;
use grid::Refusal;

// Whether a numbering has this axis, counted from 1.
pub(crate) fn check_axis<N: Numbering>(numbering: &N, axis: u32) -> Result<(), Refusal>
    ensures { refusal result ≡ axis_refusal (N.Numbering.meaning numbering.now) axis }
{
    if axis == 0 || axis > numbering.axes() {
        return Err(Refusal::NoAxis { axis });
    }
    Ok(())
}
