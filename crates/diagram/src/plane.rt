ghost use Rattle.std.specs.Prelude.{◌≡◌, IfOk};
ghost use Rattle.grid.specs.Answers.{refusal};
ghost use Rattle.diagram.specs.Hindex.{hindex2xy, plane_refusal, AsPublished};

use crate::reckoned::Reckoned;
use grid::Refusal;
use numbering::Numbering;

// The cell of a key in two axes, by the reckoned numbering: at every order it is what the published algorithm gives.
pub fn plane_cell(order: u32, key: u64) -> Result<(u32, u32), Refusal>
    ensures refused { refusal result ≡ plane_refusal order key }
    ensures cell { IfOk result (λ c. (c.0 ≡ (hindex2xy key order).0) × (c.1 ≡ (hindex2xy key order).1)) }
    ensures published { AsPublished }
{
    let mut numbering = Reckoned::new();
    numbering.set(2, order)?;
    let mut cell = [0; 2];
    numbering.cell_of(key, &mut cell)?;
    Ok((cell[0], cell[1]))
}
