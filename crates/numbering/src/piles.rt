ghost use Rattle.std.specs.Prelude.{List, [], ◌∷◌};
ghost use Rattle.numbering.specs.Calls.{CellAnswer, StepAnswer};
ghost use Rattle.numbering.specs.Faces.{FaceToFace};
ghost use Rattle.numbering.specs.Meaning.{Lawful};
ghost use Rattle.numbering.specs.Piles.{Turning, Reverse, MirrorOn, ExchangeOf, piled, Undone};

use crate::exchange::Exchange;
use crate::mirror::Mirror;
use crate::numbering::Numbering;
use crate::reversal::Reversal;
use crate::unbroken::Unbroken;
use grid::{Refusal, Step};

// The cell of a key under a pile of the three turnings: what the definition of a pile gives.
// Every pile over the same numbering keeps the laws, and the same pile upside down over it gives the numbering's own cells back.
pub fn cell_under<N: Numbering>(
    pile: &Reversal<Mirror<Exchange<N>>>,
    key: u64,
    cell: &mut [u32],
) -> Result<(), Refusal>
    ensures answer { CellAnswer (piled (Reverse ∷ MirrorOn pile.now.inner.turn.axis ∷ ExchangeOf pile.now.inner.inner.turn.first pile.now.inner.inner.turn.second ∷ []) (N.Numbering.meaning pile.now.inner.inner.inner)) key cell.old result cell.new }
    ensures lawful { (ts : List Turning) → Lawful (piled ts (N.Numbering.meaning pile.now.inner.inner.inner)) }
    ensures undone { (ts : List Turning) → Undone (N.Numbering.meaning pile.now.inner.inner.inner) ts }
{
    pile.cell_of(key, cell)
}

// The step from a key's cell under such a pile over an unbroken numbering.
// Consecutive cells share a face under every pile over the same numbering.
pub fn step_under<N: Unbroken>(
    pile: &Reversal<Mirror<Exchange<N>>>,
    key: u64,
) -> Result<Step, Refusal>
    ensures answer { StepAnswer (piled (Reverse ∷ MirrorOn pile.now.inner.turn.axis ∷ ExchangeOf pile.now.inner.inner.turn.first pile.now.inner.inner.turn.second ∷ []) (N.Numbering.meaning pile.now.inner.inner.inner)) key result }
    ensures joined { (ts : List Turning) → FaceToFace (piled ts (N.Numbering.meaning pile.now.inner.inner.inner)) }
{
    pile.step(key)
}
