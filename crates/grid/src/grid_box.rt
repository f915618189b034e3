ghost use Rattle.std.specs.Prelude.{◌≡◌, ◌≤◌, [], ◌∷◌, length};
ghost use Rattle.std.specs.List.{zip};
ghost use Rattle.grid.specs.Answers.{refusal};
ghost use Rattle.grid.specs.Axes.{lowest};
ghost use Rattle.grid.specs.Corners.{Ordered, crossed, padded};

use crate::refusal::Refusal;

// The cells between two corners, ends included. The places past the axes hold 0.
// Eight places for each corner, whatever the axes: a box is a plain value and needs no heap. Two corners and not eight
// pairs, since corners are what calls take, answer and promise. Its axes are a plain number, as a grid's: clauses name it.
// It has no `==`: of a derived one on arrays the check can tell nothing.
#[derive(Clone, Copy, Debug)]
pub struct GridBox {
    pub(crate) axes: u32,
    pub(crate) low: [u32; 8],
    pub(crate) high: [u32; 8],
    ghost ordered: { Ordered axes low high },
}

impl GridBox {
    ghost use Rattle.grid.specs.Boxes.{box_refusal, Spans, Placed, holds};

    // The zero cell of two axes, which a place holds before a box is made into it.
    pub fn zero() -> GridBox
        ensures { Spans result (0 ∷ 0 ∷ []) (0 ∷ 0 ∷ []) }
    {
        GridBox {
            axes: 2,
            low: [0; 8],
            high: [0; 8],
        }
    }

    // Makes the box between these corners into this place; refused, the place is as it was.
    pub fn make(&mut self, low: &[u32], high: &[u32]) -> Result<(), Refusal>
        ensures refused { refusal result ≡ box_refusal low.now high.now }
        ensures place { Placed (refusal result) low.now high.now self.old self.new }
    {
        if low.len() != high.len() || low.len() < 2 || low.len() > 8 {
            return Err(Refusal::CornerLengths {
                low: low.len(),
                high: high.len(),
            });
        }
        if let Some(axis) = crossing(low, high) {
            return Err(Refusal::LowAboveHigh { axis });
        }
        *self = GridBox {
            axes: low.len() as u32,
            low: eight(low),
            high: eight(high),
        };
        Ok(())
    }

    pub fn axes(self) -> u32
        ensures { result ≡ self.axes }
    {
        self.axes
    }

    pub fn low(self) -> [u32; 8]
        ensures { result ≡ self.low }
    {
        self.low
    }

    pub fn high(self) -> [u32; 8]
        ensures { result ≡ self.high }
    {
        self.high
    }

    // Whether a cell has the box's axes and lies between its corners.
    pub fn contains(self, cell: &[u32]) -> bool
        ensures { result ≡ holds self cell.now }
    {
        cell.len() == self.axes as usize
            && cell
                .iter()
                .zip(self.low.iter().zip(&self.high))
                .all(|(x, (low, high))| low <= x && x <= high)
    }
}

// That a corner has at most eight places is asked by the next two: a type for such a list would be made of what is lent at
// every call that asks it.

// The lowest axis on which the low corner is above the high one.
fn crossing(low: &[u32], high: &[u32]) -> Option<u32>
    requires { length low.now ≤ 8 }
    ensures { result ≡ lowest crossed (zip low.now high.now) }
{
    low.iter()
        .zip(high)
        .position(|(low, high)| low > high)
        .map(|place| place as u32 + 1)
}

fn eight(corner: &[u32]) -> [u32; 8]
    requires { length corner.now ≤ 8 }
    ensures { result ≡ padded corner.now }
{
    let mut places = [0u32; 8];
    places[0..corner.len()].copy_from_slice(corner);
    places
}
