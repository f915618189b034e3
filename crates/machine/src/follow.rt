ghost use Rattle.std.specs.Prelude.{◌≡◌, ◌<◌, length};
ghost use Rattle.grid.specs.Grids.{InGrid};
ghost use Rattle.numbering.specs.Calls.{KeyOf};
ghost use Rattle.numbering.specs.Meaning.{size};
ghost use Rattle.machine.specs.Followed.{meaning_of};

use crate::bits::{append, digit_of, gather, with_digit};
use crate::machine::Machine;

// Fills the list with the cell of a key: each digit is one more bit of every coordinate.
pub(crate) fn to_cell<M: Machine>(m: &M, key: u64, list: &mut [u32])
    requires small { key < size (meaning_of M.Machine m.now) }
    requires long { length list.old ≡ (meaning_of M.Machine m.now).axes }
    ensures { list.new ≡ (meaning_of M.Machine m.now).cell key }
{
    let grid = m.grid();
    list.fill(0);
    let mut state = m.first();
    for left in (0..grid.order()).rev() {
        let digit = digit_of(key, grid.axis_count(), left);
        append(list, m.point(state, digit));
        state = m.next(state, digit);
    }
}

// The key of a cell: one bit of every coordinate is an n-point, and so a digit.
pub(crate) fn to_key<M: Machine>(m: &M, list: &[u32]) -> u64
    requires { let m' = meaning_of M.Machine m.now in InGrid m'.axes m'.order list.now }
    ensures { KeyOf (meaning_of M.Machine m.now) list.now result }
{
    let grid = m.grid();
    let mut key = 0;
    let mut state = m.first();
    for place in (0..grid.order()).rev() {
        let digit = m.digit(state, gather(list, place));
        key = with_digit(key, grid.axis_count(), digit);
        state = m.next(state, digit);
    }
    key
}
