ghost use Rattle.std.specs.Prelude.{◌≡◌, ℕ, ◌+◌, ◌*◌, ◌/◌, ◌%◌, ◌^◌, ◌<◌, ◌≤◌, length, slice_index};
ghost use Rattle.machine.specs.Machines.{point_at};

use grid::AxisCount;

// The digit of a key behind which there are `left` others.
pub(crate) fn digit_of(key: u64, axes: AxisCount, left: u32) -> u32
    requires { axes.count * left ≤ 60 }
    ensures { result ≡ key / 2 ^ (axes.count * left) % 2 ^ axes.count }
{
    let mask = u64::from(axes.points() - 1);
    ((key >> (axes.get() * left)) & mask) as u32
}

// A key with one more digit.
pub(crate) fn with_digit(key: u64, axes: AxisCount, digit: u32) -> u64
    requires { key * 2 ^ axes.count + digit < 2 ^ 60 }
    ensures { result ≡ key * 2 ^ axes.count + digit }
{
    (key << axes.get()) + u64::from(digit)
}

fn bit(x: u32, place: u32) -> u32
    requires { place < 32 }
    ensures is { result ≡ x / 2 ^ place % 2 }
    ensures small { result < 2 }
{
    (x >> place) & 1
}

// That a cell has at most eight places is asked by the next two: a type for such a list would be made and taken apart at each
// digit.

// One more bit for each coordinate, that of the n-point.
pub(crate) fn append(cell: &mut [u32], point: u32)
    requires few { length cell.old ≤ 8 }
    requires small { (i : ℕ) → i < length cell.old → slice_index cell.old i < 2 ^ 31 }
    ensures { (i : ℕ) → i < length cell.old → slice_index cell.new i ≡ slice_index cell.old i * 2 + point_at 2 (length cell.old) point i }
{
    let axes = cell.len();
    for (i, x) in cell.iter_mut().enumerate() {
        *x = *x * 2 + bit(point, (axes - 1 - i) as u32);
    }
}

// The n-point of the bits that the coordinates have at a place.
pub(crate) fn gather(cell: &[u32], place: u32) -> u32
    requires few { length cell.now ≤ 8 }
    requires place { place < 32 }
    ensures small { result < 2 ^ length cell.now }
    ensures bits { (i : ℕ) → i < length cell.now → point_at 2 (length cell.now) result i ≡ slice_index cell.now i / 2 ^ place % 2 }
{
    let mut point = 0;
    // By a loop: that the point fits its type depends on how many coordinates went before, which a fold's closure does not know.
    for x in cell {
        point = point * 2 + bit(*x, place);
    }
    point
}
