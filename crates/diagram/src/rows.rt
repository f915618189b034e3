ghost use Rattle.std.specs.Prelude.{◌≡◌, ◌+◌, ◌*◌, ◌%◌, ◌^◌, ◌<◌, ◌≤◌};
ghost use Rattle.diagram.specs.Rows.{x1, row_start, row_shift};
ghost use Rattle.diagram.specs.Rows.{rotated as rotr};
ghost use Rattle.diagram.specs.Reckons.{gray_undone};

use grid::AxisCount;

// X1: the Gray code.
pub(crate) fn gray(row: u64) -> u64
    ensures { result ≡ x1 row }
{
    row ^ (row >> 1)
}

// The Gray code of up to 8 bits, undone.
pub(crate) fn ungray(point: u64) -> u64
    ensures { result ≡ gray_undone point }
{
    let a = point ^ (point >> 1);
    let b = a ^ (a >> 2);
    b ^ (b >> 4)
}

// A number of n bits, rotated right.
pub(crate) fn rotate(axes: AxisCount, by: u32, x: u64) -> u64
    requires by { by ≤ axes.count }
    requires small { x < 2 ^ axes.count }
    ensures is { result ≡ rotr axes.count by x }
    ensures small { result < 2 ^ axes.count }
{
    join(low(x, by), axes.get() - by, x >> by)
}

// The lowest bits.
fn low(x: u64, bits: u32) -> u64
    requires { bits ≤ 8 }
    ensures { result ≡ x % 2 ^ bits }
{
    x & ((1 << bits) - 1)
}

// Further low bits behind those of x.
fn join(x: u64, bits: u32, more: u64) -> u64
    requires few { bits ≤ 8 }
    requires fits { x * 2 ^ bits + more < 2 ^ 64 }
    ensures { result ≡ x * 2 ^ bits + more }
{
    (x << bits) + more
}

// A row is required to be below 2^n, as a digit of a `State` is.

// Rows 2i - 1 and 2i start at X1 of 2i - 2.
pub(crate) fn start_of(axes: AxisCount, row: u64) -> u64
    requires { row < 2 ^ axes.count }
    ensures is { result ≡ row_start axes.count row }
    ensures small { result < 2 ^ axes.count }
{
    if row == 0 {
        return 0;
    }
    gray(row + row % 2 - 2)
}

// Their shift is told by how often 2 divides 2i.
pub(crate) fn shift_of(axes: AxisCount, row: u64) -> u32
    requires { row < 2 ^ axes.count }
    ensures is { result ≡ row_shift axes.count row }
    ensures small { result < axes.count }
{
    let last = axes.get() - 1;
    if row == 0 {
        return last;
    }
    last - (row + row % 2).trailing_zeros() % axes.get()
}
