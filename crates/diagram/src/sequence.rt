ghost use Rattle.std.specs.Prelude.{◌≡◌, suc, ◌^◌, ◌<◌, ◌≤◌, ◌++◌, length, drop, IfOk};
ghost use Rattle.grid.specs.Answers.{refusal, unless};
ghost use Rattle.diagram.specs.Pairs.{next_of};
ghost use Rattle.diagram.specs.Rows.{row_end, row_shift, row_start, top_axis, x2};
ghost use Rattle.diagram.specs.Sequences.{x2_refusal};

use crate::state::State;
use grid::{AxisCount, Refusal};

// Writes the X2 sequence for that many axes, the starts and ends of the rows by turns, at the front of a list, and answers its length.
// The list is lent, so that no heap is needed.
pub fn write_x2(axes: u32, list: &mut [u8]) -> Result<usize, Refusal>
    ensures refused { refusal result ≡ x2_refusal axes (length list.old) }
    ensures long { IfOk result (λ long. long ≡ 2 ^ suc axes) }
    ensures list { list.new ≡ unless (refusal result) (x2 axes ++ drop (2 ^ suc axes) list.old) list.old }
{
    let axes = AxisCount::try_from(axes)?;
    let need = 2 * axes.points() as usize;
    if list.len() < need {
        return Err(Refusal::Space { need });
    }
    Ok(extend(axes.get(), list))
}

// From the sequence for one axis fewer, by the four steps. It begins with that of one axis, which no grid has.
fn extend(axes: u32, list: &mut [u8]) -> usize
    requires least { 1 ≤ axes }
    requires most { axes ≤ 8 }
    requires room { 2 ^ suc axes ≤ length list.old }
    ensures long { result ≡ 2 ^ suc axes }
    ensures list { list.new ≡ x2 axes ++ drop (2 ^ suc axes) list.old }
{
    if axes == 1 {
        list[..4].copy_from_slice(&[0, 1, 0, 1]);
        return 4;
    }
    let half = extend(axes - 1, list);
    let lead = (half / 2) as u8;
    list[half - 1] = list[half - 2] + lead;
    // Once more back to front, and there with the leading bit flipped: in one pass, which takes half the time of three.
    let (front, back) = list.split_at_mut(half);
    let upper = &mut back[..half];
    for (place, member) in upper.iter_mut().enumerate() {
        *member = lead ^ front[half - 1 - place];
    }
    2 * half
}

// The X2 sequence of that many axes, at the front of a list with room for that of eight: no heap is needed.
#[derive(Drop)]
pub(crate) struct Sequence {
    pub(crate) axes: AxisCount,
    list: [u8; 512],
    ghost front: { list ≡ x2 axes.count ++ drop (2 ^ suc axes.count) list },
}

impl Sequence {
    pub(crate) fn new(axes: AxisCount) -> Sequence
        ensures { result.axes ≡ axes }
    {
        let mut list = [0; 512];
        extend(axes.get(), &mut list);
        Sequence { axes, list }
    }

    // The next four require a row below 2^n: a row with its axes, as a type, would be made and taken apart at each call.

    // Where a row starts.
    fn start(&self, row: u32) -> u8
        requires { row < 2 ^ self.now.axes.count }
        ensures { result ≡ row_start self.now.axes.count row }
    {
        self.list[2 * row as usize]
    }

    // Where it ends.
    fn end(&self, row: u32) -> u8
        requires { row < 2 ^ self.now.axes.count }
        ensures { result ≡ row_end self.now.axes.count row }
    {
        self.list[2 * row as usize + 1]
    }

    // Its shift: the axis, less 1, in which start and end differ.
    fn shift(&self, row: u32) -> u32
        requires { row < 2 ^ self.now.axes.count }
        ensures is { result ≡ row_shift self.now.axes.count row }
        ensures small { result ≤ self.now.axes.count }
    {
        first_axis(self.axes, self.start(row) ^ self.end(row))
    }

    // The state after a digit, by what the row of that digit has. That the state is one for these axes is asked here and where
    // this is called: a state that kept its sequence would copy 512 places.
    pub(crate) fn next(&self, state: State, digit: u32) -> State
        requires axes { self.now.axes ≡ state.axes }
        requires small { digit < 2 ^ state.axes.count }
        ensures axes { result.axes ≡ state.axes }
        ensures pair { result.pair ≡ next_of state.axes.count state.pair digit }
    {
        state.turned_by(u64::from(self.start(digit)), self.shift(digit))
    }
}

// The axis, less 1, of the highest bit among n.
fn first_axis(axes: AxisCount, bits: u8) -> u32
    requires { bits < 2 ^ axes.count }
    ensures is { result ≡ top_axis axes.count bits }
    ensures within { result ≤ axes.count }
{
    axes.get() - (8 - bits.leading_zeros())
}
