// What a call refuses. Each case has one number, and its fields are what it tells.
// Axes are counted from 1, states, digits, places and offsets from 0.
// It has no `==`: of a derived one on so many cases the check can tell nothing.
#[derive(Clone, Copy)]
pub enum Refusal {
    // 1: the number of axes is not 2 to 8.
    Axes { axes: u32 },
    // 2: the number of states is not 1 to 4096.
    States { states: u32 },
    // 3: the entries are not one for each state and digit.
    Entries { length: usize },
    // 4: an n-point is too large, or stands in its row already.
    PointRepeated { state: u32, digit: u32 },
    // 5: a next state is none of the table's.
    NextState { state: u32, digit: u32 },
    // 6: the n-points of this digit and the next one do not differ in exactly one bit.
    PointsApart { state: u32, digit: u32 },
    // 7: the first or last n-point is not that of its next state.
    CornerMoved { state: u32, digit: u32 },
    // 8: the blocks of this digit and the next one do not meet.
    BlocksApart { state: u32, digit: u32 },
    // 9: the order is below 1, or too large for the axes.
    Order { order: u32 },
    // 10: the key is not below the number of cells.
    Key { key: u64 },
    // 11: the list does not have one place for each axis.
    CellLength { length: usize },
    // 12: a coordinate is not below the side of the grid.
    Coordinate { axis: u32 },
    // 13: the last key has no next one.
    LastKey { key: u64 },
    // 14: there is no such axis.
    NoAxis { axis: u32 },
    // 15: there is no cell on that side.
    NoNeighbour { axis: u32 },
    // 16: the corners differ in length, or do not have 2 to 8 coordinates.
    CornerLengths { low: usize, high: usize },
    // 17: a low coordinate is above the high one.
    LowAboveHigh { axis: u32 },
    // 18: the box has other axes than the numbering.
    BoxAxes { axes: u32 },
    // 19: the key is below the mark.
    BelowMark { mark: u64 },
    // 20: the bytes run out within a field.
    CutShort { length: usize },
    // 21: a mark is not the one that is due.
    WrongMark { offset: usize },
    // 22: a state number or a count is not the one that is due.
    OutOfTurn { place: usize },
    // 23: bytes follow the end.
    TrailingBytes { offset: usize },
    // 24: a list or a buffer is shorter than the whole needs.
    Space { need: usize },
    // 25: a row's key is below the one before.
    Descending { place: usize },
    // 26: there are more matches than places.
    Matches { matches: usize },
    // Want of memory, which has no number.
    Memory,
}
