// A fault in the bytes of a file. An offset is that of the field, from 0.
// Beside the same cases of `Refusal`, so that what loading meets is told by its layer.
#[derive(Clone, Copy, PartialEq, Eq, Debug)]
pub enum FileFault {
    // 1: the number of axes is not 2 to 8.
    Axes { axes: u32 },
    // 2: the number of states is not 1 to 4096.
    States { states: u32 },
    // 20: the bytes run out within a field.
    CutShort { length: usize },
    // 21: a mark is not the one that is due.
    WrongMark { offset: usize },
    // 22: a state number or the count at the end is not the one that is due.
    OutOfTurn { offset: usize },
    // 23: bytes follow the end.
    TrailingBytes { offset: usize },
    // 24: the list has no room for the entries.
    Space { need: usize },
}

// A fault in the table that a file holds: the rule that is broken first, 4 to 8, and where.
// Beside five cases of `Refusal`, as a file's faults are.
#[derive(Clone, Copy, PartialEq, Eq, Debug)]
pub enum TableFault {
    PointRepeated { state: u32, digit: u32 },
    NextState { state: u32, digit: u32 },
    PointsApart { state: u32, digit: u32 },
    CornerMoved { state: u32, digit: u32 },
    BlocksApart { state: u32, digit: u32 },
}

// What loading meets, by its layer.
#[derive(Clone, Copy, PartialEq, Eq, Debug)]
pub enum LoadFault {
    File(FileFault),
    Table(TableFault),
}

// The layer of a fault.
#[derive(Clone, Copy, PartialEq, Eq, Debug)]
pub enum Layer {
    InFile,
    InTable,
}
