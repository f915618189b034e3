ghost use Rattle.std.specs.Prelude.{◌≡◌, Some};
ghost use Rattle.grid.specs.Refusals.{number, told};
ghost use Rattle.grid.specs.Sentences.{listed, reason, sentence};

use crate::refusal::Refusal;
use std::error::Error;
use std::fmt;

// What a refusal tells: nothing, one number or two. An enum of its own: callers match
// on three cases with names, which Options in one another would not have.
#[derive(Clone, Copy, PartialEq, Eq, Debug)]
pub enum Told {
    Nothing,
    One(u64),
    Two(u64, u64),
}

impl Refusal {
    // The number by which this refusal is known.
    pub fn number(&self) -> Option<u32>
        ensures { result ≡ number self.now }
    {
        match *self {
            Refusal::Axes { .. } => Some(1),
            Refusal::States { .. } => Some(2),
            Refusal::Entries { .. } => Some(3),
            Refusal::PointRepeated { .. } => Some(4),
            Refusal::NextState { .. } => Some(5),
            Refusal::PointsApart { .. } => Some(6),
            Refusal::CornerMoved { .. } => Some(7),
            Refusal::BlocksApart { .. } => Some(8),
            Refusal::Order { .. } => Some(9),
            Refusal::Key { .. } => Some(10),
            Refusal::CellLength { .. } => Some(11),
            Refusal::Coordinate { .. } => Some(12),
            Refusal::LastKey { .. } => Some(13),
            Refusal::NoAxis { .. } => Some(14),
            Refusal::NoNeighbour { .. } => Some(15),
            Refusal::CornerLengths { .. } => Some(16),
            Refusal::LowAboveHigh { .. } => Some(17),
            Refusal::BoxAxes { .. } => Some(18),
            Refusal::BelowMark { .. } => Some(19),
            Refusal::CutShort { .. } => Some(20),
            Refusal::WrongMark { .. } => Some(21),
            Refusal::OutOfTurn { .. } => Some(22),
            Refusal::TrailingBytes { .. } => Some(23),
            Refusal::Space { .. } => Some(24),
            Refusal::Descending { .. } => Some(25),
            Refusal::Matches { .. } => Some(26),
            Refusal::Memory => None,
        }
    }

    // What it tells.
    pub fn told(&self) -> Told
        ensures { result ≡ told self.now }
    {
        match *self {
            Refusal::Axes { axes } | Refusal::BoxAxes { axes } => Told::One(u64::from(axes)),
            Refusal::States { states } => Told::One(u64::from(states)),
            Refusal::PointRepeated { state, digit }
            | Refusal::NextState { state, digit }
            | Refusal::PointsApart { state, digit }
            | Refusal::CornerMoved { state, digit }
            | Refusal::BlocksApart { state, digit } => Told::Two(
                u64::from(state),
                u64::from(digit),
            ),
            Refusal::Order { order } => Told::One(u64::from(order)),
            Refusal::Key { key } | Refusal::LastKey { key } => Told::One(key),
            Refusal::Coordinate { axis }
            | Refusal::NoAxis { axis }
            | Refusal::NoNeighbour { axis }
            | Refusal::LowAboveHigh { axis } => Told::One(u64::from(axis)),
            Refusal::CornerLengths { low, high } => Told::Two(low as u64, high as u64),
            Refusal::BelowMark { mark } => Told::One(mark),
            Refusal::Entries { length }
            | Refusal::CellLength { length }
            | Refusal::CutShort { length } => Told::One(length as u64),
            Refusal::WrongMark { offset } | Refusal::TrailingBytes { offset } => {
                Told::One(offset as u64)
            }
            Refusal::OutOfTurn { place } | Refusal::Descending { place } => Told::One(place as u64),
            Refusal::Space { need } => Told::One(need as u64),
            Refusal::Matches { matches } => Told::One(matches as u64),
            Refusal::Memory => Told::Nothing,
        }
    }

    // Why, in words.
    fn reason(&self) -> &'static str
        ensures { result.now ≡ reason self.now }
    {
        match *self {
            Refusal::Axes { .. } => "the number of axes is not 2 to 8",
            Refusal::States { .. } => "the number of states is not 1 to 4096",
            Refusal::Entries { .. } => "the table's entries are not one for each state and digit",
            Refusal::PointRepeated { .. } => "an n-point is too large or stands in its row already",
            Refusal::NextState { .. } => "a next state is none of the table's",
            Refusal::PointsApart { .. } => "consecutive n-points do not differ in exactly one bit",
            Refusal::CornerMoved { .. } => "an outer n-point is not that of its next state",
            Refusal::BlocksApart { .. } => "consecutive blocks do not meet",
            Refusal::Order { .. } => "the order is below 1 or too large for the axes",
            Refusal::Key { .. } => "the key is not below the number of cells",
            Refusal::CellLength { .. } => "the list does not have one place for each axis",
            Refusal::Coordinate { .. } => "a coordinate is not below the side of the grid",
            Refusal::LastKey { .. } => "the last key has no next one",
            Refusal::NoAxis { .. } => "there is no such axis",
            Refusal::NoNeighbour { .. } => "there is no cell on that side",
            Refusal::CornerLengths { .. } =>
                "the corners differ in length or have not 2 to 8 coordinates",
            Refusal::LowAboveHigh { .. } => "a low coordinate is above the high one",
            Refusal::BoxAxes { .. } => "the box has other axes than the numbering",
            Refusal::BelowMark { .. } => "the key is below the mark",
            Refusal::CutShort { .. } => "the bytes run out within a field",
            Refusal::WrongMark { .. } => "a mark is not the one that is due",
            Refusal::OutOfTurn { .. } => "a state number or a count is not the one that is due",
            Refusal::TrailingBytes { .. } => "bytes follow the end",
            Refusal::Space { .. } => "a list or a buffer is shorter than the whole needs",
            Refusal::Descending { .. } => "a row's key is below the one before",
            Refusal::Matches { .. } => "there are more matches than places",
            Refusal::Memory => "there is no memory left",
        }
    }
}

impl fmt::Display for Told {
    ghost output = { λ t. Some (listed t) };

    fn fmt<W: fmt::Write>(&self, f: &mut fmt::Formatter<W>) -> fmt::Result {
        match *self {
            Told::Nothing => Ok(()),
            Told::One(x) => write!(f, " ({x})"),
            Told::Two(x, y) => write!(f, " ({x}, {y})"),
        }
    }
}

impl fmt::Display for Refusal {
    ghost output = { λ r. Some (sentence r) };

    fn fmt<W: fmt::Write>(&self, f: &mut fmt::Formatter<W>) -> fmt::Result {
        let reason = self.reason();
        let told = self.told();
        match self.number() {
            Some(number) => write!(f, "refused with {number}: {reason}{told}"),
            None => write!(f, "refused: {reason}{told}"),
        }
    }
}

// The same sentence. By hand: a `main` that answers a refusal prints it by this, and a derived one would not tell the number.
impl fmt::Debug for Refusal {
    ghost debug_output = { λ r. Some (sentence r) };

    fn fmt<W: fmt::Write>(&self, f: &mut fmt::Formatter<W>) -> fmt::Result {
        write!(f, "{self}")
    }
}

impl Error for Refusal {}
