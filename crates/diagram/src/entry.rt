// What a digit has in a state of a table: its n-point, and the number of its next state.
#[derive(Clone, Copy, PartialEq, Eq, Debug, Default)]
pub struct Entry {
    pub point: u8,
    pub next: u16,
}
