// A state of the diagram: a start, which is an n-point, and a shift, an axis less 1.
#[derive(Clone, Copy, PartialEq, Eq, Debug, Default)]
pub struct Pair {
    pub start: u64,
    pub shift: u32,
}
