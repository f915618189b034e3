// Full scans of small grids, printed tables, and refusals at their edges. There is nothing here but tests.

#![tactic(auto)]

#[cfg(test)]
mod diagrams;
#[cfg(test)]
mod edges;
#[cfg(test)]
mod hilbert;
#[cfg(test)]
mod undo;
