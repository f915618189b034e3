use diagram::Entry;
use std::fmt;

// A state of a table as a line: its number, then for each digit the n-point in as many binary digits as there are axes, a colon and the next state.
#[derive(Clone, Copy)]
pub(crate) struct Row<'a> {
    pub(crate) axes: u32,
    pub(crate) state: usize,
    pub(crate) entries: &'a [Entry],
}

impl fmt::Display for Row<'_> {
    fn fmt<W: fmt::Write>(&self, f: &mut fmt::Formatter<W>) -> fmt::Result {
        let width = self.axes as usize;
        write!(f, "{}", self.state)?;
        for entry in self.entries {
            write!(f, " {:0width$b}:{}", entry.point, entry.next)?;
        }
        Ok(())
    }
}
