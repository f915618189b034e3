// Tables of states: the check of any list, and the numbering by an accepted one.

#![tactic(auto)]

// An entry by its state and its digit, and where it stands.
mod place;
// The rules that a table keeps.
mod rule;
// A list read as a table, by rows and backwards; the first entry that breaks a rule.
mod table_view;
// The check of a table.
mod checking;
// The built-in table.
mod four;
// The numbering by a table: making one, installing another, the machine that it follows and its calls.
mod table_numbering;

pub use checking::check;
pub use four::{FOUR_STATES, four_states};
pub use table_numbering::TableNumbering;
