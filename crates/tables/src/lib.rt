// The check of tables and the numbering by a table: damaged tables, sizes at their edges, and the table against the reckoning. There is nothing here but tests.

#![tactic(auto)]

#[cfg(test)]
mod damaged;
#[cfg(test)]
mod sizes;
#[cfg(test)]
mod tabled;
