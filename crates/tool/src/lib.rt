// The commands of the program for pipelines: words and lines in, lines out.

#![tactic(auto)]

// A table of states, line by line.
mod table_text;
// The diagram of a number of axes, printed.
mod diagrams;

pub use diagrams::print_diagram;
