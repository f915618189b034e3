// Table files: what loading one meets, layer by layer.

#![tactic(auto)]

mod faults;

pub use faults::{FileFault, Layer, LoadFault, TableFault};
