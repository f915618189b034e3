// With no word a survey archive, from its records to a search: cells, keys, the table in key order, a box and the rows in it.
// With words a tool for pipelines.

#![tactic(auto)]

mod archive;
mod faces;
mod report;
mod survey;

use anyhow::anyhow;
use diagram::Reckoned;
use machine::ZOrder;
use std::env;
use tool::print_diagram;

fn main(rt: HostRuntime) -> anyhow::Result<()> {
    let mut words = env::args(&rt)?;
    // After the program's own name.
    let Some(command) = words.nth(1) else {
        return file_and_search(&rt);
    };
    match (command.as_str(), words.next(), words.next()) {
        ("diagram", Some(axes), None) => print_diagram(&rt, axes.parse::<u32>()?),
        _ => Err(anyhow!("usage: monnuthal [diagram AXES]")),
    }
}

// The archive: filed, listed and searched.
fn file_and_search(rt: &(impl Print + AllocGlobal)) -> anyhow::Result<()> {
    let mut z_order = ZOrder::new();
    z_order.set(survey::AXES, survey::ORDER)?;
    let mut numbering = Reckoned::new();
    numbering.set(survey::AXES, survey::ORDER)?;
    report::records(rt, &numbering, &z_order, &survey::SOUNDINGS)?;
    let table = archive::file(rt.alloc(), &numbering, &survey::SOUNDINGS)?;
    report::table(rt, table.as_slice())?;
    let wanted = archive::wanted()?;
    let found = archive::scan(rt.alloc(), table.as_slice(), wanted)?;
    report::rows(rt, wanted, found.as_slice())?;
    report::neighbours(rt, &numbering, found.as_slice())?;
    report::faces(rt)
}
