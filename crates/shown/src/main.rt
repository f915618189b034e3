// What each command of the program prints, on words that are fixed here: its output is compared with a stored one.

#![tactic(auto)]

use tool::print_diagram;

fn main(rt: HostRuntime) -> anyhow::Result<()> {
    for axes in 2u32..4 {
        println!(rt; "diagram {axes}")?;
        print_diagram(&rt, axes)?;
    }
    for axes in [1u32, 9] {
        println!(rt; "diagram {axes}")?;
        if let Err(error) = print_diagram(&rt, axes) {
            println!(rt; "{error}")?;
        }
    }
    Ok(())
}
