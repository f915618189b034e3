// How long a key takes: nanoseconds for a cell and for a key, by table and by reckoning, at the greatest order of each number of axes.

#![tactic(auto)]

use diagram::Reckoned;
use grid::Refusal;
use numbering::Numbering;
use std::env;
use std::rt::Clock;
use std::time::{Duration, Instant};
use table::TableNumbering;

fn main(rt: HostRuntime) -> anyhow::Result<()> {
    let Some(rounds) = env::args(&rt)?.nth(1) else {
        return Ok(println!(rt; "usage: measure ROUNDS")?);
    };
    let rounds = rounds.parse::<u64>()?;
    println!(rt; "axes order  table: cell   key  reckoned: cell   key")?;
    for (axes, order) in [(2, 30), (3, 20), (4, 15), (5, 12), (6, 10), (7, 8), (8, 7)] {
        let mut table = TableNumbering::new(rt.alloc())?;
        table.install_diagram(rt.alloc(), axes, order)?;
        let mut reckoned = Reckoned::new();
        reckoned.set(axes, order)?;
        print!(rt; "{axes:>4} {order:>5}")?;
        time(&rt, &table, rounds)?;
        time(&rt, &reckoned, rounds)?;
        println!(rt; "")?;
    }
    Ok(())
}

// Prints the nanoseconds for a cell and for a key.
fn time<N: Numbering>(rt: &(impl Print + Clock), numbering: &N, rounds: u64) -> anyhow::Result<()> {
    let start = Instant::now(rt)?;
    let cells = cells(numbering, rounds)?;
    let cell_time = per_round(start.elapsed(rt)?, rounds);
    let start = Instant::now(rt)?;
    let keys = keys(numbering, rounds)?;
    let key_time = per_round(start.elapsed(rt)?, rounds).saturating_sub(cell_time);
    // What was reckoned is looked at, though it is never so, that no call is left out by the compiler.
    if cells == u64::from(u32::MAX) && keys != 0 {
        print!(rt; "?")?;
    }
    Ok(print!(rt; "  {cell_time:>12} {key_time:>5}")?)
}

fn per_round(time: Duration, rounds: u64) -> u128 {
    time.as_nanos() / u128::from(rounds.max(1))
}

// A key for each round, spread over all of them. The tests of `tables` have it too: a crate for one line is more to read.
fn spread(round: u64, size: u64) -> u64 {
    round.wrapping_mul(0x9e37_79b9_7f4a_7c15) % size.max(1)
}

fn cells<N: Numbering>(numbering: &N, rounds: u64) -> Result<u64, Refusal> {
    over_keys(numbering, rounds, |key, cell| {
        numbering.cell_of(key, cell)?;
        Ok(cell.first().copied().map_or(0, u64::from))
    })
}

// Each key's cell, and its key again: 0, where each is the key that it was.
fn keys<N: Numbering>(numbering: &N, rounds: u64) -> Result<u64, Refusal> {
    over_keys(numbering, rounds, |key, cell| {
        numbering.cell_of(key, cell)?;
        Ok(numbering.key_of(cell)? ^ key)
    })
}

// What a closure makes of a key for each round, all bits together. It is lent a list for a cell, at the
// front of an array, which is no longer here than a Vec would be.
fn over_keys<N, F>(numbering: &N, rounds: u64, mut made: F) -> Result<u64, Refusal>
where
    N: Numbering,
    F: FnMut(u64, &mut [u32]) -> Result<u64, Refusal>,
    requires { F.IsAlwaysCallable made }
{
    let mut places = [0u32; 8];
    let cell = &mut places[0..numbering.axes() as usize];
    let size = numbering.grid().size();
    let mut bits = 0;
    for round in 0..rounds {
        bits |= made(spread(round, size), cell)?;
    }
    Ok(bits)
}
