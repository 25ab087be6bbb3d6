//! Makes as many steps as the first argument says, of a table that standard input holds, and prints where they led.

#![tactic(auto)]

use anyhow::{Context, anyhow};
use plain::run::Run;
use std::env;
use std::io::Read;
use table::view::Table;

fn mixed(sum: u64, byte: Option<u8>) -> u64 {
    sum.wrapping_mul(31).wrapping_add(byte.unwrap_or(0) as u64)
}

/// A number that depends on every word and on the registers of threads 0 and 1.
fn checksum(run: &Run) -> u64 {
    (0..82).fold(0, |sum, i| {
        let bytes = [run.word(i), run.register(0, i), run.register(1, i)];
        bytes.into_iter().fold(sum, mixed)
    })
}

/// Where steps of threads 0 and 1 in turn lead; none where one is refused.
fn turns(table: Table, count: u64) -> Option<u64> {
    let mut run = Run::of(table);
    // The number of a turn says whose it is.
    for turn in 0..count {
        run.step((turn % 2) as u8, 0).ok()?;
    }
    Some(checksum(&run))
}

fn main(rt: HostRuntime) -> anyhow::Result<()> {
    let count = env::args(&rt)?
        .nth(1)
        .context("no count of steps")?
        .parse::<u64>()?;
    let mut bytes = Vec::new(rt.alloc());
    rt.stdin().read_to_end(&mut bytes)?;
    let table = Table::read(&bytes).map_err(|_| anyhow!("no table"))?;
    let sum = turns(table, count).context("a step was refused")?;
    println!(rt; "{sum}")?;
    Ok(())
}
