// Runs the vectors of the file vectors.txt through the public calls of `ciphers`, and prints a line for each.
#![tactic(auto)]

use crate::vector::Vector;
use anyhow::ensure;
use std::fs;

mod failure;
mod run;
mod vector;

fn is_vector(line: &str) -> bool {
    !line.is_empty() && !line.starts_with('#')
}

fn run_all(rt: &HostRuntime) -> anyhow::Result<()> {
    let text = fs::read_to_string(rt, "vectors.txt")?;
    let mut all = 0u32;
    let mut good = 0u32;
    for line in text.lines().filter(|line| is_vector(line)) {
        let vector = match Vector::parse(rt.alloc(), line) {
            Ok(vector) => vector,
            Err(error) => {
                eprintln!(rt; "in the line: {line}")?;
                return Err(error);
            }
        };
        let name = vector.name;
        all = all.saturating_add(1);
        match vector.run(rt.alloc()) {
            Ok(()) => {
                good = good.saturating_add(1);
                println!(rt; "{name}: ok")?;
            }
            Err(failure) => println!(rt; "{name}: FAILED, {failure}")?,
        }
    }
    println!(rt; "{good} of {all} vectors ok")?;
    ensure!(all > 0, "the file has no vector");
    ensure!(good == all, "a vector failed");
    Ok(())
}

fn main(rt: HostRuntime) -> anyhow::Result<()> {
    run_all(&rt)
}
