// Replays a list of encodings, and says where the library answers otherwise than the list. A line is a record's name, its bytes
// in hex (`-` for none) and the answer: `ok`, or the number, letter and place of the refusal. The list comes from the standard
// input, or from the file that the first argument names; tools/exchange/make.py makes one.
#![tactic(auto)]

use crate::kind::Kind;
use crate::line::Line;
use crate::tally::Tally;
use std::collections::BTreeMap;
use std::{env, fs, io};

mod kind;
mod line;
mod tally;

// Goes through the list, and tells the first difference.
fn replay(rt: &HostRuntime, text: &str, out: &mut [u8]) -> anyhow::Result<BTreeMap<Kind, Tally>> {
    let heap = rt.alloc();
    let mut tallies = BTreeMap::new(heap);
    let mut told = false;
    for line in text.lines() {
        let Some(parsed) = Line::parse(heap, line)? else {
            println!(rt; "not a line of the list: {line}")?;
            continue;
        };
        let verdict = parsed.judge(heap, out)?;
        tallies
            .entry(verdict.kind)?
            .or_insert(Tally::default())
            .count(&verdict);
        if let Some(said) = verdict.other
            && !told
        {
            println!(rt; "first difference: {line}: here {said}")?;
            told = true;
        }
    }
    Ok(tallies)
}

fn print(rt: &HostRuntime, tallies: &BTreeMap<Kind, Tally>) -> anyhow::Result<()> {
    for kind in Kind::ALL {
        let tally = tallies.get(&kind).copied().unwrap_or_default();
        let largest = kind.largest();
        println!(rt; "{kind}: {tally} of {largest} bytes")?;
    }
    Ok(())
}

// `replay` takes its list the same way. A library function for it could promise nothing.
fn run(rt: &HostRuntime) -> anyhow::Result<()> {
    let mut args = env::args(rt)?;
    let _program = args.next();
    let text = match args.next() {
        Some(path) => fs::read_to_string(rt, path.as_str())?,
        None => io::read_to_string(rt.alloc(), rt.stdin())?,
    };
    let mut out = [0; 8192];
    let tallies = replay(rt, text.as_str(), &mut out)?;
    print(rt, &tallies)
}

fn main(rt: HostRuntime) -> anyhow::Result<()> {
    run(&rt)
}
