// Replays a list of calls that tink-core has answered, and says where the library answers otherwise. The list comes from the
// standard input, or from the file that the first argument names; docs/replay.md has its form.
#![tactic(auto)]

use std::{env, fs, io};

mod answer;
mod bench;
mod kind;
mod list;
mod replay;
mod script;
mod stop;
mod tally;

// As `exchange` takes its list. A library function for it could promise nothing.
fn input(rt: &HostRuntime) -> anyhow::Result<String> {
    let mut args = env::args(rt)?;
    let _program = args.next();
    match args.next() {
        Some(path) => Ok(fs::read_to_string(rt, path.as_str())?),
        None => Ok(io::read_to_string(rt.alloc(), rt.stdin())?),
    }
}

fn run(rt: &HostRuntime) -> anyhow::Result<()> {
    let text = input(rt)?;
    let pairs = list::pairs(rt.alloc(), text.as_str())?;
    let tally = replay::cases(rt.alloc(), &pairs)?;
    tally.print(rt)?;
    tally.verdict()
}

fn main(rt: HostRuntime) -> anyhow::Result<()> {
    run(&rt)
}
