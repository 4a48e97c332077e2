// Goes through the cases of a list.
use crate::answer::Answer;
use crate::bench::Bench;
use crate::kind::Kind;
use crate::list::Pair;
use crate::script::Command;
use crate::stop::Stop;
use crate::tally::Tally;
use anyhow::{Context, anyhow, ensure};
use keysets::registry::Place;
use keysets::registry::chip_public::ChipPublic;
use keysets::registry::cmac128::Cmac128;
use std::alloc::Global;

fn carry_out<M: Kind>(bench: &mut Bench<M>, pair: Pair) -> Result<Answer, Stop> {
    if pair.answer.starts_with("error") || pair.answer.starts_with("refused ?") {
        return Err(Stop::Failed(anyhow!("the list has no answer to the command")));
    }
    bench.run(Command::parse(pair.command)?, pair.answer)
}

// An error, with the line where it arose.
fn in_line(line: usize, error: anyhow::Error) -> anyhow::Error {
    anyhow!("line {line}: {error}")
}

// Carries a call out and counts what came of it: whether the library's state still is tink-core's.
fn call<M: Kind>(
    bench: &mut Bench<M>,
    tally: &mut Tally,
    case: &str,
    pair: Pair,
) -> anyhow::Result<bool> {
    match carry_out(bench, pair) {
        Ok(answer) => tally.compare(case, pair, &Ok(answer))?,
        Err(Stop::Refused(fault)) => tally.compare(case, pair, &Err(fault))?,
        Err(Stop::LeftOut) => tally.leave_out(pair)?,
        Err(Stop::Lost) => {
            tally.leave_out(pair)?;
            return Ok(false);
        }
        Err(Stop::Failed(error)) => return Err(in_line(pair.line, error)),
    }
    Ok(true)
}

fn calls<M: Kind>(
    heap: Global,
    bank: &mut [Place<M>],
    tally: &mut Tally,
    case: &str,
    pairs: &[Pair],
) -> anyhow::Result<()> {
    let mut bench = Bench::new(heap, bank);
    let mut follows = true;
    for pair in pairs {
        if follows {
            follows = call(&mut bench, tally, case, *pair)?;
        } else {
            tally.lose();
        }
    }
    Ok(())
}

// The name of the case that a pair begins.
fn case_name<'a>(pair: Pair<'a>) -> anyhow::Result<&'a str> {
    let name = pair
        .command
        .strip_prefix("case ")
        .context("the list does not begin with a case")?;
    ensure!(
        pair.answer == pair.command,
        "a case is not answered by itself: the pairs are out of step"
    );
    Ok(name)
}

fn case(heap: Global, tally: &mut Tally, pairs: &[Pair]) -> anyhow::Result<()> {
    let [first, rest @ ..] = pairs else {
        return Ok(());
    };
    let name = case_name(*first).map_err(|error| in_line(first.line, error))?;
    tally.begin();
    if rest.iter().any(|pair| pair.registers_chips()) {
        calls(heap, &mut [Place::new(ChipPublic)], tally, name, rest)
    } else {
        calls(heap, &mut [Place::new(Cmac128)], tally, name, rest)
    }
}

pub fn cases(heap: Global, pairs: &[Pair]) -> anyhow::Result<Tally> {
    let mut tally = Tally::new(heap);
    for pairs in pairs.chunk_by(|_, next| !next.begins_case()) {
        case(heap, &mut tally, pairs)?;
    }
    Ok(tally)
}
