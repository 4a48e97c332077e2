// What has been seen of the list.
use crate::answer::{Answer, Said};
use crate::list::Pair;
use crate::script::split;
use anyhow::ensure;
use ciphers::fault::Fault;
use std::alloc::{AllocError, Global};
use std::collections::BTreeMap;
use std::fmt;

#[derive(Drop)]
pub struct Tally {
    heap: Global,
    cases: u64,
    compared: u64,
    refused: u64,
    // The calls that are not carried out, by name.
    left_out: BTreeMap<String, u64>,
    // The calls of a case after one that is not carried out and changed the keyset.
    lost: u64,
    differences: u64,
    first: Option<Difference>,
}

#[derive(Drop)]
struct Difference {
    case: String,
    line: usize,
    command: String,
    theirs: String,
    ours: String,
}

impl Difference {
    fn new(heap: Global, case: &str, pair: Pair, ours: String) -> Result<Difference, AllocError> {
        Ok(Difference {
            case: String::from_str(heap, case)?,
            line: pair.line,
            command: String::from_str(heap, pair.command)?,
            theirs: String::from_str(heap, pair.answer)?,
            ours,
        })
    }
}

impl fmt::Display for Difference {
    fn fmt<W: fmt::Write>(&self, f: &mut fmt::Formatter<W>) -> fmt::Result {
        let Difference {
            case,
            line,
            command,
            theirs,
            ours,
        } = self;
        write!(
            f,
            "first difference: case {case}, line {line}\n  command   {command}\n  tink-core {theirs}\n  here      {ours}"
        )
    }
}

impl Tally {
    pub fn new(heap: Global) -> Tally {
        Tally {
            heap,
            cases: 0,
            compared: 0,
            refused: 0,
            left_out: BTreeMap::new(heap),
            lost: 0,
            differences: 0,
            first: None,
        }
    }

    // A case begins.
    pub fn begin(&mut self) {
        self.cases = self.cases.saturating_add(1);
    }

    pub fn leave_out(&mut self, pair: Pair) -> Result<(), AllocError> {
        let (name, _) = split(pair.command);
        let count = self
            .left_out
            .entry(String::from_str(self.heap, name)?)?
            .or_insert(0);
        *count = count.saturating_add(1);
        Ok(())
    }

    pub fn lose(&mut self) {
        self.lost = self.lost.saturating_add(1);
    }

    // Holds an answer to the list's.
    pub fn compare(
        &mut self,
        case: &str,
        pair: Pair,
        answer: &Result<Answer, Fault>,
    ) -> Result<(), AllocError> {
        let ours = format!(in self.heap; "{}", Said(answer))?;
        self.compared = self.compared.saturating_add(1);
        if answer.is_err() {
            self.refused = self.refused.saturating_add(1);
        }
        if ours.as_str() != pair.answer {
            self.differences = self.differences.saturating_add(1);
            if self.first.is_none() {
                self.first = Some(Difference::new(self.heap, case, pair, ours)?);
            }
        }
        Ok(())
    }

    fn print_left_out(&self, rt: &HostRuntime) -> anyhow::Result<()> {
        for (name, count) in self.left_out.iter() {
            println!(rt; "{count} calls of {name} left out")?;
        }
        println!(rt;
            "{} calls of the same case left out after one of these took effect",
            self.lost
        )?;
        Ok(())
    }

    pub fn print(&self, rt: &HostRuntime) -> anyhow::Result<()> {
        println!(rt; "{} cases", self.cases)?;
        println!(rt;
            "{} calls compared, {} of them refused",
            self.compared, self.refused
        )?;
        self.print_left_out(rt)?;
        println!(rt; "{} differences", self.differences)?;
        if let Some(first) = &self.first {
            println!(rt; "{first}")?;
        }
        Ok(())
    }

    // Fine where the list has a case and no answer differs.
    pub fn verdict(&self) -> anyhow::Result<()> {
        ensure!(self.cases > 0, "the list has no case");
        ensure!(
            self.differences == 0,
            "the library answers otherwise than tink-core"
        );
        Ok(())
    }
}
