// The list: pairs of lines, a command and the answer that tink-core gave. Blank lines and lines that begin with `#` are
// passed over.
use anyhow::ensure;
use std::alloc::Global;

#[derive(Clone, Copy)]
pub struct Pair<'a> {
    // The command's line in the list, from 1.
    pub line: usize,
    pub command: &'a str,
    pub answer: &'a str,
}

impl Pair<'_> {
    pub fn begins_case(&self) -> bool {
        self.command.starts_with("case ")
    }

    // Whether it registers the type of public halves of chip keys.
    pub fn registers_chips(&self) -> bool {
        self.command == "register junction/chip-public"
    }
}

fn is_passed_over(line: &str) -> bool {
    line.is_empty() || line.starts_with('#')
}

// The pairs are made as the lines are read, with no list of the lines beside them.
pub fn pairs(heap: Global, text: &str) -> anyhow::Result<Vec<Pair<'_>>> {
    let lines = text
        .lines()
        .enumerate()
        .filter(|(_, line)| !is_passed_over(line));
    let mut pairs = Vec::new(heap);
    let mut waiting = None;
    for (i, line) in lines {
        match waiting.take() {
            None => waiting = Some((i, line)),
            Some((i, command)) => pairs.push(Pair {
                line: i.saturating_add(1),
                command,
                answer: line,
            })?,
        }
    }
    ensure!(waiting.is_none(), "the last command has no answer");
    Ok(pairs)
}
