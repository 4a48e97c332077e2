// What has been seen of one kind of record.
use crate::line::Verdict;
use std::fmt;

#[derive(Clone, Copy, Default)]
pub struct Tally {
    accepted: u64,
    refused: u64,
    differ: u64,
    longest: usize,
}

impl Tally {
    pub fn count(&mut self, verdict: &Verdict) {
        match verdict.accepted {
            Some(length) => {
                self.accepted = self.accepted.saturating_add(1);
                self.longest = self.longest.max(length);
            }
            None => self.refused = self.refused.saturating_add(1),
        }
        if verdict.other.is_some() {
            self.differ = self.differ.saturating_add(1);
        }
    }
}

impl fmt::Display for Tally {
    fn fmt<W: fmt::Write>(&self, f: &mut fmt::Formatter<W>) -> fmt::Result {
        let Tally {
            accepted,
            refused,
            differ,
            longest,
        } = *self;
        write!(
            f,
            "{accepted} accepted, {refused} refused, {differ} differ; the longest {longest}"
        )
    }
}
