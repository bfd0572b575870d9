// Runs of findings.

use adf_base::NoMemory;
use adf_blocks::Cause;
use adf_findings::{Concern, Finding, Survey};
use adf_tree::Node;
use std::alloc::Global;

// What findings concern, by the number of its node.
#[derive(Clone, Copy, Debug, PartialEq, Eq)]
enum Matter {
    Nothing,
    Entry(u32),
    Within(u32),
}

/// Findings of neighbouring blocks, with one cause, that concern the same or nothing, and whose blocks one entry has or none.
#[derive(Clone, Copy, Debug, PartialEq, Eq)]
pub struct Run {
    pub first: u32,
    pub last: u32,
    pub cause: Cause,
    matter: Matter,
    owner: Option<usize>,
}

impl Matter {
    fn of(concern: Option<Concern>) -> Matter {
        match concern {
            Some(Concern::Entry(n)) => Matter::Entry(n),
            Some(Concern::Within(n)) => Matter::Within(n),
            None => Matter::Nothing,
        }
    }
}

impl Run {
    // A finding by itself, with what it concerns and the entry that has its block.
    fn of(finding: &Finding, concern: Option<Concern>, owner: Option<Node>) -> Run {
        Run {
            first: finding.block,
            last: finding.block,
            cause: finding.cause,
            matter: Matter::of(concern),
            owner: owner.map(|n| n.0),
        }
    }

    /// What the findings concern, if anything.
    pub fn concern(&self) -> Option<Concern> {
        match self.matter {
            Matter::Nothing => None,
            Matter::Entry(n) => Some(Concern::Entry(n)),
            Matter::Within(n) => Some(Concern::Within(n)),
        }
    }

    /// The entry that has the blocks, if one has them.
    pub fn owner(&self) -> Option<Node> {
        self.owner.map(|n| Node(n))
    }

    // Whether the block is the one after the run, or the run's only one.
    fn is_beside(&self, block: u32) -> bool {
        let is_next = block != 0 && block - 1 == self.last;
        is_next || (self.first == block && self.last == block)
    }

    // Whether the run goes on with another, of one finding: the cause, what is concerned and the owner are the same, and
    // the block is the one after the run, or the run's only one.
    fn continues(&self, next: &Run) -> bool {
        self.cause.number() == next.cause.number()
            && self.matter == next.matter
            && self.owner == next.owner
            && self.is_beside(next.first)
    }
}

// Finding `k` of a survey, counted from 0, as a run of one block; `None` past the last.
fn run_at(survey: &Survey<'_>, k: usize) -> Option<Run> {
    let finding = survey.findings().get(k)?;
    Some(Run::of(finding, survey.concern_of(k), survey.owner_of(k)))
}

/// The runs of the findings of a survey, in order. `NoMemory` if an allocation fails.
pub fn runs_of(alloc: Global, survey: &Survey<'_>) -> Result<Vec<Run>, NoMemory> {
    let mut runs = Vec::new(alloc);
    let Some(mut run) = run_at(survey, 0) else {
        return Ok(runs);
    };
    for k in 1..survey.findings().len() {
        let Some(next) = run_at(survey, k) else {
            break;
        };
        if run.continues(&next) {
            run.last = next.last;
        } else {
            runs.push(run)?;
            run = next;
        }
    }
    runs.push(run)?;
    Ok(runs)
}
