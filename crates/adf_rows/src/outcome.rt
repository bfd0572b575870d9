// How library calls end.

/// How a call ended.
#[derive(Clone, Copy)]
pub enum CallOutcome {
    /// It answered as it should.
    Done,
    /// Memory was refused, and nothing has changed.
    NoMemory,
    /// It answered something else, or a refusal has changed something.
    Failed,
}

impl CallOutcome {
    /// This outcome if all is as it should be.
    pub fn only_if(self, is_right: bool) -> CallOutcome {
        if is_right { self } else { CallOutcome::Failed }
    }
}
