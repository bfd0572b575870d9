// What findings concern.

ghost use Rattle.std.specs.Prelude.{◌≡◌};
ghost use Rattle.adf_findings.specs.Concerned.{node_of};

/// What a finding concerns, by the number of its node.
#[derive(Clone, Copy, Debug, PartialEq, Eq)]
pub enum Concern {
    /// An entry: that of a header that is found, or the file of an extension or data block.
    Entry(u32),
    /// A directory, 0 for the root, in which a header was skipped: what it leads to is not found.
    Within(u32),
}

impl Concern {
    /// The number of the entry or the directory.
    pub fn node(self) -> u32
        ensures { result ≡ node_of self }
    {
        match self {
            Concern::Entry(n) | Concern::Within(n) => n,
        }
    }
}
