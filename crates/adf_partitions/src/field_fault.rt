// What is wrong with the fields of a partition that do not move its place.

ghost use Rattle.std.specs.Prelude.{◌≡◌};
ghost use Rattle.adf_partitions.specs.FaultTexts.{field_fault_number, field_fault_text};

use std::error::Error;
use std::fmt;

/// What is wrong with the fields of a partition beside its place. The tests run in the order given.
#[derive(Clone, Copy, Debug, PartialEq, Eq)]
pub enum FieldFault {
    /// The environment has fewer than 16 words, so that it lacks the type: word 32.
    ShortEnvironment = 1,
    /// A block of the file system has not 128 words, or not one sector: words 33 and 36.
    OtherBlocks = 2,
    /// The drive's name is empty, longer than 31 bytes, or has `/` or `:`.
    BadName = 7,
}

impl FieldFault {
    /// The number of the fault: 1, 2 or 7, none of which is that of a `PlaceFault`.
    pub fn number(self) -> u8
        ensures { result ≡ field_fault_number self }
    {
        self as u8
    }

    /// The text of the fault as printed, in lower case.
    pub fn text(self) -> &'static str
        ensures { result.now ≡ field_fault_text self }
    {
        match self {
            FieldFault::ShortEnvironment => "short environment",
            FieldFault::OtherBlocks => "other block size",
            FieldFault::BadName => "bad name",
        }
    }
}

impl fmt::Display for FieldFault {
    ghost use Rattle.std.specs.Prelude.{Some};
    ghost use Rattle.adf_partitions.specs.FaultTexts.{field_fault_text};

    ghost output = { λ x. Some (field_fault_text x) };

    fn fmt<W: fmt::Write>(&self, f: &mut fmt::Formatter<W>) -> fmt::Result {
        f.write_str(self.text())
    }
}

impl Error for FieldFault {}
