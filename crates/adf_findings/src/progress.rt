// The progress of a survey.

ghost use Rattle.std.specs.Prelude.{◌≡◌, ◌∷◌, ◌++◌, [], OnOk, map};
ghost use Rattle.adf_findings.specs.Parts.{finding_value};

use crate::finding::Finding;
use crate::found::Found;
use adf_base::NoMemory;

/// The progress of a survey: what is found, and the findings noted.
#[derive(Drop)]
pub struct Progress {
    pub found: Found,
    pub findings: Vec<Finding>,
}

/// Notes a finding.
#[inline(never)]
pub fn note(findings: &mut Vec<Finding>, finding: Finding) -> Result<(), NoMemory>
    ensures { OnOk result (map finding_value findings.new.items
        ≡ map finding_value findings.old.items ++ finding_value finding ∷ []) }
{
    findings.push(finding)?;
    Ok(())
}
