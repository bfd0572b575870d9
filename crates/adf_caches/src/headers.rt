// The entries of a survey by the blocks of their headers.

ghost use Rattle.std.specs.Prelude.{◌≡◌};
ghost use Rattle.adf_findings.specs.Survey.{OnSurvey};
ghost use Rattle.adf_caches.specs.Entries.{headed_at, if_headed};

use adf_findings::Survey;
use adf_tree::Node;

// The entry, if its header is in block `b`.
fn if_headed(survey: &Survey<'_>, b: u32, n: Node) -> Option<Node>
    ensures { OnSurvey survey.now.image (λ w _. result ≡ if_headed w b n) }
{
    match survey.block_of(n) {
        Some(block) if block == b => Some(n),
        _ => None,
    }
}

// The entry with its header in block `b`.
pub fn headed_at(survey: &Survey<'_>, b: u32) -> Option<Node>
    ensures { OnSurvey survey.now.image (λ w _. result ≡ headed_at w b) }
{
    match survey.entry_at(b) {
        Some(n) => if_headed(survey, b, n),
        None => None,
    }
}
