// The laws of answers. Each is the contract of a function that does nothing at run time.

ghost use Rattle.std.specs.Prelude.{◌≡◌, ◌≢◌, ◌*◌, ◌<◌, ◌≤◌, None, ℕ, Bool, List, [], Option, false, length, true};
ghost use Rattle.std.specs.List.{All};
ghost use Rattle.adf_base.specs.declared.hash.Letters.TheVariants.{Ascii};
ghost use Rattle.adf_tree.specs.Tree.{Tree};
ghost use Rattle.adf_volume.specs.{Fits.FitsBy, Layout.Layout};
ghost use Rattle.adf_blocks.specs.declared.layout.TheConstants.{MOST_BLOCKS};
ghost use Rattle.adf_boot_blocks.specs.{BootBlocks.begins_with_dos, Writing.HasBootOf, declared.boot.TheConstants.BOOT_LEN};
ghost use Rattle.adf_runs.specs.Commands.{Reply};
ghost use Rattle.adf_survey_cmd.specs.{Answers.SurveyAnswer, CommandLine.asked_beside, CommandLine.InquiryValue, CommandLine.report, CommandLine.rescue};
ghost use Rattle.adf_survey_cmd.specs.declared.command_line.RescueWish.{RescueWish};

use adf_findings::no_finding;

/// Of an input with status 0 nothing is told, and it is a volume of type 0 or 1.
pub fn clean_reports()
    ensures silent { (map_blank : InquiryValue) (json : Bool) (input : List ℕ) (reply : Reply)
        → SurveyAnswer (record map_blank { question = report false json }) input reply → reply.status ≡ 0
        → (reply.output ≡ []) × (reply.errors ≡ []) }
    ensures fits { (list json : Bool) (input : List ℕ) (reply : Reply)
        → SurveyAnswer (asked_beside None false None (report list json)) input reply → length input ≤ 512 * MOST_BLOCKS
        → reply.status ≡ 0 → (t : Tree) × (l : Layout) × FitsBy Ascii input t l }
{
    no_finding();
}

/// What a rescue without links writes is a volume that fits a tree. It has the boot blocks of an input that begins with `DOS`: the
/// bytes behind the checksum, the checksum unless it is right for another type, and it is bootable if the input is.
pub fn rescued_volumes()
    ensures fits { (r : InquiryValue) (wish : RescueWish) (input : List ℕ) (reply : Reply)
        → SurveyAnswer (record r { question = rescue wish }) input reply → wish.with_links ≡ false → reply.output ≢ []
        → (t : Tree) × (l : Layout) × FitsBy t.letters reply.output t l }
    ensures boot { (r : InquiryValue) (wish : RescueWish) (input : List ℕ) (reply : Reply)
        → SurveyAnswer (record r { question = rescue wish }) input reply → wish.with_links ≡ false → reply.output ≢ []
        → length input ≤ 512 * MOST_BLOCKS → BOOT_LEN ≤ length input → All (λ byte. byte < 256) input
        → begins_with_dos input ≡ true → HasBootOf input reply.output }
{}
