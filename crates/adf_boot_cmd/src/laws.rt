// The law of answers: the contract of a function that does nothing at run time.

ghost use Rattle.std.specs.Prelude.{◌≡◌, ◌≢◌, ℕ, List};
ghost use Rattle.adf_tree.specs.Tree.{Tree};
ghost use Rattle.adf_volume.specs.{Fits.Fits, Layout.Layout};
ghost use Rattle.adf_boot_cmd.specs.Answers.{BootAnswer, Order, tell};
ghost use Rattle.adf_runs.specs.Commands.{Reply};

/// An image that is written has the tree and the layout of the image that it is made of.
pub fn trees_stay()
    ensures { (order : Order) (image : List ℕ) (reply : Reply) (t : Tree) (l : Layout) → order ≢ tell
        → BootAnswer order image reply → reply.status ≡ 0 → Fits image t l → Fits reply.output t l }
{}
