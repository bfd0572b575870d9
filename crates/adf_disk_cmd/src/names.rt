// Partitions by the names that `list` writes.

ghost use Rattle.std.specs.Prelude.{◌≡◌, IfOk, find, option_copied};
ghost use Rattle.adf_disk_cmd.specs.Answers.{is_called};

use adf_names::{push_escaped, push_names};
use adf_partitions::{Partition, are_same};
use std::alloc::{AllocError, Global};

// Whether a text is the name of a partition, as `list` writes it or in the escape form, ignoring the case of `a` to `z`.
fn is_called(alloc: Global, text: &[u8], partition: &Partition) -> Result<bool, AllocError>
    ensures { IfOk result (λ is. is ≡ is_called text.now partition.now) }
{
    let name = partition.name.bytes();
    let mut listed = Vec::new(alloc);
    push_names(&mut listed, &[name])?;
    let mut escaped = Vec::new(alloc);
    push_escaped(&mut escaped, name)?;
    Ok(are_same(&listed, text) || are_same(&escaped, text))
}

/// The first partition that a text is the name of; `None` if there is none.
pub fn partition_called<'a>(
    alloc: Global,
    text: &[u8],
    partitions: &'a [Partition],
) -> Result<Option<&'a Partition>, AllocError>
    ensures { IfOk result (λ found. option_copied found ≡ find (is_called text.now) partitions.now) }
{
    for partition in partitions {
        if is_called(alloc, text, partition)? {
            return Ok(Some(partition));
        }
    }
    Ok(None)
}
