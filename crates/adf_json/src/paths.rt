// The bytes of paths.

ghost use Rattle.std.specs.Prelude.{◌≡◌, ◌++◌, ◌∷◌, [], IfOk, OnOk, if◌then◌else◌, map};
ghost use Rattle.std.specs.List.{join_with_byte};

use std::alloc::{AllocError, Global};

// Appends a name of a path, after a `/` unless it is the first.
fn push_name(text: &mut Vec<u8>, name: &[u8], is_first: bool) -> Result<(), AllocError>
    ensures { OnOk result (text.new.items ≡ text.old.items ++ ((if is_first then [] else 47 ∷ []) ++ name.now)) }
{
    if !is_first {
        text.push(b'/')?;
    }
    text.extend_from_slice(name)
}

/// The names of a path, joined by `/`.
pub fn joined(alloc: Global, path: &[&[u8]]) -> Result<Vec<u8>, AllocError>
    ensures { IfOk result (λ text. text.items ≡ join_with_byte 47 (map (λ name. name.now) path.now)) }
{
    let mut text = Vec::new(alloc);
    for (i, name) in path.iter().enumerate() {
        push_name(&mut text, name, i == 0)?;
    }
    Ok(text)
}
