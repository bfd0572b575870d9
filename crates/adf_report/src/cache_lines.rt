// The lines of wrong directory caches, and their objects.

use crate::paths::entry_path;
use crate::remarks::push_blocks;
use adf_base::NoMemory;
use adf_caches::{directory_header, wrong_caches};
use adf_findings::Survey;
use adf_json::{Member, Value, push_object};
use adf_tree::Node;
use std::alloc::{AllocError, Global};

/// The directories whose cache is wrong, in order, of a volume with directory caches. `NoMemory` if an allocation fails.
pub fn directories_with_wrong_cache(
    alloc: Global,
    survey: &Survey<'_>,
) -> Result<Vec<Node>, NoMemory> {
    let wrong = wrong_caches(alloc, survey)?;
    let mut directories = Vec::new(alloc);
    for i in 0..wrong.len() {
        if wrong[i] {
            directories.push(Node(i))?;
        }
    }
    Ok(directories)
}

// Appends the line of the wrong cache of a directory with its header in a block.
fn push_line(text: &mut Vec<u8>, block: u32, path: &[u8]) -> Result<(), AllocError> {
    push_blocks(text, block, block, b':')?;
    text.extend_from_slice(b" wrong cache: ")?;
    text.extend_from_slice(path)?;
    text.extend_from_slice(b"/\n")
}

// The members of the object of the wrong cache of a directory with its header in a block.
fn cache_members<'a>(block: u32, path: &'a [u8]) -> [Member<'a>; 9] {
    [
        Member::text("line", "finding"),
        Member::number("first", block),
        Member::number("last", block),
        Member::text("cause", "wrong cache"),
        Member::bytes("path", path),
        Member::of("within", Value::Truth(false)),
        Member::of("owner", Value::Nothing),
        Member::of("target", Value::Nothing),
        Member::of("soft", Value::Nothing),
    ]
}

/// The line of the wrong cache of a directory, or with `json` its object.
pub fn wrong_cache_text(
    alloc: Global,
    survey: &Survey<'_>,
    directory: Node,
    json: bool,
) -> Result<Vec<u8>, AllocError> {
    let path = entry_path(alloc, survey, directory, json)?;
    let block = directory_header(survey, directory);
    let mut text = Vec::new(alloc);
    if json {
        push_object(&mut text, &cache_members(block, &path))?;
    } else {
        push_line(&mut text, block, &path)?;
    }
    Ok(text)
}
