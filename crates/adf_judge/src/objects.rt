// What the secondary type of a header says.

use crate::judgement::Object;
use adf_blocks::{ST_DIR, ST_FILE, ST_LINK_DIR, ST_LINK_FILE, ST_SOFT_LINK};

/// What a header of this secondary type is of; `None` if no header has it.
pub(crate) fn object_of(secondary_type: u32) -> Option<Object> {
    match secondary_type {
        ST_DIR => Some(Object::Directory),
        ST_FILE => Some(Object::File),
        ST_SOFT_LINK => Some(Object::SoftLink),
        ST_LINK_DIR => Some(Object::DirectoryLink),
        ST_LINK_FILE => Some(Object::FileLink),
        _ => None,
    }
}

/// Whether it is a link.
pub(crate) fn is_link(object: Object) -> bool {
    matches!(
        object,
        Object::SoftLink | Object::DirectoryLink | Object::FileLink
    )
}
