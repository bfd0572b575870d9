//! Names, labels, comments, paths and metadata of Amiga volumes.
#![tactic(auto)]

mod digits;
mod escapes;
mod kind;
mod meta;
mod name;
mod path_texts;
mod short_text;
mod volume_type;
mod written;

pub use crate::digits::{push_hex, push_number, push_right};
pub use crate::escapes::{digit_value, hex_digit, is_plain, spellings_decide};
pub use crate::kind::Kind;
pub use crate::meta::{Meta, NO_STAMPS, Stamps};
pub use crate::name::Name;
pub use crate::path_texts::{PathFault, path_or_none, path_texts_decide, read_path, write_path};
pub use crate::short_text::{Comment, Label, ShortText};
pub use crate::volume_type::{
    kind_named_by, kind_text_by, kind_texts_decide, letters_of_type, type_number,
};
pub use crate::written::{push_escaped, push_names, push_path, valid_names_are_alike};
