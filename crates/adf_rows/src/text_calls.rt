// Library calls on texts that no command makes.

use crate::outcome::CallOutcome;
use adf_fields::{CIVIL_DAYS, NoMemory, Stamp, stamp_text};
use adf_tree::{Comment, Label};
use std::alloc::Global;

/// Dates, and their texts: the first three are days of the calendar.
const DATES: [(u32, u32, u32, &str); 6] = [
    (8035, 0, 0, "2000-01-01 00:00:00.00"),
    (0, 1439, 2999, "1978-01-01 23:59:59.49"),
    (CIVIL_DAYS - 1, 0, 0, "9999-12-31 00:00:00.00"),
    (CIVIL_DAYS, 0, 0, "2929975:0:0"),
    (0, 1440, 0, "0:1440:0"),
    (0, 0, 3000, "0:0:3000"),
];

/// What a text is before a call appends to it.
const BEFORE: &str = "as ";

/// Dates behind a text.
pub fn stamp_text_outcome(alloc: Global) -> Option<CallOutcome> {
    let mut text = String::from_str(alloc, BEFORE).ok()?;
    for (days, mins, ticks, wanted) in DATES {
        let before = text.len();
        if stamp_text(Stamp { days, mins, ticks }, &mut text).is_err() {
            return Some(CallOutcome::NoMemory.only_if(text.len() == before));
        }
        if text.as_bytes().get(before..) != Some(wanted.as_bytes()) {
            return Some(CallOutcome::Failed);
        }
    }
    Some(CallOutcome::Done)
}

// The outcome of appending a backslash in the escape form.
fn appended(res: Result<(), NoMemory>, text: &str) -> CallOutcome {
    match res {
        Ok(()) => CallOutcome::Done.only_if(text == "as a\\x5c"),
        Err(_) => CallOutcome::NoMemory.only_if(text == BEFORE),
    }
}

/// A label with a backslash.
pub fn label_write_outcome(alloc: Global) -> Option<CallOutcome> {
    let mut text = String::from_str(alloc, BEFORE).ok()?;
    let res = Label::read(b"a\\x5c")?.write(&mut text);
    Some(appended(res, text.as_str()))
}

/// A comment with a backslash.
pub fn comment_write_outcome(alloc: Global) -> Option<CallOutcome> {
    let mut text = String::from_str(alloc, BEFORE).ok()?;
    let res = Comment::read(b"a\\x5c")?.write(&mut text);
    Some(appended(res, text.as_str()))
}
