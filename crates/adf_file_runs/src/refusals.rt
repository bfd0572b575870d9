// What is said of a file that is not opened or not replaced.

ghost use Rattle.std.specs.Prelude.{◌≡◌, false};

use crate::changes::Unwritten;
use crate::files::Unopened;
use adf_names::push_escaped;
use adf_runs::{Sink, say};
use std::alloc::{AllocError, Global};

// A line of a file: its name, escaped, and why.
fn line_of(alloc: Global, name: &str, why: &str) -> Result<Vec<u8>, AllocError> {
    let mut line = Vec::new(alloc);
    push_escaped(&mut line, name.as_bytes())?;
    line.extend_from_slice(why.as_bytes())?;
    Ok(line)
}

// Says on errors the line of a file.
fn say_of<E: Sink>(alloc: Global, name: &str, why: &str, errors: &mut E)
    requires { E.has_failed errors.old ≡ false }
{
    match line_of(alloc, name, why) {
        Ok(line) => say(errors, &line),
        Err(_) => say(errors, b"no memory\n"),
    }
}

/// Says on errors why a file is not opened, and returns the status.
pub fn refuse_file<E: Sink>(alloc: Global, name: &str, why: Unopened, errors: &mut E) -> u8
    requires { E.has_failed errors.old ≡ false }
    ensures { result ≡ 3 }
{
    let text = match why {
        Unopened::Other => ": cannot be opened\n",
        _ => why.text(),
    };
    say_of(alloc, name, text, errors);
    3
}

/// Says on errors why a file is not replaced, and returns the status.
pub fn refuse_change<E: Sink>(alloc: Global, name: &str, why: Unwritten, errors: &mut E) -> u8
    requires { E.has_failed errors.old ≡ false }
    ensures { result ≡ 3 }
{
    say_of(alloc, name, why.text(), errors);
    3
}
