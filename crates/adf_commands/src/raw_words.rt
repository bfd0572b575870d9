// Arguments as bytes, of which some are no UTF-8.

use adf_runs::Outcome;
use std::alloc::{AllocError, Global};
use std::env::FillError;
use std::rt::Env;
use std::str;

/// The most bytes of one argument that Linux passes on.
const MOST_BYTES: usize = 131072;

/// The bytes of each argument; the first one is the program's name.
pub fn raw_words(system: &(impl Env + Alloc<A = Global>)) -> Result<Vec<Vec<u8>>, Outcome> {
    let mut words = Vec::new(system.alloc());
    let mut buffer = Vec::new(system.alloc());
    buffer.resize(MOST_BYTES, 0)?;
    for i in 0..usize::MAX {
        match system.arg(i, &mut buffer) {
            Ok(len) => {
                let word = Vec::from_slice(system.alloc(), &buffer[..len])?;
                if words.push(word).is_err() {
                    return Err(Outcome::NoMemory);
                }
            }
            Err(FillError::NotPresent) => break,
            Err(FillError::TooLong) => return Err(Outcome::NoMemory),
        }
    }
    Ok(words)
}

/// The arguments as texts, with `x` in place of each that is no UTF-8.
pub fn stand_ins(alloc: Global, words: &[Vec<u8>]) -> Result<Vec<&str>, AllocError> {
    words
        .iter()
        .map(|word| str::from_utf8(word).unwrap_or("x"))
        .collect(alloc)
}

// Whether an argument before `--` is an option.
fn is_option(text: &[u8]) -> bool {
    text == b"--null".as_slice() || text == b"--any-type".as_slice() || text == b"--json".as_slice()
}

/// The arguments that are names, each followed by a zero byte.
pub fn names_among(alloc: Global, words: &[Vec<u8>]) -> Result<Vec<u8>, AllocError> {
    let mut names = Vec::new(alloc);
    let mut options = true;
    for word in words.iter().skip(1) {
        let text = word.as_slice();
        if options && text == b"--".as_slice() {
            options = false;
        } else if !options || !is_option(text) {
            names.extend_from_slice(text)?;
            names.push(0)?;
        }
    }
    Ok(names)
}
