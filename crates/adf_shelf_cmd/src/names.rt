// The names of images, one after another.

ghost use Rattle.std.specs.Prelude.{◌≡◌, ◌<◌, Bool, ℕ, IfOk, List, Ok, Option, Some, false, length, option_map, true};
ghost use Rattle.std.specs.Io.BufRead.{strip_last};
ghost use Rattle.adf_words.specs.CommandLine.{texts_of};
ghost use Rattle.adf_runs.specs.Streams.{is_device};
ghost use Rattle.adf_shelf_cmd.specs.Names.{GivesName, listed_names};

use adf_runs::StreamFault;
use std::io::{BufRead, ErrorKind};

/// Names, one after another.
pub trait Names {
    /// The names that it will give, if they are known.
    ghost left: { Self → Option (List (List ℕ)) };

    /// It gives at most so many.
    ghost most: { Self → ℕ };

    /// Whether the last one could not be read.
    ghost has_failed: { Self → Bool };

    /// Puts the next name in place of another one, and returns whether there was one. `Device` if the
    /// names cannot be read, `NoMemory` if an allocation failed.
    fn next(&mut self, name: &mut Vec<u8>) -> Result<bool, StreamFault>
        ensures gives { IfOk result (λ more.
            GivesName more (left self.old) (left self.new) name.new.items) }
        ensures fewer { result ≡ Ok true → most self.new < most self.old }
        ensures failed { has_failed self.new ≡ is_device result };
}

/// Names that are words of a command line.
#[derive(Drop)]
pub struct WordNames<'a> {
    words: &'a [&'a str],
}

impl<'a> WordNames<'a> {
    /// These words.
    pub fn new(words: &'a [&'a str]) -> WordNames<'a>
        ensures { result.words.now ≡ words.entry.now }
    {
        WordNames { words }
    }
}

impl Names for WordNames<'_> {
    ghost left = { λ n. Some (texts_of n.words.now) };

    ghost most = { λ n. length n.words.now };

    // words are in memory
    ghost has_failed = { λ _. false };

    fn next(&mut self, name: &mut Vec<u8>) -> Result<bool, StreamFault> {
        if self.words.is_empty() {
            return Ok(false);
        }
        name.clear();
        name.extend_from_slice(self.words[0].as_bytes())?;
        self.words = &self.words[1..];
        Ok(true)
    }
}

/// The names in a text. The same byte ends each of them; the last one may lack it.
#[derive(Drop)]
pub struct TextNames<B> {
    pub text: B,
    /// The byte that ends a name.
    pub end: u8,
    /// Whether the last one could not be read.
    pub failed: bool,
    // no run uses them up
    turns: u64,
}

impl<B> TextNames<B> {
    /// The names in a text.
    pub fn new(text: B, end: u8) -> TextNames<B>
        ensures text { result.text ≡ text }
        ensures end { result.end ≡ end }
        ensures failed { result.failed ≡ false }
    {
        TextNames {
            text,
            end,
            failed: false,
            turns: u64::MAX,
        }
    }
}

// Takes the byte that ends a name off it.
fn strip_end(name: &mut Vec<u8>, end: u8)
    ensures { name.new.items ≡ strip_last end name.old.items }
{
    let len = name.len();
    if len > 0 && name[len - 1] == end {
        name.truncate(len - 1);
    }
}

impl<B: BufRead> Names for TextNames<B> {
    ghost left = { λ l. option_map (listed_names l.end) (B.remaining l.text) };

    ghost most = { λ l. l.turns };

    ghost has_failed = { λ l. l.failed };

    fn next(&mut self, name: &mut Vec<u8>) -> Result<bool, StreamFault> {
        self.failed = self.turns == 0;
        if self.failed {
            return Err(StreamFault::Device);
        }
        self.turns -= 1;
        name.clear();
        match self.text.read_until(self.end, name) {
            Ok(count) => {
                if count == 0 {
                    return Ok(false);
                }
                strip_end(name, self.end);
                Ok(true)
            }
            Err(error) => match error.kind() {
                ErrorKind::OutOfMemory => Err(StreamFault::NoMemory),
                _ => {
                    self.failed = true;
                    Err(StreamFault::Device)
                }
            },
        }
    }
}
