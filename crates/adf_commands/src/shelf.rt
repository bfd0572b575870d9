// `adf-shelf`, whose arguments may be no UTF-8, and which says nothing once nobody reads what it writes.

ghost use Rattle.std.specs.Prelude.{◌≡◌, false};

use crate::closed::{Errors, Output};
use crate::raw_words::{names_among, stand_ins};
use adf_file_runs::{NamedErrors, SystemFiles, tell, telling_asked};
use adf_runs::{Outcome, Sink};
use adf_shelf_cmd::{ABOUT, TextNames, parse, run};
use std::alloc::Global;
use std::cell::Cell;
use std::io::BufReader;

/// What words ask for beside names: volumes of types 2 and 3 too, and objects.
#[derive(Clone, Copy)]
struct Options {
    any_type: bool,
    json: bool,
}

// The options of words; `None` if they ask for no verdicts.
fn options_asked(alloc: Global, texts: &[&str]) -> Option<Options> {
    if telling_asked(texts).is_some() {
        return None;
    }
    match parse(alloc, texts) {
        Ok(order) => Some(Options {
            any_type: order.any_type,
            json: order.json,
        }),
        Err(_) => None,
    }
}

// The words that ask for names that end in a zero byte.
fn words_of_names(options: Options) -> &'static [&'static str] {
    match (options.any_type, options.json) {
        (true, true) => &["adf-shelf", "--null", "--any-type", "--json"],
        (true, false) => &["adf-shelf", "--null", "--any-type"],
        (false, true) => &["adf-shelf", "--null", "--json"],
        (false, false) => &["adf-shelf", "--null"],
    }
}

// Checks the images of these words.
fn run_words<W: Sink, E: Sink>(
    rt: &HostRuntime,
    texts: &[&str],
    output: &mut W,
    errors: &mut E,
) -> Result<u8, Outcome>
    requires writes { W.has_failed output.old ≡ false }
    requires tells { E.has_failed errors.old ≡ false }
{
    if let Some(telling) = telling_asked(texts) {
        return Ok(tell(&ABOUT, telling, output, errors));
    }
    let mut input = TextNames::new(BufReader::new(rt.alloc(), rt.stdin())?, b'\n');
    let files = SystemFiles::new(rt);
    Ok(run(rt.alloc(), texts, &mut input, &files, output, errors))
}

// Checks the images of words of which one at least is no UTF-8: it is a name.
fn run_raw<W: Sink, E: Sink>(
    rt: &HostRuntime,
    words: &[Vec<u8>],
    output: &mut W,
    errors: &mut E,
) -> Result<u8, Outcome>
    requires writes { W.has_failed output.old ≡ false }
    requires tells { E.has_failed errors.old ≡ false }
{
    let texts = stand_ins(rt.alloc(), words)?;
    let Some(options) = options_asked(rt.alloc(), &texts) else {
        return run_words(rt, &texts, output, errors);
    };
    let names = names_among(rt.alloc(), words)?;
    let mut input = TextNames::new(names.as_slice(), 0);
    let files = SystemFiles::new(rt);
    Ok(run(
        rt.alloc(),
        words_of_names(options),
        &mut input,
        &files,
        output,
        errors,
    ))
}

/// Checks the images of words, and returns the status; if there is no memory for it, how the run ends.
pub fn run_shelf(rt: &HostRuntime, words: &[&str]) -> Result<u8, Outcome> {
    let closed = Cell::new(false);
    let mut output = Output::new(rt.stdout(), &closed);
    let mut errors = NamedErrors::new(ABOUT.name, Errors::new(rt.stderr(), &closed));
    run_words(rt, words, &mut output, &mut errors)
}

/// The same for words as bytes, of which some are no UTF-8.
pub fn run_raw_shelf(rt: &HostRuntime, words: &[Vec<u8>]) -> Result<u8, Outcome> {
    let closed = Cell::new(false);
    let mut output = Output::new(rt.stdout(), &closed);
    let mut errors = NamedErrors::new(ABOUT.name, Errors::new(rt.stderr(), &closed));
    run_raw(rt, words, &mut output, &mut errors)
}
