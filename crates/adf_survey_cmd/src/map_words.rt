// The word of a command line that names a map.

ghost use Rattle.std.specs.Prelude.{◌≡◌, ◌<◌, IfOk, IfSome, length, map, slice_set};
ghost use Rattle.adf_survey_cmd.specs.MapWords.{ends_options, map_word, told_by_word};

use std::alloc::{AllocError, Global};

// Whether the options in front of a command end with a word.
fn ends_options(word: &str) -> bool
    ensures { result ≡ ends_options word.now }
{
    word == "cat"
        || word == "deleted"
        || word == "rescue"
        || word == "blank"
        || word == "claims"
        || word == "--"
}

// What a word tells: which word names a map, or that none does; or nothing.
#[tactic(auto, using(crate::proofs::MapWords::word_at))]
fn told_by_word(words: &[&str], i: usize) -> Option<Option<usize>>
    requires { i < length words.now }
    ensures told { result ≡ told_by_word (map (λ w. w.now) words.now) i }
    ensures within { IfSome result (λ told. IfSome told (λ k. k < length words.now)) }
{
    let word = words[i];
    if word == "--map" && i + 1 < words.len() {
        Some(Some(i + 1))
    } else if ends_options(word) {
        Some(None)
    } else {
        None
    }
}

/// The number of the word that names a map: the one behind `--map`, which is before any command; `None` if there is none.
#[tactic(auto, using(crate::proofs::MapWords::word_steps))]
pub fn map_word(words: &[&str]) -> Option<usize>
    ensures word { result ≡ map_word (map (λ w. w.now) words.now) }
    ensures within { IfSome result (λ i. i < length words.now) }
{
    for i in 0..words.len() {
        if let Some(told) = told_by_word(words, i) {
            return told;
        }
    }
    None
}

/// The words with this text in place of one of them.
#[tactic(auto, using(crate::proofs::MapWords::text_put))]
pub fn with_text<'a>(
    alloc: Global,
    words: &[&'a str],
    at: usize,
    text: &'a str,
) -> Result<Vec<&'a str>, AllocError>
    requires { at < length words.now }
    ensures { IfOk result (λ read. map (λ w. w.now) read.items ≡ slice_set (map (λ w. w.now) words.now) at text.now) }
{
    let mut read = Vec::from_slice(alloc, words)?;
    read[at] = text;
    Ok(read)
}
