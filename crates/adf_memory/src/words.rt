// The words of a command line in memory.

ghost use Rattle.std.specs.Prelude.{◌≡◌, ◌<◌, ◌∷◌, [], IfOk, IfErr, IfSome, IfNone, length, position};
ghost use Rattle.adf_words.specs.CommandLine.{texts_of};
ghost use Rattle.adf_memory.specs.Words.{AreNoWords, AreWords, is_zero, between_zeros};

use adf_words::ArgsError;
use std::alloc::Global;
use std::str;

// The place of the first zero byte.
fn zero(bytes: &[u8]) -> Option<usize>
    ensures { result ≡ position is_zero bytes.now }
{
    bytes.iter().position(|b| *b == 0)
}

// What stands before the first zero byte, and what is after that.
fn cut(bytes: &[u8]) -> Option<(&[u8], &[u8])>
    ensures some { IfSome result (λ r. between_zeros bytes.now ≡ r.0.now ∷ between_zeros r.1.now) }
    ensures shorter { IfSome result (λ r. length r.1.now < length bytes.now) }
    ensures none { IfNone result (between_zeros bytes.now ≡ bytes.now ∷ []) }
{
    match zero(bytes) {
        Some(at) => Some((&bytes[..at], &bytes[at + 1..])),
        None => None,
    }
}

/// The words, each ended by a zero byte; `Usage` if one is not ended or is not UTF-8, `NoMemory` if an allocation fails.
pub fn words_in<'a>(alloc: Global, bytes: &'a [u8]) -> Result<Vec<&'a str>, ArgsError>
    ensures ok { IfOk result (λ words. AreWords bytes.entry.now (texts_of words.items)) }
    ensures err { IfErr result (λ fault. fault ≡ ArgsError.Usage → AreNoWords bytes.entry.now) }
{
    let mut words = Vec::new(alloc);
    let mut rest = bytes;
    while !rest.is_empty() {
        let Some((word, after)) = cut(rest) else {
            return Err(ArgsError::Usage);
        };
        let Ok(text) = str::from_utf8(word) else {
            return Err(ArgsError::Usage);
        };
        if words.push(text).is_err() {
            return Err(ArgsError::NoMemory);
        }
        rest = after;
    }
    Ok(words)
}
