// Plans whose lines name host files.

ghost use Rattle.std.specs.Prelude.{◌≡◌, ◌++◌, IfOk, OnOk, codes, false, option_map, true};
ghost use Rattle.adf_plans.specs.HostFiles.{IsPlainText, NamesHosts, TextsHaveOnePlainText, host_of, line_without, volume_words};
ghost use Rattle.adf_plans.specs.PlanTexts.{has_word};

use crate::plan_line::{take_priority, take_word};
use crate::plan_words::{cut, cut_line, ends_in_space};
use std::alloc::{AllocError, Global};

// What stands behind the cylinders and the options of a partition's line.
fn volume_words(line: &[u8]) -> &[u8]
    ensures { result.now ≡ volume_words line.now }
{
    let (_, rest) = cut(line, b' ');
    let (_, rest) = cut(rest, b' ');
    let (_, rest) = cut(rest, b' ');
    let (_, rest) = cut(rest, b' ');
    let (_, rest) = take_word(rest, b"bootable");
    take_priority(rest).1
}

/// The host file that a line of a partition names for its volume: all that stands behind the options, unless that is `given` or
/// ends in a space.
pub fn host_of(line: &[u8]) -> Option<&[u8]>
    ensures { option_map (λ host. host.now) result ≡ host_of line.now }
{
    let words = volume_words(line);
    if ends_in_space(line) || words.is_empty() || words == b"given".as_slice() {
        None
    } else {
        Some(words)
    }
}

// Whether a line begins as that of a partition.
fn begins_partition(line: &[u8]) -> bool
    ensures { result ≡ has_word (codes "partition") line.now }
{
    take_word(line, b"partition").0
}

/// Whether one of the lines of partitions behind the first line names a host file.
#[tactic(auto, using(crate::proofs::PlainTexts::line_passed, crate::proofs::PlainTexts::sought, crate::proofs::PlainTexts::sought_next, crate::proofs::PlainTexts::host_found, crate::proofs::PlainTexts::no_host))]
pub fn names_hosts(text: &[u8]) -> bool
    ensures some { result ≡ true → NamesHosts text.now }
    ensures none { result ≡ false → ¬ NamesHosts text.now }
{
    let (_, mut left) = cut_line(text);
    loop {
        let (line, rest) = cut_line(left);
        if !begins_partition(line) {
            return false;
        }
        if host_of(line).is_some() {
            return true;
        }
        left = rest;
    }
}

// Appends a line with `given` in place of its host file, and a line feed.
fn push_plain(plain: &mut Vec<u8>, line: &[u8]) -> Result<(), AllocError>
    ensures { OnOk result
        (plain.new.items ≡ plain.old.items ++ (line_without line.now (host_of line.now) ++ codes "\n")) }
{
    match host_of(line) {
        Some(host) => {
            plain.extend_from_slice(&line[..line.len().saturating_sub(host.len())])?;
            plain.extend_from_slice(b"given\n")
        }
        None => {
            plain.extend_from_slice(line)?;
            plain.extend_from_slice(b"\n")
        }
    }
}

/// The text of a plan with `given` in place of each host file that its lines name.
#[tactic(auto, using(crate::proofs::PlainTexts::line_passed, crate::proofs::PlainTexts::begun))]
pub fn plain_text(alloc: Global, text: &[u8]) -> Result<Vec<u8>, AllocError>
    ensures { IfOk result (λ plain. IsPlainText text.now plain.items) }
{
    let (_, mut left) = cut_line(text);
    let mut plain = Vec::from_slice(alloc, &text[..text.len().saturating_sub(left.len())])?;
    loop {
        let (line, rest) = cut_line(left);
        if !begins_partition(line) {
            break;
        }
        push_plain(&mut plain, line)?;
        left = rest;
    }
    plain.extend_from_slice(left)?;
    Ok(plain)
}

/// A text has one plain text at most.
pub fn one_plain_text()
    ensures { TextsHaveOnePlainText }
{}
