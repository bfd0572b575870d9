// The stretches that rows tell.

ghost use Rattle.std.specs.Prelude.{◌≡◌, ◌≤◌, All, IfOk, IfSome, map, option_map};
ghost use Rattle.adf_maps.specs.Maps.{is_status, is_work, stretch_of, stretches_of, was_read};
ghost use Rattle.adf_maps.specs.declared.numbers.TheConstants.{MOST_NUMBER};

use crate::numbers::read_number;
use std::alloc::{AllocError, Global};

/// Bytes of a disk: the first one, how many, and whether they were read.
#[derive(Clone, Copy, Debug, PartialEq, Eq)]
pub struct Stretch {
    pub start: u64,
    pub size: u64,
    pub is_read: bool,
}

// Whether a status of a stretch is that of what was read.
fn was_read(word: &[u8]) -> Option<bool>
    ensures { result ≡ was_read word.now }
{
    match word {
        [b'+'] => Some(true),
        [b'?' | b'*' | b'/' | b'-'] => Some(false),
        _ => None,
    }
}

// Whether a word says what ddrescue was at.
fn is_work(word: &[u8]) -> bool
    ensures { result ≡ is_work word.now }
{
    matches!(word, [b'?' | b'*' | b'/' | b'-' | b'F' | b'G' | b'+'])
}

/// Whether a row is that of the status.
pub fn is_status(row: &[&[u8]]) -> bool
    ensures { result ≡ is_status (map (λ w. w.now) row.now) }
{
    match row {
        [position, work] => read_number(position).is_some() && is_work(work),
        [position, work, pass] => {
            read_number(position).is_some() && is_work(work) && read_number(pass).is_some()
        }
        _ => false,
    }
}

// The stretch of a row.
fn stretch_of(row: &[&[u8]]) -> Option<Stretch>
    ensures value { result ≡ stretch_of (map (λ w. w.now) row.now) }
    ensures most { IfSome result (λ s. (s.start ≤ MOST_NUMBER) × (s.size ≤ MOST_NUMBER)) }
{
    match row {
        [start, size, status] => {
            let start = read_number(start)?;
            let size = read_number(size)?;
            let is_read = was_read(status)?;
            if size == 0 {
                return None;
            }
            Some(Stretch {
                start,
                size,
                is_read,
            })
        }
        _ => None,
    }
}

/// The stretches of rows, if each tells one.
pub fn stretches_of(alloc: Global, rows: &[Vec<&[u8]>]) -> Result<Option<Vec<Stretch>>, AllocError>
    ensures value { IfOk result (λ all.
        option_map (λ v. v.items) all ≡ stretches_of (map (λ r. map (λ w. w.now) r.items) rows.now)) }
    ensures most { IfOk result (λ all. IfSome all (λ v. All (λ s. (s.start ≤ MOST_NUMBER) × (s.size ≤ MOST_NUMBER)) v.items)) }
{
    let mut stretches = Vec::new(alloc);
    for row in rows {
        match stretch_of(row) {
            Some(stretch) => stretches.push(stretch)?,
            None => return Ok(None),
        }
    }
    Ok(Some(stretches))
}
