// Which version of a block is taken.

ghost use Rattle.std.specs.Prelude.{◌≤◌, ◌<◌, ◌+◌, ◌*◌, All, length};
ghost use Rattle.adf_readings.specs.declared.choice.TheConstants.{MOST_READINGS};

use crate::reading::Reading;
use crate::versions::{credible_votes, is_credible, is_filled, votes};

/// The most readings that are merged.
pub const MOST_READINGS: usize = 100;

// What the version of reading `i` weighs.
fn weight(readings: &[Reading<'_>], b: u32, i: usize) -> usize
    requires whole { All (λ r. b * 512 + 512 ≤ length r) readings.now }
    requires few { length readings.now ≤ MOST_READINGS }
    requires within { i < length readings.now }
{
    let reading = &readings[i];
    let credible = if is_credible(reading, b) {
        2 * readings.len() + 2
    } else {
        0
    };
    let plain = if is_filled(reading, b) { 0 } else { 1 };
    credible + (2 * votes(readings, b, reading.version(b)) + plain)
}

/// The first reading of those that have the version of block `b` that is taken.
pub fn taken(readings: &[Reading<'_>], b: u32) -> usize
    requires whole { All (λ r. b * 512 + 512 ≤ length r) readings.now }
    requires some { 0 < length readings.now }
    requires few { length readings.now ≤ MOST_READINGS }
    ensures { result < length readings.now }
{
    if votes(readings, b, readings[0].version(b)) == readings.len() {
        return 0;
    }
    let mut best = 0usize;
    let mut most = weight(readings, b, 0);
    for i in 1..readings.len() {
        let next = weight(readings, b, i);
        if most < next {
            best = i;
            most = next;
        }
    }
    best
}

/// How many readings have another version of block `b` than the one taken, that of reading `i`; 0 if nothing is left to chance.
pub fn doubtful(readings: &[Reading<'_>], b: u32, i: usize) -> u32
    requires whole { All (λ r. b * 512 + 512 ≤ length r) readings.now }
    requires few { length readings.now ≤ MOST_READINGS }
    requires within { i < length readings.now }
{
    let votes = votes(readings, b, readings[i].version(b));
    if votes == readings.len() || votes == credible_votes(readings, b) {
        return 0;
    }
    (readings.len() - votes) as u32
}
