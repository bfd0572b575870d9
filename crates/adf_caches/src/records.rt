// Records of directory caches.

ghost use Rattle.std.specs.Prelude.{◌≡◌, ◌+◌, ◌≤◌, ◌<◌, ◌-◌, IfNone, IfSome, false, true};
ghost use Rattle.adf_caches.specs.Records.{comment_at, long_at, pair_at, record_at, record_end, record_fits};
ghost use Rattle.adf_caches.specs.Records.{record_next, record_value};

use adf_base::{BLOCK_LEN, Block};

/// The byte of a cache block where its records begin.
pub const RECORD_START: usize = 24;

/// A record: the block of a header, and of that its size, the last byte of its secondary type, and its name.
#[derive(Clone, Copy)]
pub struct CacheRecord<'a> {
    pub header: u32,
    pub size: u32,
    pub kind: u8,
    pub name: &'a [u8],
}

// The number in two bytes.
#[tactic(auto, unfolding(crate::specs::Records::pair_at))]
fn pair_at(cache: &Block<'_>, at: usize) -> u32
    requires { at + 2 ≤ 512 }
    ensures is { result ≡ pair_at cache.now at }
    ensures small { result ≤ 65535 }
{
    u32::from(cache.byte(at)) * 256 + u32::from(cache.byte(at + 1))
}

// The number in four bytes.
#[tactic(auto, unfolding(crate::specs::Records::long_at))]
fn long_at(cache: &Block<'_>, at: usize) -> u32
    requires { at + 4 ≤ 512 }
    ensures { result ≡ long_at cache.now at }
{
    pair_at(cache, at) * 65536 + pair_at(cache, at + 2)
}

// The byte behind the name of a record.
#[tactic(auto, unfolding(crate::specs::Records::comment_at))]
fn comment_at(cache: &Block<'_>, at: usize) -> usize
    requires { at + 24 ≤ 512 }
    ensures is { result ≡ comment_at cache.now at }
    ensures low { at + 24 ≤ result }
{
    at + 24 + cache.byte(at + 23) as usize
}

// The byte behind a record.
#[tactic(auto, unfolding(crate::specs::Records::record_end))]
fn record_end(cache: &Block<'_>, at: usize, comment: usize) -> usize
    requires is { comment ≡ comment_at cache.now at }
    requires inside { comment < 512 }
    ensures { result ≡ record_end cache.now at }
{
    comment + 1 + cache.byte(comment) as usize
}

// The record that begins at a byte, with the byte behind its name.
#[tactic(auto, unfolding(crate::specs::Records::record_at))]
fn record_at<'a>(cache: &Block<'a>, at: usize, comment: usize) -> CacheRecord<'a>
    requires is { comment ≡ comment_at cache.now at }
    requires low { at + 24 ≤ comment }
    requires high { comment < 512 }
    ensures { record_value result ≡ record_at cache.now at }
{
    CacheRecord {
        header: long_at(cache, at),
        size: long_at(cache, at + 4),
        kind: cache.byte(at + 22),
        name: cache.bytes(at + 24, comment - (at + 24)),
    }
}

/// The record that begins at a byte, and the byte where the next one begins, if it is within the block.
#[tactic(auto, unfolding(crate::specs::Records::record_fits, crate::specs::Records::record_next))]
pub fn record_in<'a>(cache: &Block<'a>, at: usize) -> Option<(CacheRecord<'a>, usize)>
    requires { at ≤ 512 }
    ensures fits { IfSome result (λ r. record_fits cache.now at ≡ true) }
    ensures record { IfSome result (λ r. record_value r.0 ≡ record_at cache.now at) }
    ensures next { IfSome result (λ r. r.1 ≡ record_next cache.now at) }
    ensures inside { IfSome result (λ r. r.1 ≤ 512) }
    ensures none { IfNone result (record_fits cache.now at ≡ false) }
{
    if at + 24 > BLOCK_LEN {
        return None;
    }
    let comment = comment_at(cache, at);
    if comment >= BLOCK_LEN {
        return None;
    }
    let end = record_end(cache, at, comment);
    if end > BLOCK_LEN {
        return None;
    }
    Some((record_at(cache, at, comment), end + end % 2))
}
