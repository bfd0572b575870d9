// The name of each claim: its own, or another one where that cannot be or another claim has it.

use crate::claims::Claims;
use crate::keys::NameKey;
use adf_base::NoMemory;
use adf_evidence::Moment;
use adf_names::{Name, push_number};
use std::alloc::Global;
use std::cmp::Reverse;

/// Which of two claims with one name keeps it: the lesser one. By rank; then what is in its own slot and has no block free; then
/// the latest; then the first.
#[derive(Clone, Copy, Debug, PartialEq, Eq, PartialOrd, Ord)]
struct Precedence {
    is_left_out: bool,
    rank: u32,
    is_misplaced: bool,
    is_freed: bool,
    moment: Reverse<Moment>,
    place: u32,
}

/// A header, and the name that it states.
#[derive(Clone, Copy, Debug, PartialEq, Eq, PartialOrd, Ord)]
struct NamedHeader {
    key: NameKey,
    precedence: Precedence,
    header: u32,
}

/// The headers that keep the names that they state, in order.
#[derive(Drop)]
pub(crate) struct Names {
    kept: Vec<NamedHeader>,
}

impl Names {
    /// Of the claims that are given back or are right links, and have one name in one directory, the first keeps it.
    pub(crate) fn new(alloc: Global, claims: &Claims<'_>) -> Result<Names, NoMemory> {
        let named = named_headers(alloc, claims)?;
        let mut kept = Vec::new(alloc);
        let mut last: Option<NameKey> = None;
        for each in &named {
            if last != Some(each.key) {
                kept.push(*each)?;
                last = Some(each.key);
            }
        }
        Ok(Names { kept })
    }

    /// The header that keeps this name in this directory; 0 if none does.
    fn keeper(&self, key: &NameKey) -> u32 {
        match self.kept.binary_search_by_key(key, |each| each.key) {
            Ok(i) => self.kept.get(i).map_or(0, |each| each.header),
            Err(_) => 0,
        }
    }

    /// The name of a claim: its own, or another one where that cannot be or another claim has it.
    pub(crate) fn name(
        &self,
        alloc: Global,
        claims: &Claims<'_>,
        header: u32,
    ) -> Result<Vec<u8>, NoMemory> {
        let stated = claims.stated_name(alloc, header)?;
        let keeper = self.keeper(&claims.key(header, stated.as_slice()));
        if Name::is_name(stated.as_slice()) && (keeper == 0 || keeper == header) {
            return Ok(stated);
        }
        self.other_name(alloc, claims, header)
    }

    // The first of `lost-` and its block, with numbers behind it, that no other keeps.
    fn other_name(
        &self,
        alloc: Global,
        claims: &Claims<'_>,
        header: u32,
    ) -> Result<Vec<u8>, NoMemory> {
        let many = u32::try_from(self.kept.len()).unwrap_or(u32::MAX);
        for number in 0..many {
            let name = lost_name(alloc, header, number)?;
            if self.keeper(&claims.key(header, name.as_slice())) == 0 {
                return Ok(name);
            }
        }
        lost_name(alloc, header, many)
    }
}

// The headers that are given back or are right links and state a valid name, by name, and of each name by precedence.
fn named_headers(alloc: Global, claims: &Claims<'_>) -> Result<Vec<NamedHeader>, NoMemory> {
    let mut named = Vec::new(alloc);
    for header in claims.headers() {
        if claims.takes_name(*header) {
            let stated = claims.stated_name(alloc, *header)?;
            if Name::is_name(stated.as_slice()) {
                named.push(NamedHeader {
                    key: claims.key(*header, stated.as_slice()),
                    precedence: precedence_of(claims, *header),
                    header: *header,
                })?;
            }
        }
    }
    named.sort()?;
    Ok(named)
}

fn precedence_of(claims: &Claims<'_>, header: u32) -> Precedence {
    Precedence {
        is_left_out: !claims.intact.has(header),
        rank: claims.files.rank(&claims.walk, header),
        is_misplaced: claims.walk.misplaced.has(header),
        is_freed: claims.freed.has(header),
        moment: Reverse(claims.image.moment(header)),
        place: claims.place.get(header),
    }
}

/// `lost-` and a block, and a number behind it that is not 0.
pub(crate) fn lost_name(alloc: Global, header: u32, number: u32) -> Result<Vec<u8>, NoMemory> {
    let mut name = Vec::from_slice(alloc, b"lost-")?;
    push_number(&mut name, header, b'-')?;
    if number > 0 {
        push_number(&mut name, number, b'-')?;
    }
    name.pop();
    Ok(name)
}
