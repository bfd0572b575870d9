// The proposal of a judgement: an entry for each claim, at its index, and behind these the deleted files.

ghost use Rattle.std.specs.Prelude.{◌≡◌, ◌+◌, IfOk, OnOk, false, length, true};
ghost use Rattle.adf_keep.specs.{Proposing.IsProposalOf, Proposing.head_of, Proposing.is_proposed, Proposing.is_whole, Rescued.IsBehind, Rescued.ProposesClaims};

use crate::proposal::Proposed;
use adf_base::{Letters, NoMemory};
use adf_drafts::ChildMap;
use adf_judge::{Claim, DeletedHeader, Object, Origin};
use adf_names::Name;
use adf_tree::Node;
use std::alloc::Global;

// The root, and the directory of the deleted files, in the names that are taken.
const ROOT: Node = Node(0);

const HOME: Node = Node(1);

/// A proposal, and the name of the directory of the deleted files in it; empty if there is none.
#[derive(Drop)]
pub struct Proposal {
    pub entries: Vec<Proposed>,
    pub home: Vec<u8>,
}

// The directory of the deleted files: what is proposed for it, its number as a directory, and its name.
#[derive(Drop)]
struct Home {
    entry: Proposed,
    directory: usize,
    name: Vec<u8>,
}

/// Whether a claim is proposed: a directory, or a file that is given back.
pub fn is_proposed(claim: &Claim) -> bool
    ensures { result ≡ is_proposed claim.now }
{
    match claim.object {
        Object::Directory => true,
        Object::File => claim.is_given,
        _ => false,
    }
}

/// Whether a deleted header is that of a whole file.
pub fn is_whole(header: &DeletedHeader) -> bool
    ensures { result ≡ is_whole header.now }
{
    match header.object {
        Object::File => header.overwritten == 0 && header.rival == 0,
        _ => false,
    }
}

// The block of the header of a claim; `None` for a directory that is made.
fn head_of(claim: &Claim) -> Option<u32>
    ensures { result ≡ head_of claim.now }
{
    match (claim.origin, claim.object) {
        (Origin::Made, Object::Directory) => None,
        _ => Some(claim.header),
    }
}

// An entry that is not proposed: one in no directory.
fn unproposed(head: Option<u32>) -> Proposed
    ensures { result.head ≡ head }
{
    Proposed {
        head,
        directory: usize::MAX,
        name: Name::known(b"-"),
    }
}

// What is proposed for a claim.
fn proposed_for(claim: &Claim) -> Proposed
    ensures { IsProposalOf claim.now result }
{
    let head = head_of(claim);
    if !is_proposed(claim) {
        return unproposed(head);
    }
    match Name::new(&claim.name) {
        Some(name) => Proposed {
            head,
            directory: claim.directory,
            name,
        },
        None => unproposed(head),
    }
}

/// The names that are taken.
#[derive(Drop)]
struct Names {
    letters: Letters,
    taken: ChildMap,
    count: usize,
}

impl Names {
    // A name that is not taken in a directory.
    fn free(&self, directory: Node, name: &[u8]) -> Option<Name> {
        let name = Name::new(name)?;
        match self.taken.get(self.letters, directory, &name) {
            None => Some(name),
            Some(_) => None,
        }
    }

    // This name, or else the first one with a number behind it that is not taken in a directory.
    fn numbered(
        &self,
        alloc: Global,
        directory: Node,
        name: &str,
    ) -> Result<Option<Name>, NoMemory> {
        for i in 0..self.count.saturating_add(1) {
            let text = if i == 0 {
                format!(in alloc; "{name}")?
            } else {
                format!(in alloc; "{name}-{i}")?
            };
            if let Some(free) = self.free(directory, text.as_bytes()) {
                return Ok(Some(free));
            }
        }
        Ok(None)
    }

    // Takes a name in a directory.
    fn take(&mut self, directory: Node, name: &Name) -> Result<(), NoMemory> {
        self.count = self.count.saturating_add(1);
        self.taken.put(self.letters, directory, name, HOME)
    }

    // The name of a deleted file: its own, or else `deleted-` and the block of its header, numbered.
    fn of_deleted(&self, alloc: Global, header: &DeletedHeader) -> Result<Option<Name>, NoMemory> {
        if let Some(name) = self.free(HOME, &header.name) {
            return Ok(Some(name));
        }
        let h = header.header;
        let text = format!(in alloc; "deleted-{h}")?;
        self.numbered(alloc, HOME, text.as_str())
    }
}

// The names that the claims take in the root.
fn root_names(alloc: Global, claims: &[Claim], letters: Letters) -> Result<Names, NoMemory> {
    let mut names = Names {
        letters,
        taken: ChildMap::new(alloc),
        count: 0,
    };
    for claim in claims {
        if claim.directory == 0 && is_proposed(claim) {
            if let Some(name) = Name::new(&claim.name) {
                names.take(ROOT, &name)?;
            }
        }
    }
    Ok(names)
}

// What is proposed for a deleted header, in this directory.
fn proposed_deleted(
    alloc: Global,
    names: &mut Names,
    directory: usize,
    header: &DeletedHeader,
) -> Result<Proposed, NoMemory> {
    let head = Some(header.header);
    if !is_whole(header) {
        return Ok(unproposed(head));
    }
    match names.of_deleted(alloc, header)? {
        Some(name) => {
            names.take(HOME, &name)?;
            Ok(Proposed {
                head,
                directory,
                name,
            })
        }
        None => Ok(unproposed(head)),
    }
}

// The name of the directory of the deleted files, if any is whole.
fn home_name(
    alloc: Global,
    names: &Names,
    deleted: &[DeletedHeader],
) -> Result<Option<Name>, NoMemory> {
    if deleted.iter().any(is_whole) {
        names.numbered(alloc, ROOT, "deleted")
    } else {
        Ok(None)
    }
}

// The directory of the deleted files, as an entry with a place of its own behind so many claims.
fn propose_home(alloc: Global, name: Option<Name>, claims: usize) -> Result<Home, NoMemory> {
    let mut home = Home {
        entry: unproposed(None),
        directory: usize::MAX,
        name: Vec::new(alloc),
    };
    if let Some(name) = name {
        home.name.extend_from_slice(name.bytes())?;
        home.directory = claims.saturating_add(1);
        home.entry = Proposed {
            head: None,
            directory: 0,
            name,
        };
    }
    Ok(home)
}

// Proposes the deleted headers behind what is proposed: those of whole files in this directory.
fn propose_headers(
    alloc: Global,
    names: &mut Names,
    directory: usize,
    deleted: &[DeletedHeader],
    entries: &mut Vec<Proposed>,
) -> Result<(), NoMemory>
    ensures behind { OnOk result (IsBehind entries.old.items entries.new.items) }
    ensures count { OnOk result (length entries.new.items ≡ length entries.old.items + length deleted.now) }
{
    for header in deleted {
        entries.push(proposed_deleted(alloc, names, directory, header)?)?;
    }
    Ok(())
}

// Proposes the directory of the deleted files behind the claims, and behind that the deleted headers; its name.
fn propose_deleted(
    alloc: Global,
    claims: &[Claim],
    deleted: &[DeletedHeader],
    letters: Letters,
    entries: &mut Vec<Proposed>,
) -> Result<Vec<u8>, NoMemory>
    ensures behind { OnOk result (IsBehind entries.old.items entries.new.items) }
    ensures count { OnOk result (length entries.new.items ≡ length entries.old.items + 1 + length deleted.now) }
{
    let mut names = root_names(alloc, claims, letters)?;
    let name = home_name(alloc, &names, deleted)?;
    let home = propose_home(alloc, name, claims.len())?;
    entries.push(home.entry)?;
    propose_headers(alloc, &mut names, home.directory, deleted, entries)?;
    Ok(home.name)
}

// An entry for each claim, at its index.
fn propose_claims(alloc: Global, claims: &[Claim]) -> Result<Vec<Proposed>, NoMemory>
    ensures claims { IfOk result (λ r. ProposesClaims claims.now r.items) }
    ensures count { IfOk result (λ r. length r.items ≡ length claims.now) }
{
    let mut entries = Vec::new(alloc);
    for claim in claims {
        entries.push(proposed_for(claim))?;
    }
    Ok(entries)
}

/// The proposal of a judgement. Its first entries are those of the claims, by index. Where deleted files are asked for, the next
/// one is their directory in the root, and then come the deleted headers, by index. What is not to be kept is in no directory.
/// `NoMemory` if an allocation fails.
pub fn propose(
    alloc: Global,
    claims: &[Claim],
    deleted: &[DeletedHeader],
    letters: Letters,
    with_deleted: bool,
) -> Result<Proposal, NoMemory>
    ensures claims { IfOk result (λ r. ProposesClaims claims.now r.entries.items) }
    ensures alone { with_deleted ≡ false → IfOk result (λ r. length r.entries.items ≡ length claims.now) }
    ensures deleted { with_deleted ≡ true → IfOk result (λ r. length r.entries.items ≡ length claims.now + 1 + length deleted.now) }
{
    let mut entries = propose_claims(alloc, claims)?;
    if !with_deleted {
        let home = Vec::new(alloc);
        return Ok(Proposal { entries, home });
    }
    let home = propose_deleted(alloc, claims, deleted, letters, &mut entries)?;
    Ok(Proposal { entries, home })
}
