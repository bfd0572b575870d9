// Small volumes, OFS and FFS. In each the file `a` has its header in block 2, and behind it its extension blocks, then its data
// blocks. One of 489 bytes has data blocks 3 and 4 on OFS, and 3 on FFS.

use crate::{Kept, Proposed, Terms, Why, keep};
use adf_base::{Letters, NO_STAMP, seal, set_word};
use adf_blocks::{
    EXTENSION, FIRST_POINTER, SECONDARY_TYPE, SIZE, ST_DIR, ST_FILE, is_allowed_size,
};
use adf_build::build_types;
use adf_drafts::Draft;
use adf_names::{Comment, Kind, Label, Meta, NO_STAMPS, Name};
use adf_tree::{Body, Bytes};
use adf_volume::Types;
use std::alloc::Global;
use std::process::Abort;

// Header, directory and name of a proposed entry.
type Claim<'a> = (Option<u32>, usize, &'a [u8]);

fn label(rt: &impl Abort) -> Label {
    Label::new(b"disk").expect(rt, "a label")
}

fn name(rt: &impl Abort, text: &[u8]) -> Name {
    Name::new(text).expect(rt, "a name")
}

// The volume of so many blocks with the file `a` of so many bytes.
fn volume(rt: &impl Abort, alloc: Global, kind: Kind, len: usize, blocks: u32) -> Vec<u8> {
    let mut draft = Draft::new(alloc, kind, label(rt), NO_STAMPS);
    let comment = Comment::new(b"note").expect(rt, "a comment");
    let bytes = vec![in alloc; 0x41u8; len].expect(rt, "memory");
    let path = [name(rt, b"a")];
    let added = draft.add(
        &path,
        Meta::new(comment, 5, NO_STAMP),
        Body::File(Bytes::new(bytes)),
    );
    assert!(rt; added.is_ok());
    let tree = draft.finish(alloc).expect(rt, "memory");
    build_types(alloc, Types::Plain, &tree, blocks).expect(rt, "a volume")
}

// Writes a word of a block, which gets the sum of a block with its checksum in word 5.
fn put(rt: &impl Abort, image: &mut [u8], b: u32, i: usize, v: u32) {
    assert!(rt; i < 128);
    assert!(rt; b as usize * 512 + 512 <= image.len());
    set_word(image, b, i, v);
    seal(image, b, 5);
}

fn terms(rt: &impl Abort, kind: Kind, blocks: u32) -> Terms {
    Terms {
        kind,
        letters: Letters::Ascii,
        label: label(rt),
        stamps: NO_STAMPS,
        blocks,
    }
}

// What is kept of these claims.
fn kept(rt: &impl Abort, alloc: Global, image: &[u8], claims: &[Claim<'_>], terms: Terms) -> Kept {
    let mut proposal = Vec::new(alloc);
    for (head, directory, text) in claims {
        let entry = Proposed {
            head: *head,
            directory: *directory,
            name: name(rt, text),
        };
        assert!(rt; proposal.push(entry).is_ok());
    }
    assert!(rt; is_allowed_size(terms.blocks));
    keep(alloc, image, u32::MAX, &proposal, terms).expect(rt, "memory")
}

// The entries that are left out are these.
fn leaves(rt: &impl Abort, kept: &Kept, want: &[(usize, Why)]) {
    assert!(rt; kept.left_out.len() == want.len());
    for (out, (index, why)) in kept.left_out.iter().zip(want.iter()) {
        assert!(rt; out.index == *index);
        assert!(rt; out.why == *why);
    }
}

// The only claim, of the header in block 2, is left out.
fn is_left_out(rt: &impl Abort, alloc: Global, image: &[u8], terms: Terms, why: Why) {
    let none = kept(rt, alloc, image, &[(Some(2), 0, b"a")], terms);
    leaves(rt, &none, &[(0, why)]);
    assert!(rt; none.draft.len() == 0);
}

#[test]
fn sound_files(rt: HostRuntime) {
    for kind in [Kind::Ofs, Kind::Ffs] {
        for (len, blocks) in [(489usize, 16u32), (145 * 512, 176)] {
            let image = volume(&rt, rt.alloc(), kind, len, blocks);
            let terms = terms(&rt, kind, blocks);
            let all = kept(&rt, rt.alloc(), &image, &[(Some(2), 0, b"a")], terms);
            assert!(rt; all.left_out.is_empty());
            let tree = all.draft.finish(rt.alloc()).expect(&rt, "memory");
            let again = build_types(rt.alloc(), Types::Plain, &tree, blocks);
            assert!(rt; again.expect(&rt, "a volume").as_slice() == image.as_slice());
        }
    }
}

#[test]
fn left_out(rt: HostRuntime) {
    let image = volume(&rt, rt.alloc(), Kind::Ofs, 489, 16);
    let claims: [Claim<'_>; 10] = [
        (None, 0, b"dir"),
        (Some(2), 1, b"a"),
        (Some(2), 0, b"again"),
        (Some(2), 1, b"A"),
        (Some(2), 3, b"b"),
        (Some(2), usize::MAX, b"b"),
        (Some(8), 0, b"root"),
        (Some(16), 0, b"past"),
        (Some(u32::MAX), 0, b"past"),
        (Some(0), 1, b"boot"),
    ];
    let some = kept(&rt, rt.alloc(), &image, &claims, terms(&rt, Kind::Ofs, 16));
    let want = [
        (2, Why::Taken),
        (3, Why::NameTaken),
        (4, Why::NoDirectory),
        (5, Why::NoDirectory),
        (6, Why::NoEntry),
        (7, Why::NoHeader),
        (8, Why::NoHeader),
        (9, Why::NoHeader),
    ];
    leaves(&rt, &some, &want);
    assert!(rt; some.draft.len() == 2);
}

// Directories that stand in themselves, in each other, or in a file.
#[test]
fn rings(rt: HostRuntime) {
    let image = volume(&rt, rt.alloc(), Kind::Ffs, 489, 16);
    let claims: [Claim<'_>; 5] = [
        (None, 1, b"self"),
        (None, 3, b"one"),
        (None, 2, b"other"),
        (Some(2), 0, b"a"),
        (None, 4, b"below"),
    ];
    let some = kept(&rt, rt.alloc(), &image, &claims, terms(&rt, Kind::Ffs, 16));
    let want = [
        (0, Why::NoDirectory),
        (1, Why::NoDirectory),
        (2, Why::NoDirectory),
        (4, Why::NoDirectory),
    ];
    leaves(&rt, &some, &want);
    assert!(rt; some.draft.len() == 1);
}

#[test]
fn damaged(rt: HostRuntime) {
    let mut image = volume(&rt, rt.alloc(), Kind::Ofs, 489, 16);
    if let Some(byte) = image.get_mut(3 * 512 + 40) {
        *byte = 0;
    }
    let claims: [Claim<'_>; 2] = [(Some(2), 0, b"a"), (None, 0, b"a")];
    let bad = kept(&rt, rt.alloc(), &image, &claims, terms(&rt, Kind::Ofs, 16));
    leaves(&rt, &bad, &[(0, Why::BadData)]);
    assert!(rt; bad.draft.len() == 1);
    image.truncate(4 * 512);
    is_left_out(
        &rt,
        rt.alloc(),
        &image,
        terms(&rt, Kind::Ofs, 16),
        Why::NoData,
    );
}

// An OFS data block that states another length and another next block: these are left to the judge.
#[test]
fn loose_words(rt: HostRuntime) {
    let mut image = volume(&rt, rt.alloc(), Kind::Ofs, 489, 16);
    put(&rt, &mut image, 3, 3, 7);
    put(&rt, &mut image, 3, 4, 0);
    let claims: [Claim<'_>; 1] = [(Some(2), 0, b"a")];
    let all = kept(&rt, rt.alloc(), &image, &claims, terms(&rt, Kind::Ofs, 16));
    leaves(&rt, &all, &[]);
    put(&rt, &mut image, 3, 2, 2);
    is_left_out(
        &rt,
        rt.alloc(),
        &image,
        terms(&rt, Kind::Ofs, 16),
        Why::BadData,
    );
}

// A size of 4 GB without extension blocks; and tables that name a block past the last, one twice, or the file's own header.
#[test]
fn wrong_tables(rt: HostRuntime) {
    let cases = [
        (SIZE, u32::MAX, Why::BadTable),
        (FIRST_POINTER, 16, Why::NoData),
        (FIRST_POINTER, u32::MAX, Why::NoData),
        (FIRST_POINTER, 4, Why::Taken),
        (FIRST_POINTER, 2, Why::Taken),
    ];
    for (word, value, why) in cases {
        let mut image = volume(&rt, rt.alloc(), Kind::Ofs, 489, 16);
        put(&rt, &mut image, 2, word, value);
        is_left_out(&rt, rt.alloc(), &image, terms(&rt, Kind::Ofs, 16), why);
    }
}

// A chain of extension blocks that leads to itself, or to a header; and a file that has no room.
#[test]
fn wrong_chains(rt: HostRuntime) {
    let mut image = volume(&rt, rt.alloc(), Kind::Ffs, 145 * 512, 176);
    is_left_out(
        &rt,
        rt.alloc(),
        &image,
        terms(&rt, Kind::Ffs, 16),
        Why::NoRoom,
    );
    for (next, why) in [(3, Why::Taken), (2, Why::BadTable)] {
        put(&rt, &mut image, 3, EXTENSION, next);
        is_left_out(&rt, rt.alloc(), &image, terms(&rt, Kind::Ffs, 176), why);
    }
}

// A header in block 6 whose table names block 3, a data block of `a`: on OFS it has not its form, on FFS the first claim has it.
#[test]
fn foreign_blocks(rt: HostRuntime) {
    let outs = [(Kind::Ofs, 0, Why::BadData), (Kind::Ffs, 1, Why::Taken)];
    for (kind, out, why) in outs {
        let mut image = volume(&rt, rt.alloc(), kind, 489, 16);
        put(&rt, &mut image, 6, SECONDARY_TYPE, ST_FILE);
        put(&rt, &mut image, 6, SIZE, 1);
        put(&rt, &mut image, 6, FIRST_POINTER, 3);
        let claims: [Claim<'_>; 2] = [(Some(6), 0, b"b"), (Some(2), 0, b"a")];
        let some = kept(&rt, rt.alloc(), &image, &claims, terms(&rt, kind, 16));
        leaves(&rt, &some, &[(out, why)]);
        assert!(rt; some.draft.len() == 1);
    }
}

// A directory with its header in block 6 that is proposed twice, and a file whose table names that block.
#[test]
fn shared_header(rt: HostRuntime) {
    for kind in [Kind::Ofs, Kind::Ffs] {
        let mut image = volume(&rt, rt.alloc(), kind, 489, 16);
        put(&rt, &mut image, 6, SECONDARY_TYPE, ST_DIR);
        put(&rt, &mut image, 2, FIRST_POINTER, 6);
        let claims: [Claim<'_>; 3] = [
            (Some(6), 0, b"dir"),
            (Some(6), 0, b"again"),
            (Some(2), 0, b"a"),
        ];
        let some = kept(&rt, rt.alloc(), &image, &claims, terms(&rt, kind, 16));
        leaves(&rt, &some, &[(1, Why::Taken), (2, Why::Taken)]);
        assert!(rt; some.draft.len() == 1);
    }
}
