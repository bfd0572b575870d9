// Links in small volumes of type 0, with the directory `d`, the file `d/f` and the file `a`.

use crate::links::{LinkTarget, Linked, WantedLink, lay_links};
use crate::links_words::{NEXT_LINK, ORIGINAL, PATH_START};
use adf_base::{Block, Letters, NO_STAMP, slot};
use adf_blocks::{
    FIRST_SLOT, NAME, NEXT_IN_CHAIN, PARENT, SECONDARY_TYPE, ST_LINK_DIR, ST_LINK_FILE,
    ST_SOFT_LINK,
};
use adf_build::build_types;
use adf_drafts::Draft;
use adf_names::{Comment, Kind, Label, Meta, NO_STAMPS, Name};
use adf_tree::{Body, Bytes};
use adf_volume::Types;
use std::alloc::Global;
use std::process::Abort;

fn name(rt: &impl Abort, text: &[u8]) -> Name {
    Name::new(text).expect(rt, "a name")
}

fn meta(rt: &impl Abort, text: &[u8]) -> Meta {
    let comment = Comment::new(text).expect(rt, "a comment");
    Meta::new(comment, 5, NO_STAMP)
}

fn names(rt: &impl Abort, alloc: Global, path: &[&[u8]]) -> Vec<Name> {
    let mut names = Vec::new(alloc);
    for text in path {
        assert!(rt; names.push(name(rt, text)).is_ok());
    }
    names
}

fn add(rt: &impl Abort, alloc: Global, draft: &mut Draft, path: &[&[u8]], body: Body) {
    let path = names(rt, alloc, path);
    assert!(rt; draft.add(&path, meta(rt, b"note"), body).is_ok());
}

fn file(rt: &impl Abort, alloc: Global) -> Body {
    let bytes = vec![in alloc; 0x41u8; 600].expect(rt, "memory");
    Body::File(Bytes::new(bytes))
}

// The volume, of so many blocks.
fn volume(rt: &impl Abort, alloc: Global, blocks: u32) -> Vec<u8> {
    let label = Label::new(b"disk").expect(rt, "a label");
    let mut draft = Draft::new(alloc, Kind::Ofs, label, NO_STAMPS);
    add(rt, alloc, &mut draft, &[b"d"], Body::Dir);
    add(rt, alloc, &mut draft, &[b"d", b"f"], file(rt, alloc));
    add(rt, alloc, &mut draft, &[b"a"], file(rt, alloc));
    let tree = draft.finish(alloc).expect(rt, "memory");
    build_types(alloc, Types::Plain, &tree, blocks).expect(rt, "a volume")
}

fn soft(rt: &impl Abort, alloc: Global, path: &[u8]) -> LinkTarget {
    LinkTarget::Soft(Vec::from_slice(alloc, path).expect(rt, "memory"))
}

fn hard(rt: &impl Abort, alloc: Global, path: &[&[u8]]) -> LinkTarget {
    LinkTarget::Hard(names(rt, alloc, path))
}

// A link at a path, which is not empty.
fn link(
    rt: &impl Abort,
    alloc: Global,
    directory: &[&[u8]],
    text: &[u8],
    to: LinkTarget,
) -> WantedLink {
    WantedLink {
        directory: names(rt, alloc, directory),
        name: name(rt, text),
        meta: meta(rt, b"link"),
        to,
    }
}

fn laid(rt: &impl Abort, alloc: Global, blocks: u32, wanted: &[WantedLink]) -> Linked {
    let image = volume(rt, alloc, blocks);
    lay_links(alloc, image, Letters::Ascii, wanted).expect(rt, "memory")
}

fn word(rt: &impl Abort, image: &[u8], b: u32, i: usize) -> u32 {
    let block = Block::at(image, b).expect(rt, "a block");
    assert!(rt; i < 128);
    block.word(i)
}

// The header with a name of one byte in a directory.
fn header(rt: &impl Abort, image: &[u8], directory: u32, text: u8) -> u32 {
    let mut b = word(rt, image, directory, FIRST_SLOT + slot(&[text]) as usize);
    for _ in 0..image.len() {
        let block = Block::at(image, b).expect(rt, "a block");
        if block.bytes(NAME, 2) == [1, text].as_slice() {
            return b;
        }
        b = block.word(NEXT_IN_CHAIN);
    }
    0
}

#[test]
fn three_kinds(rt: HostRuntime) {
    let alloc = rt.alloc();
    let mut wanted = Vec::new(alloc);
    let hard_file = hard(&rt, alloc, &[b"a"]);
    let hard_directory = hard(&rt, alloc, &[b"d"]);
    let soft_file = soft(&rt, alloc, b"disk:d/f");
    assert!(&rt;
        wanted
            .push(link(&rt, alloc, &[b"d"], b"h", hard_file))
            .is_ok()
    );
    assert!(&rt;
        wanted
            .push(link(&rt, alloc, &[], b"k", hard_directory))
            .is_ok()
    );
    assert!(&rt; wanted.push(link(&rt, alloc, &[], b"s", soft_file)).is_ok());
    let all = laid(&rt, alloc, 32, &wanted);
    assert!(&rt; all.kept.as_slice() == [true, true, true].as_slice());
    let image = all.image.as_slice();
    let (d, a) = (header(&rt, image, 16, b'd'), header(&rt, image, 16, b'a'));
    let (h, k, s) = (
        header(&rt, image, d, b'h'),
        header(&rt, image, 16, b'k'),
        header(&rt, image, 16, b's'),
    );
    assert!(&rt; word(&rt, image, h, SECONDARY_TYPE) == ST_LINK_FILE);
    assert!(&rt; word(&rt, image, h, ORIGINAL) == a);
    assert!(&rt; word(&rt, image, h, PARENT) == d);
    assert!(&rt; word(&rt, image, a, NEXT_LINK) == h);
    assert!(&rt; word(&rt, image, k, SECONDARY_TYPE) == ST_LINK_DIR);
    assert!(&rt; word(&rt, image, k, ORIGINAL) == d);
    assert!(&rt; word(&rt, image, d, NEXT_LINK) == k);
    assert!(&rt; word(&rt, image, s, SECONDARY_TYPE) == ST_SOFT_LINK);
    let block = Block::at(image, s).expect(&rt, "a block");
    assert!(&rt; block.bytes(PATH_START, 9) == b"disk:d/f\0".as_slice());
}

#[test]
fn not_had(rt: HostRuntime) {
    let alloc = rt.alloc();
    let mut wanted = Vec::new(alloc);
    let to_none = hard(&rt, alloc, &[b"d", b"x"]);
    let to_root = hard(&rt, alloc, &[]);
    let (one, two, three) = (
        soft(&rt, alloc, b"x"),
        soft(&rt, alloc, b"y"),
        soft(&rt, alloc, b"z"),
    );
    assert!(&rt; wanted.push(link(&rt, alloc, &[], b"A", one)).is_ok());
    assert!(&rt; wanted.push(link(&rt, alloc, &[b"a"], b"l", two)).is_ok());
    assert!(&rt; wanted.push(link(&rt, alloc, &[], b"m", to_none)).is_ok());
    assert!(&rt; wanted.push(link(&rt, alloc, &[], b"n", to_root)).is_ok());
    assert!(&rt; wanted.push(link(&rt, alloc, &[], b"o", three)).is_ok());
    let some = laid(&rt, alloc, 32, &wanted);
    assert!(&rt; some.kept.as_slice() == [false, false, false, false, true].as_slice());
}

#[test]
fn no_block_left(rt: HostRuntime) {
    let alloc = rt.alloc();
    let mut wanted = Vec::new(alloc);
    let (one, two) = (soft(&rt, alloc, b"x"), soft(&rt, alloc, b"y"));
    assert!(&rt; wanted.push(link(&rt, alloc, &[], b"l", one)).is_ok());
    assert!(&rt; wanted.push(link(&rt, alloc, &[], b"m", two)).is_ok());
    let some = laid(&rt, alloc, 12, &wanted);
    let kept = some.kept.iter().filter(|is_kept| **is_kept).count();
    assert!(&rt; kept == 1);
}
