// Standard error with the name of a program before each line.

use crate::memory::Kept;
use adf_file_runs::NamedErrors;
use adf_runs::{Sink, say};
use std::alloc::Global;

// What is kept of texts that are said one after the other, by a device that takes at most so many bytes a call and fails once
// so many calls were made.
fn said(alloc: Global, most: usize, calls: usize, texts: &[&str]) -> Vec<u8> {
    let mut errors = NamedErrors::new("adf-try", Kept::new(alloc, most, calls));
    for text in texts {
        if !errors.inner.failed() {
            say(&mut errors, text.as_bytes());
        }
    }
    errors.inner.bytes
}

// Each line has the name once, in whatever pieces it is written; a line that is not ended is one too.
#[test]
fn each_line_has_the_name(rt: HostRuntime) {
    let whole = b"adf-try: damaged: a\nadf-try: \nadf-try: no room: b\nadf-try: end";
    let texts = ["", "damaged: a\n\nno ", "room: b\n", "end"];
    for most in 1..70 {
        let kept = said(rt.alloc(), most, usize::MAX, &texts);
        assert!(rt; kept.as_slice() == whole.as_slice());
    }
}

// A usage stays as it is.
#[test]
fn a_usage_has_the_name(rt: HostRuntime) {
    let usage = "usage: adf-try\n       adf-try more\nthe end\n";
    for most in 1..20 {
        let kept = said(rt.alloc(), most, usize::MAX, &[usage]);
        assert!(rt; kept.as_slice() == usage.as_bytes());
    }
}

// A device that fails has a front part.
#[test]
fn what_fails_has_a_front_part(rt: HostRuntime) {
    let whole = b"adf-try: one\nadf-try: two\n";
    for calls in 0..whole.len() {
        let kept = said(rt.alloc(), 1, calls, &["one\n", "two\n"]);
        assert!(rt; kept.as_slice() == &whole[..calls]);
    }
}
