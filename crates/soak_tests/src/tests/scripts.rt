// Scripts of more than a megabyte, and words of more than 1,024 octets.

use script::play_script;
use std::alloc::Global;
use std::process::Abort;
use streams::{Reader, Writer};

fn lines_in(text: &[u8]) -> usize {
    text.iter().filter(|octet| **octet == b'\n').count()
}

fn append(rt: &impl Abort, script: &mut String, line: &str, number: usize) {
    for _ in 0..number {
        script.push_str(line).expect(rt, "a line");
    }
}

// Checks that a script of `number` equal lines is answered by one line for each.
fn repeats(rt: &impl Abort, alloc: Global, line: &str, number: usize) {
    let mut script = String::new(alloc);
    append(rt, &mut script, line, number);
    answers(rt, alloc, script.as_bytes(), number, b"");
}

// Checks that a script is answered by `number` lines, and how the answers begin.
fn answers(rt: &impl Abort, alloc: Global, script: &[u8], number: usize, begin: &[u8]) {
    let mut written = Vec::new(alloc);
    let ended = play_script(
        alloc,
        &mut Reader::new(script),
        &mut Writer::new(&mut written),
    );
    assert!(rt; ended.expect(rt, "answers").is_none());
    assert_eq!(rt; lines_in(written.as_slice()), number);
    assert!(rt; written.as_slice().starts_with(begin));
}

#[test]
fn pieces_of_a_script(rt: HostRuntime) {
    repeats(&rt, rt.alloc(), "show\n", 1000);
}

#[test]
fn scripts_of_a_megabyte(rt: HostRuntime) {
    repeats(&rt, rt.alloc(), "show\n", 300_000);
    repeats(&rt, rt.alloc(), "tick\n", 300_000);
}

// Submits the longest packet, in one word of 131,084 digits.
#[test]
fn a_word_of_the_longest_packet(rt: HostRuntime) {
    let mut script = String::new(rt.alloc());
    append(&rt, &mut script, "init none\nsubmit 63 1005C000FFFF", 1);
    append(&rt, &mut script, "5A", 65_536);
    append(&rt, &mut script, "\nshow\n", 1);
    let begin = b"ok\nok\nclean=yes state=S1 submitted=1 ";
    answers(&rt, rt.alloc(), script.as_bytes(), 3, begin);
}
