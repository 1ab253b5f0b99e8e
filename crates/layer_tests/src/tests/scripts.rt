// Scripts that are run line by line, with each of their growths refused in turn. The rows in rows/sim test
// what scripts answer.

use super::common::equal;
use node_lines::{Ask, Line, NodePlayer, read_line};
use nodes::{Event, Parameter};
use script::{LinkNode, ScriptFault, fault_of};
use std::alloc::Global;
use std::process::Abort;
use streams::{Player, cut, octets_in_word};

// Runs a script, and returns whether its session had an idle start, and all its answers, in a text that grows
// from `room` octets. Returns None if it runs out of memory.
fn played(alloc: Global, script: &[u8], room: usize) -> Option<(Option<bool>, String)> {
    let mut player = NodePlayer::<LinkNode>::new();
    let mut text = String::with_capacity(alloc, room).ok()?;
    let mut rest = script;
    for _ in 0..4096 {
        let (line, after) = cut(rest, b'\n');
        let _ = player.play(alloc, line, &mut text).ok()?;
        match after {
            Some(after) => rest = after,
            None => break,
        }
    }
    Some((idle_start(&player), text))
}

fn idle_start(player: &NodePlayer<LinkNode>) -> Option<bool> {
    match player {
        NodePlayer::Made(node) => node.world().opening().map(|opening| opening.idle),
        NodePlayer::Configured(_) => None,
    }
}

// Checks the answers of a script, if they are given, and whether its session had an idle start. If memory is
// refused, the script is run again.
fn plays(
    rt: &(impl Abort + Eprint),
    alloc: Global,
    room: usize,
    script: &str,
    answers: Option<&str>,
    idle: Option<bool>,
) {
    equal(rt, &fault_in(script), &None);
    let told = match played(alloc, script.as_bytes(), room) {
        None => {
            let _ = eprintln!(rt; "refused a growth");
            played(alloc, script.as_bytes(), room)
        }
        told => told,
    };
    match told {
        Some((start, text)) => {
            equal(rt, &start, &idle);
            assert!(rt; answers.is_none_or(|answers| answers == text.as_str()));
        }
        None => assert!(rt; false),
    }
}

// Returns the fault of a script of at most 4,096 octets, if it has one.
fn fault_in(script: &str) -> Option<ScriptFault> {
    if script.len() > 4096 {
        return None;
    }
    fault_of(script.as_bytes())
}

const BOTH_WAYS: [&str; 2] = [
    "# a packet goes up, and one comes down\nconfig limit 2\ninit none\nsubmit 4 1005c0000000AA\nsend\n\
     up deliver\ntake\ntake\ntelemetry 0005c0000000AA\nreport\ndown deliver\nwindow 0\nshow",
    "ok\nok\nsent 0001080E00C41005C0000000AAE75D\nAD 0 accepted ready\n\
     packet 4 1005C0000000AA\nnothing\nok\nreport 01080001\ngap=- packets=1\nrefused 2 Window\n\
     clean=yes state=S1 submitted=1 delivered=1 sent=1 accepted=1 acknowledged=1 outstanding=0\n",
];

#[test]
fn scripts_that_are_played(rt: HostRuntime) {
    let [script, answers] = BOTH_WAYS;
    for room in [0, 4096] {
        plays(&rt, rt.alloc(), room, script, Some(answers), Some(true));
    }
}

// A stale CLCW confirms a session that did not begin clean.
const A_STALE_REPORT: &str = "init none\nreport\nsubmit 4 1005C0000000AA\nsend\nup deliver\n\
    terminate\ninit set 0\nsend\nup lose\ndown deliver\nsubmit 4 1005C0000000AA\nsend\nup deliver\n\
    report\ndown deliver\n";

// CLCWs are in transit when the session begins, two of them with another FARM-B. Each has the report value
// and the flags of the receiver's current state.
const FOUR_REPORTS_ON_THEIR_WAY: &str = "report\nreport\nbypass 4 1005C0000000AA\nsend\n\
    up deliver\nreport\nreport\ninit check\ndown deliver\ndown deliver\ndown deliver\ndown deliver\n";

// An old CLCW differs from the receiver's current one only in its Retransmit flag.
const AN_OLD_FLAG: &str = "init none\nreport\nsubmit 4 1005C0000000AA\nsubmit 4 1005C0010000AB\n\
    send\nsend\nup lose\nup deliver\nterminate\nvs 0\ninit check\ndown deliver\nreport\ndown deliver\n";

// One frame of three is accepted, and a CLCW that shows it is in transit when the next session begins.
const ONE_OF_THREE_ACCEPTED: &str =
    "config limit 1\nconfig timer 1\ninit check\nreport\ndown deliver\n\
    submit 4 1005C0000000AA\nsubmit 4 1005C0010000AB\nsubmit 4 1005C0020000AC\nsend\nsend\nsend\n\
    up deliver\nup lose\nup lose\ntick\nreport\nreport\ndown deliver\ninit set 3\nsend\ndown deliver\n\
    up deliver\nreport\ndown deliver\n";

#[test]
fn idle_starts(rt: HostRuntime) {
    for (script, idle) in [
        ("show\n", None),
        (A_STALE_REPORT, Some(false)),
        (FOUR_REPORTS_ON_THEIR_WAY, Some(true)),
        (AN_OLD_FLAG, Some(false)),
        (ONE_OF_THREE_ACCEPTED, Some(true)),
    ] {
        plays(&rt, rt.alloc(), 4096, script, None, idle);
    }
}

// Single lines, and scripts that are not run. No memory is needed to find their faults.
#[test]
fn lines_that_are_read(rt: HostRuntime) {
    reads_lines(&rt);
    for (script, want) in [
        (
            "# a note\nsubmit 4 -\nsubmit 04 -\n",
            ScriptFault::Unreadable(3, "it is not submit M HEX"),
        ),
        (
            "config window 1\nconfig window 128\n",
            ScriptFault::OutOfRange("window"),
        ),
    ] {
        equal(&rt, &fault_in(script), &Some(want));
    }
}

fn reads_lines(rt: &impl Abort) {
    assert!(rt;
        matches!(
            read_line(b"submit 4 0f"),
            Line::Asking(Ask::Happening(Event::Submit(4, b"0f")))
        )
    );
    assert!(rt;
        matches!(
            read_line(b"config maps 18446744073709551615"),
            Line::Setting(Parameter::Maps, u64::MAX)
        )
    );
    assert!(rt; matches!(read_line(b"submit 4 0F "), Line::Unreadable));
    assert!(rt; matches!(read_line(b"# submit"), Line::Skipped));
}

// Words that are octets, and words that are not.
#[test]
fn words_of_octets(rt: HostRuntime) {
    for (word, octets) in [
        (&b"-"[..], Some(&[][..])),
        (b"0f", Some(&[0x0f])),
        (b"0FaB", Some(&[0x0f, 0xab])),
        (b"", None),
        (b"0", None),
        (b"0g", None),
        (b"--", None),
    ] {
        are_in_word(&rt, rt.alloc(), word, octets);
    }
}

fn are_in_word(rt: &(impl Abort + Eprint), alloc: Global, word: &[u8], octets: Option<&[u8]>) {
    match octets_again(rt, alloc, word) {
        Some(found) => equal(rt, &Some(found.as_slice()), &octets),
        None => equal(rt, &None, &octets),
    }
}

fn octets_again(rt: &(impl Abort + Eprint), alloc: Global, word: &[u8]) -> Option<Vec<u8>> {
    match octets_in_word(alloc, word) {
        Ok(octets) => octets,
        Err(_) => {
            let _ = eprintln!(rt; "refused a growth");
            octets_in_word(alloc, word).expect(rt, "octets")
        }
    }
}
