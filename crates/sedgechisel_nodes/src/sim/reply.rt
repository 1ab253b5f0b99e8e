// What a program in C learns of an event.

ghost use Rattle.std.specs.Prelude.{◌≡◌};
ghost use Rattle.simulated_link.specs.Replies.{reply_view};
ghost use Rattle.sedgechisel_nodes.specs.Links.{no_reply, refused_by, reply_kept, reply_octets};

use crate::ground_telemetry::{KeptHeard, kept_heard, kept_word, number_of_alert};
use crate::spacecraft::{KeptReceived, kept_received};
use clcw::Clcw;
use std::alloc::Global;
use tc_link::{NodeFault, Reply};

/// A reply: its kind, and the fields of that kind; the rest is 0. For C it is `struct sedge_reply`.
#[repr(C)]
#[derive(Clone, Copy, Default)]
pub struct KeptReply {
    /// The number of octets of the frame that was sent, or of the packet.
    pub count: usize,
    /// How many submissions of the ended session are on board whole.
    pub whole: u64,
    pub up: KeptReceived,
    pub down: KeptHeard,
    pub report: Clcw,
    /// Of `sedge_reply_kind`.
    pub kind: u8,
    /// Of `sedge_refused_by`.
    pub by: u8,
    /// The number of the refusal, of the enumeration that `by` selects.
    pub fault: u8,
    /// Of `sedge_alert`.
    pub alert: u8,
    /// The MAP of the packet.
    pub map: u8,
}

fn part_refusing(fault: NodeFault) -> (u8, u8)
    ensures { result ≡ refused_by fault }
{
    match fault {
        NodeFault::Link(fault) => (1, fault.number()),
        NodeFault::Cop(fault) => (2, fault.number()),
        NodeFault::Tm(fault) => (3, fault.number()),
    }
}

// The reply with only its kind.
fn reply_of(kind: u8) -> KeptReply
    ensures { result ≡ record no_reply { kind = kind } }
{
    KeptReply {
        kind,
        ..KeptReply::default()
    }
}

pub(crate) fn kept_reply(reply: &Reply) -> KeptReply
    ensures { result ≡ reply_kept (reply_view reply.now) }
{
    match reply {
        Reply::Done => reply_of(0),
        Reply::Nothing => reply_of(1),
        Reply::Lost => reply_of(2),
        Reply::Refused(fault) => {
            let (by, fault) = part_refusing(*fault);
            KeptReply {
                by,
                fault,
                ..reply_of(3)
            }
        }
        Reply::Alert(alert) => KeptReply {
            alert: number_of_alert(Some(*alert)),
            ..reply_of(4)
        },
        Reply::Sent(octets) => KeptReply {
            count: octets.len(),
            ..reply_of(5)
        },
        Reply::Reported(word) => KeptReply {
            report: *word,
            ..reply_of(6)
        },
        Reply::Up(received) => KeptReply {
            up: kept_received(*received),
            ..reply_of(7)
        },
        Reply::Down(heard) => KeptReply {
            down: kept_heard(*heard),
            ..reply_of(8)
        },
        Reply::DownClcw(heard) => KeptReply {
            down: kept_word(*heard),
            ..reply_of(10)
        },
        Reply::Resumed(whole) => KeptReply {
            whole: *whole,
            ..reply_of(11)
        },
        Reply::Packet(map, octets) => KeptReply {
            map: *map,
            count: octets.len(),
            ..reply_of(9)
        },
    }
}

// The octets of the frame that was sent, or of the packet that was taken.
pub(crate) fn octets_of(alloc: Global, reply: Reply) -> Vec<u8>
    ensures { result.items ≡ reply_octets (reply_view reply) }
{
    match reply {
        Reply::Sent(octets) => octets,
        Reply::Packet(_, octets) => octets,
        _ => Vec::new(alloc),
    }
}
