// Calls of the nodes that put no frame in transit.

ghost use Rattle.std.specs.Prelude.{◌≡◌, option_map};
ghost use Rattle.nodes.specs.Packets.{packet_view};
ghost use Rattle.simulated_link.specs.Replies.{reply_view, reply_to_alert, reply_to_taking};
ghost use Rattle.cop1.specs.FopDirective.{is_initiation};
ghost use Rattle.std.specs.List.{list_all};
ghost use Rattle.tm_link.specs.Extractor.{octets_of};
ghost use Rattle.tm_link.specs.Decoding.{frame_at};
ghost use Rattle.simulated_link.specs.World.{reports_as};

use super::World;
use crate::fault::SimFault;
use crate::map_lists::no_packets;
use crate::reply::{NodeFault, Reply};
use crate::session_start::Opening;
use clcw::Clcw;
use cop1::{Alert, Directive};
use nodes::Event;
use std::collections::VecDeque;
use tm_link::TmFault;

impl World {
    ghost use Rattle.std.specs.Prelude.{◌≡◌, [], Some};
    ghost use Rattle.simulated_link.specs.Events.{IsReplyTo, LetsHappen};
    ghost use Rattle.simulated_link.specs.World.{world_step, is_quiet, may_begin, begins_clean, is_idle, begins_idle, session_begun};

    pub(crate) fn directive(&mut self, directive: Directive) -> Reply
        ensures reply { IsReplyTo self.old (Event.Directive directive) result }
        ensures after { self.new ≡ (world_step self.old (Event.Directive directive)).after }
    {
        let clean = self.begins_clean(directive);
        let idle = self.begins_idle(directive);
        match self.ground_node.directive(directive) {
            Ok(alert) => {
                if is_initiation(directive) {
                    self.begin(directive, clean, idle);
                }
                reply_to_alert(alert)
            }
            Err(fault) => Reply::Refused(NodeFault::Cop(fault)),
        }
    }

    pub(crate) fn resume(&mut self, value: u8) -> Reply
        ensures reply { IsReplyTo self.old (Event.Resume value) result }
        ensures after { self.new ≡ (world_step self.old (Event.Resume value)).after }
    {
        let clean = self.is_quiet();
        let idle = self.is_idle();
        match self.ground_node.resume(value) {
            Ok(whole) => {
                self.begin(Directive::InitUnlock, clean, idle);
                Reply::Resumed(whole)
            }
            Err(fault) => Reply::Refused(NodeFault::Link(fault)),
        }
    }

    pub(crate) fn tick(&mut self) -> Reply
        ensures reply { IsReplyTo self.old Event.Tick result }
        ensures after { self.new ≡ (world_step self.old Event.Tick).after }
    {
        reply_to_alert(self.ground_node.tick())
    }

    pub(crate) fn take(&mut self) -> Reply
        ensures reply { IsReplyTo self.old Event.Take result }
        ensures after { self.new ≡ (world_step self.old Event.Take).after }
    {
        reply_to_taking(self.spacecraft.take())
    }

    pub(crate) fn take_bypass(&mut self) -> Reply
        ensures reply { IsReplyTo self.old Event.TakeBypass result }
        ensures after { self.new ≡ (world_step self.old Event.TakeBypass).after }
    {
        reply_to_taking(self.spacecraft.take_bypass())
    }

    pub(crate) fn telemetry(&mut self, packet: &[u8]) -> Result<Reply, SimFault>
        ensures { LetsHappen (Event.Telemetry packet.entry) self.old self.new result }
    {
        match self.spacecraft.telemetry(packet) {
            Ok(()) => Ok(Reply::Done),
            Err(TmFault::Memory) => Err(SimFault::Memory),
            Err(fault) => Ok(Reply::Refused(NodeFault::Tm(fault))),
        }
    }

    fn is_quiet(&self) -> bool
        ensures { result ≡ is_quiet self.now }
    {
        self.up.is_empty() && self.down.is_empty()
    }

    fn may_begin(&self, directive: Directive) -> bool
        ensures { result ≡ may_begin self.now directive }
    {
        match directive {
            Directive::InitWithoutCheck => {
                self.spacecraft.control_word().value == self.ground_node.vs()
            }
            _ => is_initiation(directive),
        }
    }

    fn begins_clean(&self, directive: Directive) -> bool
        ensures { result ≡ begins_clean self.now directive }
    {
        self.may_begin(directive) && self.is_quiet()
    }

    fn is_idle(&self) -> bool
        ensures { result ≡ is_idle self.now }
    {
        let now = self.spacecraft.control_word();
        self.up.is_empty() && all_report_as(&self.down, self.ground_node.frame_length(), now)
    }

    fn begins_idle(&self, directive: Directive) -> bool
        ensures { result ≡ begins_idle self.now directive }
    {
        self.may_begin(directive) && self.is_idle()
    }

    fn begin(&mut self, directive: Directive, clean: bool, idle: bool)
        requires { self.old.ground_node.fop.sent ≡ [] }
        ensures { self.new ≡ record self.old {
          session = session_begun self.old
              (record { directive = directive; clean = clean; idle = idle });
        } }
    {
        self.session.opening = Some(Opening {
            directive,
            clean,
            idle,
        });
        self.session.confirmed = false;
        self.session.submissions.clear();
        self.session.submitted = no_packets(self.alloc);
        self.session.delivered = no_packets(self.alloc);
        self.session.sent.clear();
        self.session.acknowledged = 0;
        self.session.before = self.accepted.len();
    }
}

// Returns whether each is a telemetry frame whose CLCW has the value and the flags of this one.
fn all_report_as(down: &VecDeque<Vec<u8>>, total: usize, now: Clcw) -> bool
    ensures { result ≡ list_all (λ octets. reports_as now (frame_at total octets))
        (octets_of down.now.items) }
{
    for octets in down {
        if !reports_as(octets, total, now) {
            return false;
        }
    }
    true
}

// Returns whether the octets are a telemetry frame whose CLCW has the value and the flags of this one.
fn reports_as(octets: &[u8], total: usize, now: Clcw) -> bool
    ensures { result ≡ reports_as now (frame_at total octets.now) }
{
    let Ok(frame) = tm_link::decode(octets, total) else {
        return false;
    };
    match frame.report() {
        Ok(report) => report.value == now.value && report.flags == now.flags,
        Err(_) => false,
    }
}

fn is_initiation(directive: Directive) -> bool
    ensures { result ≡ is_initiation directive }
{
    match directive {
        Directive::InitWithoutCheck
        | Directive::InitWithCheck
        | Directive::InitUnlock
        | Directive::InitSetVr(_) => true,
        _ => false,
    }
}

fn reply_to_alert(alert: Option<Alert>) -> Reply
    ensures { reply_view result ≡ reply_to_alert alert }
{
    match alert {
        None => Reply::Done,
        Some(alert) => Reply::Alert(alert),
    }
}

fn reply_to_taking(packet: Option<(u8, Vec<u8>)>) -> Reply
    ensures { reply_view result ≡ reply_to_taking (option_map packet_view packet) }
{
    match packet {
        None => Reply::Nothing,
        Some((map, mut octets)) => {
            octets.shrink_to_fit();
            Reply::Packet(map, octets)
        }
    }
}
