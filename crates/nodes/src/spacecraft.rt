// The node on board.

ghost use Rattle.std.specs.Prelude.{◌≡◌, ◌<◌};
ghost use Rattle.cop1.specs.Farm.{IsWidth, new_farm};
ghost use Rattle.nodes.specs.SpacecraftBounds.{most_ready};

mod accepted;
mod arrival;
mod receive;

use crate::config::Config;
use crate::fault::LinkFault;
use crate::map_packet::MapPacket;
use crate::segment_log::SegmentLog;
use crate::valid_config::ValidConfig;
pub use arrival::Arrival;
use circular_buffer::HeapCircularBuffer;
use clcw::{Clcw, encode};
use cop1::{Farm, FarmFields, FarmMode};
use map_service::Assembler;
use std::alloc::Global;
use std::collections::VecDeque;
use std::marker::Model;
use tm_link::{TmBuilder, TmFault};

/// The numbers with which a spacecraft continues after a restart on purpose. The program keeps them during
/// the restart. They are those of its receiver (CCSDS 232.1-B-2, 6.1) and of its telemetry frames (CCSDS
/// 132.0-B-3, 4.1.2).
#[derive(Clone, Copy, Debug, PartialEq, Eq)]
pub struct KeptNumbers {
    /// V(R), the number of the next frame to be accepted.
    pub vr: u8,
    /// FARM-B, the count of Type-B frames modulo 4, 0 to 3.
    pub farm_b: u8,
    /// The next telemetry frame's count on the master channel.
    pub mc_count: u8,
    /// The next telemetry frame's count on the virtual channel.
    pub vc_count: u8,
}

/// The node on board. It receives telecommand frames, keeps their packets until they are taken, and sends
/// telemetry frames with the receiver's CLCW.
#[derive(Drop)]
pub struct Spacecraft {
    alloc: Global,
    config: Config,
    farm: Farm,
    assembler: Assembler,
    accepted: SegmentLog,
    ready: VecDeque<MapPacket>,
    bypass: HeapCircularBuffer<MapPacket>,
    builder: TmBuilder,
}

impl Model for Spacecraft {
    ghost use Rattle.nodes.specs.Spacecraft.{SpacecraftState};

    ghost Value = { SpacecraftState };

    ghost use Rattle.nodes.specs.SpacecraftFields.{state_of, IsSound};

    ghost view = { state_of };

    ghost invariant = { IsSound };
}

impl Spacecraft {
    ghost use Rattle.std.specs.Prelude.{◌≡◌, ◌≤◌, ◌<◌, ◌+◌, ◌++◌, drop, take, length, Ok, option_map, IfOk, IfSome, IfErr, OnOk, OnErr, IsOkUnless, IsTrue};
    ghost use Rattle.clcw.specs.Encoding.{fits};
    ghost use Rattle.cop1.specs.Report.{report_of};
    ghost use Rattle.tm_link.specs.Builder.{queue_fault};
    ghost use Rattle.tm_link.specs.Layout.{IsTmFrame};
    ghost use Rattle.tm_link.specs.Encoding.{spelling};
    ghost use Rattle.nodes.specs.Spacecraft.{new_spacecraft, restarted_spacecraft, kept_numbers, spacecraft_step, Take, TakeBypass, Telemetry, Report, IsOwnFrame};
    ghost use Rattle.nodes.specs.PacketFields.{IsPacketOn};
    ghost use Rattle.nodes.specs.Packets.{packet_view, lent_packet};
    ghost use Rattle.nodes.specs.Parameters.{IsConfig};
    ghost use Rattle.nodes.specs.SpacecraftBounds.{IsBounded};

    /// Returns a spacecraft that has received nothing. Each field must be in range. If the configuration
    /// is known only at run time, use `Config::valid` and `of`.
    /// Faults: 6 Memory. Memory: yes.
    pub fn new(alloc: Global, config: &Config) -> Result<Spacecraft, LinkFault>
        requires { IsConfig config.now }
        ensures made { IfOk result (λ spacecraft. spacecraft ≡ new_spacecraft config.now) }
        ensures fault { IsOkUnless result LinkFault.Memory }
    {
        Spacecraft::of(alloc, &ValidConfig::of(config))
    }

    /// Returns a spacecraft as `new` does, from a configuration that `Config::valid` returned. The
    /// call has no precondition.
    /// Faults: 6 Memory. Memory: yes.
    pub fn of(alloc: Global, valid: &ValidConfig) -> Result<Spacecraft, LinkFault>
        ensures made { IfOk result (λ spacecraft. spacecraft ≡ new_spacecraft valid.now) }
        ensures fault { IsOkUnless result LinkFault.Memory }
    {
        let first = KeptNumbers {
            vr: 0,
            farm_b: 0,
            mc_count: 0,
            vc_count: 0,
        };
        Spacecraft::restarted(alloc, valid.config(), first)
    }

    /// Returns a spacecraft that continues with the numbers that `kept_numbers` returned before a restart on
    /// purpose: V(R), FARM-B and the counts of telemetry frames. Its receiver is open with no flag set, and
    /// no packet or part of a packet is on board. Each field of the configuration must be in range, and
    /// FARM-B must be below 4.
    /// Faults: 6 Memory. Memory: yes.
    pub fn restarted(
        alloc: Global,
        config: &Config,
        kept: KeptNumbers,
    ) -> Result<Spacecraft, LinkFault>
        requires config { IsConfig config.now }
        requires farm_b { kept.farm_b < 4 }
        ensures made { IfOk result
            (λ spacecraft. spacecraft ≡ restarted_spacecraft config.now kept) }
        ensures fault { IsOkUnless result LinkFault.Memory }
    {
        let farm = farm_with(config.width as u8, kept);
        let scid = config.scid as u16;
        let vcid = config.tm_vcid as u8;
        let total = config.frame_length as usize;
        let Ok(builder) = TmBuilder::with_counts(
            alloc,
            scid,
            vcid,
            total,
            kept.mc_count,
            kept.vc_count,
        ) else {
            unreachable!()
        };
        let Ok(ready) = VecDeque::with_capacity(alloc, most_ready(config)) else {
            return Err(LinkFault::Memory);
        };
        let slots = config.bypass_slots as usize;
        let Ok(bypass) = HeapCircularBuffer::with_capacity(alloc, slots) else {
            return Err(LinkFault::Memory);
        };
        Ok(Spacecraft {
            alloc,
            config: *config,
            farm,
            assembler: Assembler::new(alloc, config.limits()),
            accepted: SegmentLog::new(),
            ready,
            bypass,
            builder,
        })
    }

    /// Returns the current numbers, with which `restarted` continues.
    pub fn kept_numbers(&self) -> KeptNumbers
        ensures numbers { result ≡ kept_numbers self.now }

        // So `restarted` accepts them.
        ensures farm_b { result.farm_b < 4 }
    {
        let farm = self.farm.fields();
        KeptNumbers {
            vr: farm.vr,
            farm_b: farm.farm_b,
            mc_count: self.builder.mc_count(),
            vc_count: self.builder.vc_count(),
        }
    }

    /// Lends the packet that `take` would take next, with its MAP. The packet has at most `max_packet`
    /// octets. The spacecraft does not change.
    pub fn peek(&self) -> Option<(u8, &[u8])>
        ensures answer { option_map lent_packet result ≡ (spacecraft_step self.now Take).answer }
        ensures within { IfSome result (λ p. length p.1.now ≤ self.now.config.max_packet) }
    {
        match self.ready.front() {
            Some(packet) => Some(packet.parts()),
            None => None,
        }
    }

    /// Lends the packet that `take_bypass` would take next, with its MAP. The packet has at most
    /// `max_packet` octets. The spacecraft does not change.
    pub fn peek_bypass(&self) -> Option<(u8, &[u8])>
        ensures answer { option_map lent_packet result
            ≡ (spacecraft_step self.now TakeBypass).answer }
        ensures within { IfSome result (λ p. length p.1.now ≤ self.now.config.max_packet) }
    {
        match self.bypass.front() {
            Some(packet) => Some(packet.parts()),
            None => None,
        }
    }

    /// Takes the oldest packet from sequence-controlled frames, with its MAP (CCSDS 232.0-B-4, 4.4). The
    /// packet has at most `max_packet` octets. There is room on board again if fewer packets than the
    /// ready slots are then left.
    pub fn take(&mut self) -> Option<(u8, Vec<u8>)>
        ensures answer { option_map packet_view result ≡ (spacecraft_step self.old Take).answer }
        ensures after { self.new ≡ (spacecraft_step self.old Take).after }

        // The octets are exactly one packet, on one of the 64 MAPs.
        ensures packet { IfSome result (λ p. IsPacketOn (packet_view p)) }
        ensures within { IfSome result (λ p. length p.1.items ≤ self.old.config.max_packet) }
    {
        let Some(packet) = self.ready.pop_front() else {
            return None;
        };
        if self.ready.len() < self.config.ready_slots as usize {
            self.farm.released();
        }
        Some(packet.into_parts())
    }

    /// Takes the oldest packet from Type-BD frames, with its MAP (CCSDS 232.0-B-4, 4.4). The packet has at
    /// most `max_packet` octets.
    pub fn take_bypass(&mut self) -> Option<(u8, Vec<u8>)>
        ensures answer { option_map packet_view result
            ≡ (spacecraft_step self.old TakeBypass).answer }
        ensures after { self.new ≡ (spacecraft_step self.old TakeBypass).after }

        // The octets are exactly one packet, on one of the 64 MAPs.
        ensures packet { IfSome result (λ p. IsPacketOn (packet_view p)) }
        ensures within { IfSome result (λ p. length p.1.items ≤ self.old.config.max_packet) }
    {
        match self.bypass.pop_front() {
            Some(packet) => Some(packet.into_parts()),
            None => None,
        }
    }

    /// Queues a packet to be sent as telemetry (CCSDS 132.0-B-3, 4.2.2). Refuses an idle packet, and octets
    /// that are not exactly one packet. At a fault the spacecraft is unchanged.
    /// Faults: those of `TmFault`, 8 NotAPacket, then 7 Memory. Memory: yes. Cost: n*.
    pub fn telemetry(&mut self, packet: &[u8]) -> Result<(), TmFault>
        ensures ok { OnOk result
            (self.new ≡ (spacecraft_step self.old (Telemetry packet.now)).after) }
        ensures taken { OnOk result
            ((spacecraft_step self.old (Telemetry packet.now)).answer ≡ Ok tt) }
        ensures err { OnErr result (self.new ≡ self.old) }
        ensures fault { IfErr result (λ e. e ≡ queue_fault packet.now) }
    {
        self.builder.queue(packet)
    }

    /// Returns how many packets from sequence-controlled frames wait to be taken.
    #[tactic(auto, using(crate::proofs::SpacecraftBounds::bounded))]
    pub fn ready(&self) -> usize
        ensures count { result ≡ length self.now.ready }

        // One frame adds at most 145 packets, and only while fewer wait than there are slots.
        ensures most { result ≤ self.now.config.ready_slots + 144 }
        ensures unblocked { self.now.config.blocking ≡ 0 → result ≤ self.now.config.ready_slots }

        // The configuration bounds what a spacecraft holds.
        ensures bounds { IsBounded self.now }
    {
        self.ready.len()
    }

    /// Returns how many packets from Type-BD frames wait to be taken.
    pub fn bypassed(&self) -> usize
        ensures count { result ≡ length self.now.bypass }
        ensures most { result ≤ self.now.config.bypass_slots }
    {
        self.bypass.len()
    }

    /// Returns the length of a telemetry frame in octets.
    pub fn frame_length(&self) -> usize
        ensures { result ≡ self.now.config.frame_length }
    {
        self.config.frame_length as usize
    }

    /// Returns the receiver's state (CCSDS 232.1-B-2, 6.1.2).
    pub fn state(&self) -> FarmMode
        ensures { result ≡ self.now.farm.state }
    {
        self.farm.state()
    }

    /// Returns the receiver's CLCW, which the next telemetry frame carries (CCSDS 232.0-B-4, 4.2).
    pub fn control_word(&self) -> Clcw
        ensures report { result ≡ report_of self.now.farm self.now.config.vcid }
        ensures fits { IsTrue (fits result) }
    {
        self.farm.report(self.config.vcid as u8)
    }

    /// Writes the next telemetry frame, with the receiver's CLCW, at the beginning of `out` (CCSDS
    /// 132.0-B-3, 4.1). Returns the frame's length in octets. The octets of `out` after it do not change.
    /// Cost: n and the number of packets that end in the frame.
    pub fn report(&mut self, out: &mut [u8; 2048]) -> usize
        ensures count { result ≡ self.old.config.frame_length }
        ensures frame { out.new
            ≡ spelling (spacecraft_step self.old Report).answer ++ drop result out.old }
        ensures after { self.new ≡ (spacecraft_step self.old Report).after }

        // So the octets encode this frame, of the spacecraft's own channel.
        ensures spells { IsTmFrame result (spacecraft_step self.old Report).answer
            (take result out.new) }
        ensures own { IsOwnFrame self.old.config (spacecraft_step self.old Report).answer }
    {
        let Ok(ocf) = encode(&self.control_word()) else {
            unreachable!()
        };
        self.builder.build(ocf, out)
    }

    /// Does what `report` does; `out` must have at least the length of a telemetry frame.
    /// Cost: n and the number of packets that end in the frame.
    pub fn report_in(&mut self, out: &mut [u8]) -> usize
        requires room { self.old.config.frame_length ≤ length out.old }
        ensures count { result ≡ self.old.config.frame_length }
        ensures frame { out.new
            ≡ spelling (spacecraft_step self.old Report).answer ++ drop result out.old }
        ensures after { self.new ≡ (spacecraft_step self.old Report).after }

        // So the octets encode this frame, of the spacecraft's own channel.
        ensures spells { IsTmFrame result (spacecraft_step self.old Report).answer
            (take result out.new) }
        ensures own { IsOwnFrame self.old.config (spacecraft_step self.old Report).answer }
    {
        let Ok(ocf) = encode(&self.control_word()) else {
            unreachable!()
        };
        self.builder.build_in(ocf, out)
    }
}

// Returns for how many waiting packets there is room. With blocking, one frame makes at most 145 packets
// ready: its segment has at most 1,016 octets of data, and a packet has at least 7.
fn most_ready(config: &Config) -> usize
    ensures { result ≡ most_ready config.now }
{
    let slots = config.ready_slots as usize;
    if config.blocking == 1 {
        slots + 144
    } else {
        slots
    }
}

// Returns a receiver that is open with no flag set, and continues with these numbers.
fn farm_with(width: u8, kept: KeptNumbers) -> Farm
    requires width { IsWidth width }
    requires farm_b { kept.farm_b < 4 }
    ensures { result ≡ record (new_farm width kept.vr) { farm_b = kept.farm_b } }
{
    let fields = FarmFields {
        width,
        vr: kept.vr,
        lockout: false,
        wait: false,
        retransmit: false,
        farm_b: kept.farm_b,
    };
    let Ok(farm) = Farm::restore(fields) else {
        unreachable!()
    };
    farm
}
