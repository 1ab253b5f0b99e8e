// Telemetry frames and CLCWs from the spacecraft.

ghost use Rattle.std.specs.Prelude.{◌≡◌, ◌&&◌, not, None};
ghost use Rattle.nodes.specs.Fates.{shows_one};

use super::Ground;
use super::fates::take_segments;
use crate::fault::LinkFault;
use crate::heard::{Heard, HeardClcw, HeardReport};
use clcw::{Clcw, ClcwFault};
use cop1::Alert;
use tm_link::{Gap, TmFrame, decode};

impl Ground {
    ghost use Rattle.std.specs.Prelude.{◌≡◌, [], IsOk, IfOk, IfErr, OnOk, OnErr, IsTrue, length};
    ghost use Rattle.tm_link.specs.Extractor.{extract_step};
    ghost use Rattle.tm_link.specs.Layout.{frame_view, pointer_fits};
    ghost use Rattle.tm_link.specs.Decoding.{frame_at};
    ghost use Rattle.nodes.specs.Ground.{ground_step, Telemetry, ControlWord, ForgetTelemetry, report_outcome};
    ghost use Rattle.nodes.specs.Ground.{is_own_telemetry, after_extraction, FinishesNothing};
    ghost use Rattle.nodes.specs.Steps.{TakesStep};

    /// Accepts octets from the spacecraft: exactly one telemetry frame (CCSDS 132.0-B-3, 4.1). The packets
    /// that the frame finishes wait to be taken. Its CLCW goes to the sender if it is of this virtual
    /// channel. All memory is allocated first: at a fault the ground is unchanged.
    /// Faults: 6 Memory. Memory: only where a packet is finished. Cost: n, the packets finished and the
    /// segments released.
    pub fn telemetry(&mut self, octets: &[u8]) -> Result<Heard, LinkFault>
        ensures step { TakesStep (ground_step self.old (Telemetry octets.now)) self.old self.new result }

        // It takes no memory if the octets do not form a valid frame, if the frame is of another channel
        // or spacecraft, or if it finishes no packet.
        ensures none { FinishesNothing self.old (frame_at self.old.config.frame_length octets.now)
            → IsOk result }
    {
        let frame = match decode(octets, self.config.frame_length as usize) {
            Ok(frame) => frame,
            Err(fault) => return Ok(Heard::Invalid(fault)),
        };
        if !self.is_own_telemetry(&frame) {
            return Ok(Heard::Foreign);
        }
        let (gap, packets) = self.extract(&frame)?;
        let HeardClcw { report, alert } = self.report(frame.report());
        Ok(Heard::Frame {
            gap,
            packets,
            report,
            alert,
        })
    }

    /// Accepts a CLCW without a telemetry frame, as a front end forwards it (CCSDS 232.0-B-4, 4.2.1). The
    /// CLCW goes to the sender if it is of this virtual channel, like the CLCW of a telemetry frame.
    /// Telemetry is not affected. A front end may repeat the last CLCW until the next one; that changes
    /// nothing. It must not repeat an older CLCW as if it were new.
    /// Cost: the number of segments released.
    pub fn clcw(&mut self, octets: [u8; 4]) -> HeardClcw
        ensures answer { result ≡ (ground_step self.old (ControlWord octets)).answer }
        ensures after { self.new ≡ (ground_step self.old (ControlWord octets)).after }
    {
        self.report(clcw::decode(octets))
    }

    /// Resets the extraction of packets from telemetry, for example after a spacecraft was restarted and its
    /// frame counts have jumped. An unfinished packet is dropped, and the next frame counts as the first
    /// (CCSDS 132.0-B-3, 4.3.2). Packets that wait to be taken stay.
    pub fn forget_telemetry(&mut self)
        ensures { self.new ≡ (ground_step self.old ForgetTelemetry).after }
    {
        self.extractor.forget();
    }

    // Passes a CLCW to the sender if it is of this virtual channel.
    fn report(&mut self, word: Result<Clcw, ClcwFault>) -> HeardClcw
        ensures answer { result ≡ (report_outcome self.old word).answer }
        ensures after { self.new ≡ (report_outcome self.old word).after }
    {
        let word = match word {
            Err(fault) => return unused(HeardReport::Refused(fault)),
            Ok(word) => word,
        };
        if u32::from(word.vcid) != self.config.vcid {
            return unused(HeardReport::OtherChannel);
        }
        let nn = self.fop.nn();
        let alert = self.fop.clcw(&word);
        let whole = take_segments(&mut self.left, self.fop.nn().wrapping_sub(nn));
        self.acknowledged = self.acknowledged.wrapping_add(whole as u64);
        self.kept = kept_beside(self.kept, alert);
        self.refill();
        HeardClcw {
            report: HeardReport::Used,
            alert,
        }
    }

    fn is_own_telemetry(&self, frame: &TmFrame<'_>) -> bool
        ensures { result ≡ is_own_telemetry self.now.config (frame_view frame.now) }
    {
        u32::from(frame.scid) == self.config.scid && u32::from(frame.vcid) == self.config.tm_vcid
    }

    // Extracts the packets that the frame finishes. Returns how many frames are missing before it, and the
    // number of packets.
    fn extract(&mut self, frame: &TmFrame<'_>) -> Result<(Gap, usize), LinkFault>
        requires { IsTrue (pointer_fits frame.now.pointer (length frame.now.payload.now)) }
        ensures gap { IfOk result
            (λ r. r.0 ≡ (extract_step self.old.extractor (frame_view frame.now)).gap) }
        ensures count { IfOk result
            (λ r. r.1 ≡ length (extract_step self.old.extractor (frame_view frame.now)).packets) }
        ensures after { OnOk result (self.new
            ≡ after_extraction self.old (extract_step self.old.extractor (frame_view frame.now))) }
        ensures err { OnErr result (self.new ≡ self.old) }
        ensures fault { IfErr result (λ e. e ≡ LinkFault.Memory) }
        ensures none { (extract_step self.old.extractor (frame_view frame.now)).packets ≡ []
            → IsOk result }
    {
        let before = self.finished.len();
        let Ok(gap) = self.extractor.frame(frame, &mut self.finished) else {
            return Err(LinkFault::Memory);
        };
        Ok((gap, self.finished.len() - before))
    }
}

// Returns whether the session's progress is still known. It is not after an alert that shows a broken
// condition.
fn kept_beside(kept: bool, alert: Option<Alert>) -> bool
    ensures { result ≡ not (shows_one alert) && kept }
{
    match alert {
        Some(alert) => !alert.shows_a_broken_condition() && kept,
        None => kept,
    }
}

// Returns the result for a CLCW that does not reach the sender.
fn unused(report: HeardReport) -> HeardClcw
    ensures { result ≡ record { report = report; alert = None } }
{
    HeardClcw {
        report,
        alert: None,
    }
}
