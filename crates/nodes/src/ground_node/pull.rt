// The next frame for the spacecraft.

ghost use Rattle.std.specs.Prelude.{◌≡◌, true, Some};
ghost use Rattle.tc_frame.specs.Layout.{frame_view};
ghost use Rattle.tc_frame.specs.Encoding.{frame_fits};
ghost use Rattle.nodes.specs.Frames.{size_of, written_over, BeginsWith};

use super::Ground;
use cop1::Pulled;
use tc_frame::{Body, Check, TcFrame, encode};

impl Ground {
    ghost use Rattle.std.specs.Prelude.{option_map, IfSome};
    ghost use Rattle.nodes.specs.Ground.{ground_step, Pull};

    /// Lends the next frame to be sent (CCSDS 232.0-B-4, 4.1): a control command, a bypass segment
    /// (Type-BD), or a segment with its number N(S). The ground does not change.
    pub fn peek(&self) -> Option<TcFrame<'_>>
        ensures frame { option_map frame_view result ≡ (ground_step self.now Pull).answer }
        ensures fits { IfSome result (λ f. frame_fits Check.On (frame_view f) ≡ true) }
    {
        let body = match self.fop.peek() {
            Pulled::Nothing => return None,
            Pulled::Control(command) => Body::Bc(command),
            Pulled::Bypass(unit) => Body::Bd {
                segment: unit.segment(),
            },
            Pulled::Sequence(n, unit) => Body::Ad {
                n,
                segment: unit.segment(),
            },
        };
        Some(TcFrame {
            scid: self.config.scid as u16,
            vcid: self.config.vcid as u8,
            body,
        })
    }

    /// Takes the next frame to be sent, and writes it with its FECF at the beginning of `out` (CCSDS
    /// 232.0-B-4, 4.1). Returns the length of the frame in octets, or None if there is no frame. The
    /// other octets of `out` do not change.
    /// Cost: n.
    pub fn pull(&mut self, out: &mut [u8; 1024]) -> Option<usize>
        ensures count { result ≡ size_of (ground_step self.old Pull).answer }
        ensures frame { out.new ≡ written_over out.old (ground_step self.old Pull).answer }
        ensures after { self.new ≡ (ground_step self.old Pull).after }

        // So the octets encode this frame.
        ensures spells { BeginsWith out.new (ground_step self.old Pull).answer }
    {
        let count = match self.peek() {
            Some(frame) => Some(written(&frame, out)),
            None => None,
        };
        self.advance();
        count
    }

    /// Counts the frame that `peek` lends as sent, as `pull` does.
    pub fn advance(&mut self)
        ensures { self.new ≡ (ground_step self.old Pull).after }
    {
        self.fop.advance();
        self.refill();
    }
}

// Writes a frame with its FECF at the beginning of `out`, and returns its length in octets.
fn written(frame: &TcFrame<'_>, out: &mut [u8; 1024]) -> usize
    requires { frame_fits Check.On (frame_view frame.now) ≡ true }
    ensures count { Some result ≡ size_of (Some (frame_view frame.now)) }
    ensures frame { out.new ≡ written_over out.old (Some (frame_view frame.now)) }
    ensures spells { BeginsWith out.new (Some (frame_view frame.now)) }
{
    let Ok(count) = encode(frame, Check::On, out) else {
        unreachable!()
    };
    count
}
