// Which segments of Type-BD frames a spacecraft keeps.

ghost use Rattle.std.specs.Prelude.{◌≡◌};
ghost use Rattle.tc_frame.specs.Layout.{segment_view};
ghost use Rattle.nodes.specs.BypassSegments.{is_alone, is_kept};

use crate::config::Config;
use space_packet::is_packet;
use tc_frame::{Segment, SegmentFlags};

// Returns whether a segment is kept: its MAP is open, it is flagged alone, and it is one packet that is
// not too long.
pub(crate) fn is_kept(config: &Config, segment: &Segment<'_>) -> bool
    ensures { result ≡ is_kept config.now (segment_view segment.now) }
{
    let limits = config.limits();
    limits.is_open(segment.header.map)
        && is_alone(segment.header.flags)
        && !limits.is_too_long(segment.payload.len())
        && is_packet(segment.payload)
}

fn is_alone(flags: SegmentFlags) -> bool
    ensures { result ≡ is_alone flags }
{
    match flags {
        SegmentFlags::Alone => true,
        SegmentFlags::First | SegmentFlags::Continuing | SegmentFlags::Last => false,
    }
}
