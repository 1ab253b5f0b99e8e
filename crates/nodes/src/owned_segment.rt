// The units of the ground's sender.

ghost use Rattle.std.specs.Prelude.{◌≡◌, IfOk, IsOkUnless};
ghost use Rattle.std.specs.List.{AllByRecursion};
ghost use Rattle.tc_frame.specs.Layout.{segment_view};
ghost use Rattle.map_service.specs.Cutting.{segment_views};
ghost use Rattle.nodes.specs.OwnedFields.{FitsFrame};

use crate::fault::LinkFault;
use std::alloc::Global;
use std::collections::VecDeque;
use std::marker::Model;
use tc_frame::{Segment, SegmentHeader};

/// A segment that owns its octets. It fits into a frame.
#[derive(Drop)]
pub(crate) struct OwnedSegment {
    header: SegmentHeader,
    payload: Vec<u8>,
}

impl Model for OwnedSegment {
    ghost use Rattle.tc_frame.specs.Layout.{SegmentView};

    ghost Value = { SegmentView };

    ghost use Rattle.nodes.specs.OwnedFields.{state_of, IsSound};

    ghost view = { state_of };

    ghost invariant = { IsSound };
}

impl OwnedSegment {
    // Returns a copy of a segment.
    pub(crate) fn new(alloc: Global, segment: &Segment<'_>) -> Result<OwnedSegment, LinkFault>
        requires { FitsFrame (segment_view segment.now) }
        ensures copied { IfOk result (λ owned. owned ≡ segment_view segment.now) }
        ensures fault { IsOkUnless result LinkFault.Memory }
    {
        match Vec::from_slice(alloc, segment.payload) {
            Ok(payload) => Ok(OwnedSegment {
                header: segment.header,
                payload,
            }),
            Err(_) => Err(LinkFault::Memory),
        }
    }

    pub(crate) fn segment(&self) -> Segment<'_>
        ensures view { segment_view result ≡ self.now }
        ensures fits { FitsFrame (segment_view result) }
    {
        Segment {
            header: self.header,
            payload: self.payload.as_slice(),
        }
    }
}

// Returns copies of segments, in a list that is allocated once.
pub(crate) fn own(
    alloc: Global,
    segments: &[Segment<'_>],
) -> Result<VecDeque<OwnedSegment>, LinkFault>
    requires { AllByRecursion FitsFrame (segment_views segments.now) }
    ensures copied { IfOk result (λ owned. owned.items ≡ segment_views segments.now) }
    ensures fault { IsOkUnless result LinkFault.Memory }
{
    let Ok(mut owned) = VecDeque::with_capacity(alloc, segments.len()) else {
        return Err(LinkFault::Memory);
    };
    for segment in segments {
        owned.push_back_reserved(OwnedSegment::new(alloc, segment)?);
    }
    Ok(owned)
}
