// The data fields of frames that carry segments.

ghost use Rattle.std.specs.Prelude.{◌≡◌, ◌<◌, IfOk, IsOkUnless};
ghost use Rattle.tc_frame.specs.Layout.{segment_view, segment_octets};

use crate::fault::LinkFault;
use std::alloc::Global;
use tc_frame::Segment;

/// Returns the data field of a frame that carries this segment: the segment header octet and the segment's
/// data (CCSDS 232.0-B-4, 4.1.3).
/// Faults: 6 Memory. Memory: yes. Cost: n.
pub fn data_field_of(alloc: Global, segment: &Segment<'_>) -> Result<Vec<u8>, LinkFault>
    requires { segment.now.header.map < 64 }
    ensures field { IfOk result (λ v. v.items ≡ segment_octets (segment_view segment.now)) }
    ensures fault { IsOkUnless result LinkFault.Memory }
{
    let Ok(mut field) = Vec::with_capacity(alloc, segment.payload.len() + 1) else {
        return Err(LinkFault::Memory);
    };
    field.push_reserved(segment.header.octet());
    let _ = field.extend_from_slice(segment.payload);
    Ok(field)
}
