// The log of accepted segments, which only proofs use.

ghost use Rattle.std.specs.Prelude.{◌≡◌, List, [], ◌∷◌, ◌++◌};
ghost use base.Fml.{ftrue};
ghost use Rattle.std.specs.Coded.{coded_list};
ghost use Rattle.tc_frame.specs.Layout.{SegmentView, segment_view};
ghost use Rattle.nodes.specs.SegmentCode.{segment_code};

use std::marker::Model;
use tc_frame::Segment;

/// The segments of the frames accepted so far, in order. The log takes no memory, and does not exist in
/// the running program.
#[derive(Drop)]
pub(crate) struct SegmentLog {
    pub(crate) ghost segments: { List SegmentView } by { coded_list segment_code },
}

impl Model for SegmentLog {
    ghost also_owns = { λ _. ftrue };
}

impl SegmentLog {
    /// Returns an empty log.
    pub(crate) fn new() -> SegmentLog
        ensures { result.segments ≡ [] }
    {
        SegmentLog {}
    }

    /// Returns the log with one more segment.
    pub(crate) fn then(&self, _segment: &Segment<'_>) -> SegmentLog
        ensures { result.segments ≡ self.now.segments ++ segment_view _segment.now ∷ [] }
    {
        SegmentLog {}
    }
}
