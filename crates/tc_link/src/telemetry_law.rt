// What holds of the telemetry of each run, whatever a program records of the run.

ghost use Rattle.tc_link.specs.Gaps.{EachGapIsLoss};
ghost use Rattle.tc_link.specs.SeenTelemetry.{TelemetryIsSeen};
ghost use Rattle.tc_link.specs.Telemetry.{TelemetryComesDown, RunsAsTheLink};

/// Telemetry is delivered in order (CCSDS 132.0-B-3, 4.2.2 and 4.3.2).
///
/// The law rests on the rules of the two nodes and the link only. The law holds for every configuration and
/// every list of events, with takes of `Ground::take_telemetry` among them. A list of events only is one of
/// these lists (`runs`). The law runs no simulation and takes no memory.
///
/// The packets on the ground, taken or not, are packets that `Spacecraft::telemetry` queued, in order, each
/// once, octet for octet (`in_order`). A packet is delivered if and only if all its octets arrived. Every
/// packet is delivered if no frame was lost, none is in transit and the spacecraft's builder holds nothing.
/// The premise is that fewer than 256 frames are lost in a row between two that arrive. Any number of frames
/// may be lost before the first that arrives.
///
/// The same order holds in terms of what a program sees, that is, the steps and the answers to them (`seen`).
/// What `take_telemetry` delivered is packets that were queued, in order, each once, octet for octet. The
/// premise there is that, by the answers, fewer than 256 frames in a row did not arrive between two that did.
/// A frame did not arrive if it was lost or damaged, or if only its CLCW reached the ground.
///
/// The gap that the ground reports for a frame is the number of frames lost since the last one that arrived,
/// modulo 256 (`gap`). For the first frame that arrives, the gap is `First`, without a number.
pub fn law_of_telemetry()
    ensures in_order { TelemetryComesDown }
    ensures seen { TelemetryIsSeen }
    ensures gap { EachGapIsLoss }
    ensures runs { RunsAsTheLink }
{}
