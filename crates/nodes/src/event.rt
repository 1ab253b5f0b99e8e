// The events of a link between the two nodes.

use cop1::Directive;

/// An event on a link between the two nodes. `simulated_link` runs it, and a script has a line for it.
#[derive(Clone, Copy, Debug, PartialEq, Eq)]
pub enum Event<'a> {
    /// Packets are submitted on a MAP.
    Submit(u8, &'a [u8]),
    /// A packet is submitted on a MAP, to be sent by bypass (Type-BD).
    Bypass(u8, &'a [u8]),
    /// The ground's sender is given a directive.
    Directive(Directive),
    /// The ground resumes after an alert, from the value of a CLCW.
    Resume(u8),
    /// The ground sends a frame.
    Send,
    /// The first frame in transit on the uplink arrives.
    UpDeliver,
    /// The first frame in transit on the uplink is lost.
    UpLose,
    /// These octets, which do not form a valid frame, arrive instead of the first uplink frame.
    UpDamage(&'a [u8]),
    /// The spacecraft sends a telemetry frame with a CLCW.
    Report,
    /// The first frame in transit on the downlink arrives.
    DownDeliver,
    /// The first frame in transit on the downlink is lost.
    DownLose,
    /// These octets, which do not form a valid frame, arrive instead of the first downlink frame.
    DownDamage(&'a [u8]),
    /// The first downlink frame arrives, but only its CLCW reaches the ground, as from a front end that
    /// forwards CLCWs.
    DownClcw,
    /// A tick of the ground's clock passes.
    Tick,
    /// A packet from sequence-controlled frames is taken on board.
    Take,
    /// A packet from Type-BD frames is taken on board.
    TakeBypass,
    /// A packet is queued on board to be sent as telemetry.
    Telemetry(&'a [u8]),
}
