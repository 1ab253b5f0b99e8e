// What holds of telemetry after an outage, whatever a program records of the run.

ghost use Rattle.tc_link.specs.Outage.{AtMostTheFirst};

/// After an outage of any length, at most the first packet that is delivered on the ground is a wrong one.
///
/// The law holds after any steps and whatever was lost. From any moment on, the list of packets on the
/// ground, taken or not, grows by at most one packet, followed by others. The others are packets that
/// `Spacecraft::telemetry` queued, in order, each once, octet for octet.
///
/// The premise is that fewer than 256 frames are lost in a row between two that arrive. This premise is
/// needed only from that moment on. Any number of frames may be lost before the first that arrives.
pub fn law_of_outage()
    ensures { AtMostTheFirst }
{}
