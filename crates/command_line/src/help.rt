// The commands as the help describes them.

use crate::commands::Named;

/// A command as its help describes it.
#[derive(Clone, Copy, Debug)]
pub struct Described<'a> {
    pub command: Named,
    pub name: &'a str,
    /// The program and the command, as usage shows them.
    pub bin_name: &'a str,
    pub about: &'a str,
    /// What its `FILE` is.
    pub file: &'a str,
    /// The end of its help.
    pub ending: &'a str,
}

/// The end of a help text: an example line of output (or of input, after the verb), what else there is to
/// state, and the statuses.
macro_rules! ending_of_help {
    ($line:literal $(, $more:literal)*) => {
        ending_of_help!("Writes"; $line $(, $more)*)
    };
    ($verb:literal; $line:literal $(, $more:literal)*) => {
        concat!(
            $verb,
            " lines such as\n  ",
            $line,
            "\n\n",
            $($more,)*
            "Status: 0 if all is good, 1 for a fault in the data, 2 for usage,\n",
            "3 if a file or memory failed or the input was too long"
        )
    };
}

/// The end of the help of a command that reads telecommand frames, with their faults.
macro_rules! ending_of_frames {
    ($line:literal $(, $more:literal)*) => {
        ending_of_help!(
            $line,
            "Faults of a frame, the first that applies:\n",
            "  1 Short              fewer than 5 octets, or the file ends within the frame\n",
            "  2 Version            the version number is not 00\n",
            "  3 ReservedType       the control command flag without the bypass flag\n",
            "  4 Spare              a spare bit is not 0\n",
            "  5 Length             the declared length is not the frame's, or too small\n",
            "  6 Check              the last two octets are not the check of the others\n",
            "  7 BypassNumber       N(S) of a Type-BD or Type-BC frame is not 0\n",
            "  8 EmptyData          no data, or only a segment header\n",
            "  9 Command            the data of a Type-BC frame are not a command\n\n",
            $($more,)*
            "Without --scid and --vcid all frames are taken as those of one channel.\n\n"
        )
    };
}

/// The end of the help of a command that reads the lines of a node.
macro_rules! ending_of_lines {
    ($line:literal, $($more:literal),*) => {
        ending_of_help!(
            $line,
            $($more,)*
            "FIELD is scid, vcid, tm_vcid, width, window, limit, timer, part, max_packet,\n",
            "maps, ready_slots, bypass_slots, queue_slots, frame_length or blocking.\n\n"
        )
    };
}

pub(crate) use ending_of_help;

// What `FILE` is for the commands that take telecommand frames.
const FRAMES: &str = "Telecommand frames, one after another";

/// The commands in the order in which the help lists them.
pub const COMMANDS: [Described<'static>; 11] = [
    Described {
        command: Named::Farm,
        name: "farm",
        bin_name: "tctool farm",
        about: "List what a receiver (FARM-1) does with each frame",
        file: FRAMES,
        ending: ending_of_frames!(
            "3 BC unlock Open vr=0 l=0 w=0 t=0 b=1",
            "--vr first begins at the number of the first Type-AD frame or Set V(R).\n"
        ),
    },
    Described {
        command: Named::Map,
        name: "map",
        bin_name: "tctool map",
        about: "List the packets in the frames that a receiver accepts",
        file: FRAMES,
        ending: ending_of_help!(
            "packet 4 1005C0000000AA",
            "Why octets of a segment are dropped:\n",
            "  Interrupted          a first segment, or one flagged alone, came before a last one\n",
            "  NoBeginning          a continuing or last segment with no packet open\n",
            "  NotAPacket           not exactly one packet (--blocking: whole packets)\n",
            "  TooLong              a packet is longer than 65,542 octets\n",
            "  Bypass               a Type-BD frame without exactly one packet\n",
            "\nFaults of a frame: tctool help tc\n\n",
            "--vr first begins at the number of the first Type-AD frame or Set V(R).\n",
            "Without --scid and --vcid all frames are taken as those of one channel.\n\n"
        ),
    },
    Described {
        command: Named::Tc,
        name: "tc",
        bin_name: "tctool tc",
        about: "List the fields of each telecommand frame",
        file: FRAMES,
        ending: ending_of_frames!("1 AD scid=1 vcid=2 n=3 seg=3 map=4 data=1005C0000000AA"),
    },
    Described {
        command: Named::Tm,
        name: "tm",
        bin_name: "tctool tm",
        about: "List the fields of each telemetry frame, and the packets that it finishes",
        file: "Telemetry frames, one after another",
        ending: ending_of_help!(
            "1 scid=1 vcid=0 mc=0 vc=0 pointer=0 ocf=01080000 gap=-",
            "and under --report the line of tctool clcw, without its number\n\n",
            "Faults of a frame, the first that applies:\n",
            "  1 Length             not the number of octets that --length gives\n",
            "  2 Version            the version number is not 00\n",
            "  3 Check              the last two octets are not the check of the others\n",
            "  4 Status             a status flag is not 0, or segment length not 11\n",
            "  5 Pointer            the first header pointer is not within the data\n",
            "  6 NoOcf              the frame has no operational control field\n",
            "\nWithout --scid and --vcid all frames are taken as those of one channel.\n\n"
        ),
    },
    Described {
        command: Named::Clcw,
        name: "clcw",
        bin_name: "tctool clcw",
        about: "List what each control word (CLCW) reports",
        file: "CLCWs of four octets, one after another",
        ending: ending_of_help!(
            "1 report vcid=2 vr=0 l=0 w=0 t=0 b=0 status=0 rf=0 lock=0",
            "l, w and t are the flags lockout, wait and retransmit, and b is FARM-B.\n",
            "rf=1 means that no radio frequency is available, lock=1 that there is no bit lock.\n",
            "\nFaults of a CLCW, the first that applies:\n",
            "  1 Kind               the type is not 0\n",
            "  2 Version            the version number is not 00\n",
            "  3 Cop                the COP in effect is not 01, COP-1\n",
            "  4 Spare              a spare bit is not 0\n",
            "  6 Short              the file ends within the CLCW\n",
            "\nWithout --vcid the CLCWs of all virtual channels are listed.\n\n"
        ),
    },
    Described {
        command: Named::Check,
        name: "check",
        bin_name: "tctool check",
        about: "List the refused frames among telecommand frames with check",
        file: "Telecommand frames with check, one after another",
        ending: ending_of_frames!("2 invalid 6 Check"),
    },
    Described {
        command: Named::Packets,
        name: "packets",
        bin_name: "tctool packets",
        about: "List the fields of each space packet",
        file: "Space packets, one after another",
        ending: ending_of_help!(
            "1 TC secondary=0 apid=5 flags=3 count=0 gap=- data=AA",
            "Faults of a packet, the first that applies:\n",
            "  1 Truncated          the file ends within the packet\n",
            "  2 Version            the version number is not 000\n",
            "  3 IdleWithSecondary  an idle packet with a secondary header\n",
            "\nWithout --apid the packets of all application processes are listed.\n\n"
        ),
    },
    Described {
        command: Named::Encode,
        name: "encode",
        bin_name: "tctool encode",
        about: "Write the octets of lines in the form that other commands write",
        file: "Lines, one for each frame, packet or CLCW, with or without their numbers",
        ending: ending_of_help!(
            "Reads";
            "1 AD scid=1 vcid=2 n=3 seg=3 map=4 data=1005C0000000AA",
            "and writes the frame or packet of each, or the octets after the words\n",
            "  packet HEX, sent HEX, frame HEX, telemetry HEX, report HEX, clcw HEX\n",
            "  packet M HEX, bypass M HEX, submit M HEX\n",
            "Empty lines and lines that begin with # have no octets. Nothing is written for an\n",
            "unreadable line, nor for the lines after it. --skip-invalid skips lines not meant\n",
            "to carry octets, such as \"2 invalid 6 Check\" and \"ok\".\n\n"
        ),
    },
    Described {
        command: Named::Sim,
        name: "sim",
        bin_name: "tctool sim",
        about: "Run a script of the simulated link",
        file: "A script, a line for each event",
        ending: ending_of_lines!(
            "AD 0 accepted ready",
            "The lines of a script, config before all others:\n",
            "  config FIELD N, submit M HEX, bypass M HEX, telemetry HEX\n",
            "  init none, init check, init unlock, init set X, terminate, resume X\n",
            "  vs X, window X, limit X, timer X\n",
            "  send, report, tick, take, takebypass, show\n",
            "  up deliver, up lose, up damage HEX\n",
            "  down deliver, down lose, down damage HEX, down clcw\n"
        ),
    },
    Described {
        command: Named::Ground,
        name: "ground",
        bin_name: "tctool ground",
        about: "Act as a ground (FOP-1), and answer each line before more is read",
        file: "Lines, one for each call; standard input if not given",
        ending: ending_of_lines!(
            "sent 0001080E00C41005C0000000AAE75D",
            "Its lines, config before all others:\n",
            "  config FIELD N, submit M HEX, bypass M HEX, telemetry HEX, clcw HEX\n",
            "  init none, init check, init unlock, init set X, terminate, resume X\n",
            "  vs X, window X, limit X, timer X\n",
            "  send, tick, take, show\n"
        ),
    },
    Described {
        command: Named::Spacecraft,
        name: "spacecraft",
        bin_name: "tctool spacecraft",
        about: "Act as a spacecraft (FARM-1), and answer each line before more is read",
        file: "Lines, one for each call; standard input if not given",
        ending: ending_of_lines!(
            "AD 0 accepted ready",
            "Its lines, config before all others:\n",
            "  config FIELD N, frame HEX, telemetry HEX\n",
            "  send, report, take, takebypass, show\n"
        ),
    },
];
