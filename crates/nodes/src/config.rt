// The managed parameters of the link.

ghost use Rattle.std.specs.Prelude.{◌≡◌, ◌≤◌, ◌↔◌, IsNone, Some, IfOk, IfErr};
ghost use Rattle.std.specs.Option.{option_copied};

use crate::parameter::{PARAMETERS, Parameter};
use crate::valid_config::ValidConfig;
use map_service::Limits;

/// The managed parameters, which both nodes use. V(R) and V(S) start at 0. To set values of your own, write
/// `Config { scid: 42, ..Config::default() }`. For C the fields are laid out in this order.
#[repr(C)]
#[derive(Clone, Copy, Debug, PartialEq, Eq)]
pub struct Config {
    /// The spacecraft identifier, 0 to 1,023; default 1.
    pub scid: u32,
    /// The virtual channel of telecommand frames, 0 to 63; default 2.
    pub vcid: u32,
    /// The virtual channel of telemetry frames, 0 to 7; default 0.
    pub tm_vcid: u32,
    /// The width of the receiver's window, even, 2 to 254; default 254.
    pub width: u32,
    /// The sender's window K, 1 to width/2; default 127.
    pub window: u32,
    /// The transmission limit, 1 to 255; default 3.
    pub limit: u32,
    /// The timer's value in ticks, 1 to 65,535; default 10.
    pub timer: u32,
    /// The maximum number of data octets in a segment. Without silence before an initiation, segments of two
    /// longer packets can be joined into a command that nobody submitted. Range 1 to 1,016; default 1,016.
    pub part: u32,
    /// The maximum length of a packet in octets, 7 to 65,542; default 65,542.
    pub max_packet: u32,
    /// The open MAPs, any 64 bits: bit m, of value 2 to the power of m, is 1 if MAP m is open; default all
    /// ones.
    pub maps: u64,
    /// The number of packets waiting to be taken at which the buffer on board is full, 1 to 64; default 64.
    pub ready_slots: u32,
    /// The maximum number of bypass packets that wait to be taken, 1 to 64; default 4.
    pub bypass_slots: u32,
    /// The maximum number of units that wait to be sent for the first time, 1 to 65,535; default 1,000.
    pub queue_slots: u32,
    /// The length of a telemetry frame in octets, 16 to 2,048; default 64.
    pub frame_length: u32,
    /// 1 if a segment may contain several packets, 0 to 1; default 0.
    pub blocking: u32,
}

impl Default for Config {
    ghost use Rattle.nodes.specs.Parameters.{default_config};

    ghost is_default = { λ c. c ≡ default_config };

    fn default() -> Config {
        Config {
            scid: 1,
            vcid: 2,
            tm_vcid: 0,
            width: 254,
            window: 127,
            limit: 3,
            timer: 10,
            part: 1016,
            max_packet: 65542,
            maps: u64::MAX,
            ready_slots: 64,
            bypass_slots: 4,
            queue_slots: 1000,
            frame_length: 64,
            blocking: 0,
        }
    }
}

impl Config {
    ghost use Rattle.nodes.specs.Parameters.{value_of, greatest_of, with_value, is_in_range, out_of_range, config_fault, IsConfig, limits_of};

    /// Returns the name of the first field that is out of range. If it returns None, a `Ground` and a
    /// `Spacecraft` can be made with this configuration.
    pub fn fault(&self) -> Option<&'static str>
        ensures fault { option_copied result ≡ config_fault self.now }
        ensures none { IsNone result ↔ IsConfig self.now }
    {
        match self.out_of_range() {
            Some(parameter) => Some(parameter.name()),
            None => None,
        }
    }

    /// Checks this configuration, and returns it as a `ValidConfig`. The fault is the name of the first
    /// field that is out of range.
    /// Faults: the field's name. Cost: 1.
    pub fn valid(&self) -> Result<ValidConfig, &'static str>
        ensures valid { IfOk result (λ valid. valid ≡ self.now) }
        ensures sound { IfOk result (λ _. IsConfig self.now) }
        ensures fault { IfErr result (λ name. config_fault self.now ≡ Some name.now) }
    {
        match self.fault() {
            None => Ok(ValidConfig::of(self)),
            Some(name) => Err(name),
        }
    }

    /// Returns the value of a parameter.
    pub fn value(&self, parameter: Parameter) -> u64
        ensures { result ≡ value_of self.now parameter }
    {
        match parameter {
            Parameter::Scid => u64::from(self.scid),
            Parameter::Vcid => u64::from(self.vcid),
            Parameter::TmVcid => u64::from(self.tm_vcid),
            Parameter::Width => u64::from(self.width),
            Parameter::Window => u64::from(self.window),
            Parameter::Limit => u64::from(self.limit),
            Parameter::Timer => u64::from(self.timer),
            Parameter::Part => u64::from(self.part),
            Parameter::MaxPacket => u64::from(self.max_packet),
            Parameter::Maps => self.maps,
            Parameter::ReadySlots => u64::from(self.ready_slots),
            Parameter::BypassSlots => u64::from(self.bypass_slots),
            Parameter::QueueSlots => u64::from(self.queue_slots),
            Parameter::FrameLength => u64::from(self.frame_length),
            Parameter::Blocking => u64::from(self.blocking),
        }
    }

    /// Sets a parameter to this value, in range or not. The value must fit the parameter's field: below
    /// 2^32, for `maps` below 2^64.
    pub fn set(&mut self, parameter: Parameter, value: u64)
        requires { value ≤ greatest_of parameter }
        ensures { self.new ≡ with_value self.old parameter value }
    {
        match parameter {
            Parameter::Scid => self.scid = value as u32,
            Parameter::Vcid => self.vcid = value as u32,
            Parameter::TmVcid => self.tm_vcid = value as u32,
            Parameter::Width => self.width = value as u32,
            Parameter::Window => self.window = value as u32,
            Parameter::Limit => self.limit = value as u32,
            Parameter::Timer => self.timer = value as u32,
            Parameter::Part => self.part = value as u32,
            Parameter::MaxPacket => self.max_packet = value as u32,
            Parameter::Maps => self.maps = value,
            Parameter::ReadySlots => self.ready_slots = value as u32,
            Parameter::BypassSlots => self.bypass_slots = value as u32,
            Parameter::QueueSlots => self.queue_slots = value as u32,
            Parameter::FrameLength => self.frame_length = value as u32,
            Parameter::Blocking => self.blocking = value as u32,
        }
    }

    // Returns the limits of the segmentation service.
    pub(crate) fn limits(&self) -> Limits
        ensures { result ≡ limits_of self.now }
    {
        Limits {
            part: self.part,
            max_packet: self.max_packet,
            maps: self.maps,
            blocking: self.blocking == 1,
        }
    }

    // Returns the first parameter that is out of range.
    fn out_of_range(&self) -> Option<Parameter>
        ensures { result ≡ out_of_range self.now }
    {
        PARAMETERS
            .iter()
            .find(|parameter| !self.is_in_range(**parameter))
            .copied()
    }

    fn is_in_range(&self, parameter: Parameter) -> bool
        ensures { result ≡ is_in_range self.now parameter }
    {
        let is_within = parameter.has(self.value(parameter));
        match parameter {
            Parameter::Width => is_within && self.width % 2 == 0,
            Parameter::Window => is_within && self.window <= self.width / 2,
            Parameter::Maps => true,
            _ => is_within,
        }
    }
}
