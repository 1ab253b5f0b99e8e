// The log of a device, only for proofs: the octets that went through it, and how many of its calls
// failed.

ghost use Rattle.std.specs.Prelude.{ℕ, Bool, List};
ghost use base.Fml.{ftrue};
ghost use Rattle.std.specs.Coded.{coded_list, coded_bool, coded_ℕ};

use std::marker::Model;

/// What one call did: it moved octets, or it failed.
#[derive(Clone, Copy, Drop)]
pub enum Call<'a> {
    /// The call moved these octets.
    Moved(&'a [u8]),
    /// The call failed.
    Failed,
}

/// Records what the calls so far did. It takes no memory, and does not exist when the program runs.
#[derive(Drop)]
pub struct DeviceLog {
    pub ghost octets: { List ℕ } by { coded_list coded_ℕ },
    pub ghost has_ended: { Bool } by { coded_bool },
    pub ghost failures: { ℕ } by { coded_ℕ },
}

impl Model for DeviceLog {
    ghost also_owns = { λ _. ftrue };
}

impl DeviceLog {
    ghost use Rattle.std.specs.Prelude.{[], false};
    ghost use Rattle.streams.specs.Devices.{octets_with, ended_with, failures_with};
    ghost use Rattle.streams.specs.Devices.{IsLogOf};

    /// Returns the log before the first call. It is only for proofs.
    pub fn new() -> DeviceLog
        ensures { IsLogOf result [] false 0 }
    {
        DeviceLog {}
    }

    /// Returns the log after one more call. It is only for proofs.
    pub fn then(&self, _call: &Call<'_>) -> DeviceLog
        ensures { IsLogOf result (octets_with self.now.octets _call.now)
            (ended_with self.now.has_ended _call.now) (failures_with self.now.failures _call.now) }
    {
        DeviceLog {}
    }
}
