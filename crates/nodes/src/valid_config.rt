// A configuration with each field in range.

use crate::config::Config;
use std::marker::Model;

/// The managed parameters, each in range. `Config::valid` returns them, and both nodes are built from them.
#[derive(Clone, Copy)]
pub struct ValidConfig {
    config: Config,
}

impl Model for ValidConfig {
    ghost use Rattle.nodes.specs.declared.config.Config.{Config};

    ghost Value = { Config };

    ghost use Rattle.nodes.specs.Parameters.{IsConfig};

    ghost view = { λ c. c.config };

    ghost invariant = { λ c. IsConfig c.config };

    ghost inverse = { λ c. record { config = c } };
}

impl ValidConfig {
    ghost use Rattle.std.specs.Prelude.{◌≡◌, ◌≤◌, ◌/◌, ◌%◌};
    ghost use Rattle.nodes.specs.Parameters.{IsConfig};

    /// Returns the configuration, whose fields may be read.
    pub fn config(&self) -> &Config
        ensures value { result.now ≡ self.now }
        ensures valid { IsConfig result.now }
    {
        &self.config
    }

    /// Returns a configuration that the prover knows to be valid, such as a literal in range. For any other
    /// configuration the prover names the field that is out of range.
    pub fn of(config: &Config) -> ValidConfig
        requires scid { config.now.scid ≤ 1023 }
        requires vcid { config.now.vcid ≤ 63 }
        requires tm_vcid { config.now.tm_vcid ≤ 7 }
        requires even { config.now.width % 2 ≡ 0 }
        requires width { (2 ≤ config.now.width) × (config.now.width ≤ 254) }
        requires window { (1 ≤ config.now.window) × (config.now.window ≤ config.now.width / 2) }
        requires limit { (1 ≤ config.now.limit) × (config.now.limit ≤ 255) }
        requires timer { (1 ≤ config.now.timer) × (config.now.timer ≤ 65535) }
        requires part { (1 ≤ config.now.part) × (config.now.part ≤ 1016) }
        requires max_packet { (7 ≤ config.now.max_packet) × (config.now.max_packet ≤ 65542) }
        requires ready_slots { (1 ≤ config.now.ready_slots) × (config.now.ready_slots ≤ 64) }
        requires bypass_slots { (1 ≤ config.now.bypass_slots) × (config.now.bypass_slots ≤ 64) }
        requires queue_slots { (1 ≤ config.now.queue_slots) × (config.now.queue_slots ≤ 65535) }
        requires frame_length { (16 ≤ config.now.frame_length) × (config.now.frame_length ≤ 2048) }
        requires blocking { config.now.blocking ≤ 1 }
        ensures { result ≡ config.now }
    {
        ValidConfig { config: *config }
    }
}
