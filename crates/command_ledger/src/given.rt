// A command without a fate.

use std::alloc::{AllocError, Global};
use std::marker::Model;

#[derive(Drop)]
pub(crate) struct Given {
    tag: u64,
    packet: Vec<u8>,
    map: u8,
}

impl Model for Given {
    ghost use Rattle.command_ledger.specs.Waiting.{Waiting, waiting_of, IsShort};

    ghost Value = { Waiting };

    ghost view = { waiting_of };

    ghost invariant = { IsShort };
}

impl Given {
    ghost use Rattle.std.specs.Prelude.{◌≡◌, ◌≤◌, IfOk, length};
    ghost use Rattle.command_ledger.specs.Waiting.{waiting};

    pub(crate) fn new(alloc: Global, tag: u64, map: u8, packet: &[u8]) -> Result<Given, AllocError>
        requires { length packet.now ≤ 65542 }
        ensures { IfOk result (λ c. c ≡ waiting tag map packet.now) }
    {
        let packet = Vec::from_slice(alloc, packet)?;
        Ok(Given { tag, packet, map })
    }

    pub(crate) fn tag(&self) -> u64
        ensures { result ≡ self.now.tag }
    {
        self.tag
    }

    pub(crate) fn map(&self) -> u8
        ensures { result ≡ self.now.on_map }
    {
        self.map
    }

    pub(crate) fn packet(&self) -> &[u8]
        ensures packet { result.now ≡ self.now.packet }
        ensures short { length result.now ≤ 65542 }
    {
        self.packet.as_slice()
    }
}
