// A node that is run line by line.

ghost use Rattle.std.specs.Prelude.{◌≡◌, is_some, IfOk};
ghost use Rattle.node_lines.specs.Lines.{ask_view};
ghost use Rattle.node_lines.specs.Nodes.{NodeRules, Takes, turned};

use crate::line::Ask;
use nodes::ValidConfig;
use std::alloc::{AllocError, Global};

/// A node that is run line by line.
pub trait Node {
    ghost rules: { NodeRules Self };

    /// Returns the node that a configuration makes.
    /// Faults: AllocError. Memory: yes.
    fn made(alloc: Global, config: &ValidConfig) -> Result<Self, AllocError>
        ensures { IfOk result (λ node. node ≡ rules.new config.now) };

    /// Returns whether such a node takes this ask.
    fn takes(ask: Ask<'_>) -> bool
        ensures { result ≡ is_some (rules.asked (ask_view ask.entry)) };

    /// Returns why an ask that such a node does not take is unreadable.
    fn others() -> &'static str
        ensures { result.now ≡ rules.others };

    /// Returns the lines that it reads.
    fn lines() -> &'static str
        ensures { result.now ≡ rules.lines };

    /// Does what is asked, and appends the answer. An ask that is only for another node does
    /// nothing.
    /// Faults: AllocError. Memory: yes. Cost: that of the node's call, and of the answer.
    fn answer(&mut self, alloc: Global, ask: Ask<'_>, text: &mut String) -> Result<(), AllocError>
        ensures { Takes (turned (rules.asked (ask_view ask.entry)) self.old) result text.old text.new self.new };
}
