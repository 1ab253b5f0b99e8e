// The simulated link as a node that is run line by line.

ghost use Rattle.std.specs.Prelude.{◌≡◌, OnOk, IfOk};
ghost use Rattle.octets.specs.Beginning.{Appends};
ghost use Rattle.octets.specs.Outcome.{map_ok};
ghost use Rattle.simulated_link.specs.Replies.{reply_view};
ghost use Rattle.simulated_link.specs.World.{world_step};
ghost use Rattle.script.specs.Answers.{answer_text};
ghost use Rattle.script.specs.LinkNode.{link_rules};

use crate::answer::push_answer;
use crate::show::push_show;
use node_lines::{Ask, Node};
use nodes::ValidConfig;
use simulated_link::{Event, Reply, SimFault, World};
use std::alloc::{AllocError, Global};

/// The simulated link, which takes the lines of scripts as a node takes its own.
#[derive(Drop)]
pub struct LinkNode {
    world: World,
}

impl LinkNode {
    /// Returns the link itself.
    pub fn world(&self) -> &World
        ensures { result.now ≡ self.now.world }
    {
        &self.world
    }
}

impl Node for LinkNode {
    ghost rules = { link_rules };

    fn made(alloc: Global, config: &ValidConfig) -> Result<LinkNode, AllocError> {
        match World::new(alloc, config) {
            Ok(world) => Ok(LinkNode { world }),
            Err(_) => Err(AllocError),
        }
    }

    fn takes(ask: Ask<'_>) -> bool {
        matches!(ask, Ask::Happening(_) | Ask::Show)
    }

    fn others() -> &'static str {
        "it is for one node alone"
    }

    fn lines() -> &'static str {
        "those of a script"
    }

    fn answer(&mut self, alloc: Global, ask: Ask<'_>, text: &mut String) -> Result<(), AllocError> {
        match ask {
            Ask::Happening(event) => play_event(alloc, &mut self.world, text, event),
            Ask::Show => push_show(text, &self.world),
            Ask::Frame(_) | Ask::ControlWord(_) => Ok(()),
        }
    }
}

// Lets an event happen. It fails only if memory runs out.
fn step(world: &mut World, event: Event<'_>) -> Result<Result<Reply, SimFault>, AllocError>
    ensures answer { IfOk result (λ answer.
        map_ok reply_view answer ≡ (world_step world.old event.entry).answer) }
    ensures world { OnOk result (world.new ≡ (world_step world.old event.entry).after) }
{
    match world.step(event) {
        Err(SimFault::Memory) => Err(AllocError),
        answer => Ok(answer),
    }
}

// Lets an event happen, and appends its answer.
fn play_event(
    alloc: Global,
    world: &mut World,
    text: &mut String,
    event: Event<'_>,
) -> Result<(), AllocError>
    ensures text { Appends result text.old text.new (answer_text (world_step world.old event.entry).answer) }
    ensures world { OnOk result (world.new ≡ (world_step world.old event.entry).after) }
{
    let answer = step(world, event)?;
    push_answer(text, alloc, &answer)
}
