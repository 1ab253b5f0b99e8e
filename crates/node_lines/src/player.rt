// Runs a node line by line.

ghost use Rattle.std.specs.Prelude.{◌≡◌, ◌≤◌, ◌++◌, ◌∷◌, [], codes, true, false, OnOk, IfOk};
ghost use Rattle.octets.specs.Beginning.{Appends};
ghost use Rattle.node_lines.specs.Lines.{most_for};
ghost use Rattle.node_lines.specs.Lines.{ask_said, ask_view};
ghost use Rattle.node_lines.specs.Nodes.{turned, is_of_a_link};
ghost use Rattle.node_lines.specs.Player.{other_cause};

use crate::causes::cause_in;
use crate::line::{Ask, Line, octets_in, with_octets};
use crate::node::Node;
use crate::reader::read_line;
use nodes::{Config, Event, Parameter};
use std::alloc::{AllocError, Global};
use std::fmt::Write;
use streams::{Player, octets_of_digits};

/// A node that is run line by line: its configuration until it is made, and then the node itself.
#[derive(Drop)]
pub enum NodePlayer<N> {
    Configured(Config),
    Made(N),
}

impl<N: Node + Drop> NodePlayer<N> {
    ghost use Rattle.node_lines.specs.Player.{fresh_player, asked_step, made_step, set_step};
    ghost use Rattle.node_lines.specs.declared.player.NodePlayer.TheVariants.{Configured};
    ghost use Rattle.nodes.specs.Parameters.{config_fault};

    /// Creates a player of the default configuration, whose node is not made yet.
    pub fn new() -> NodePlayer<N>
        ensures { result ≡ fresh_player }
    {
        NodePlayer::Configured(Config::default())
    }

    // Gives a parameter this value, unless the node is made.
    fn set(
        &mut self,
        parameter: Parameter,
        number: u64,
        text: &mut String,
    ) -> Result<bool, AllocError>
        requires { number ≤ most_for parameter }
        ensures text { Appends result text.old text.new (set_step self.old parameter number).answer }
        ensures state { OnOk result (self.new ≡ (set_step self.old parameter number).after) }
        ensures good { IfOk result (λ good. good ≡ (set_step self.old parameter number).is_good) }
    {
        match self {
            NodePlayer::Configured(config) => {
                config.set(parameter, number);
                Ok(true)
            }
            NodePlayer::Made(_) => push_unreadable(text, "it is config after other lines"),
        }
    }

    // Asks the node, and makes it first if necessary. What the node does not take is unreadable, for this
    // cause.
    fn ask(
        &mut self,
        alloc: Global,
        ask: Ask<'_>,
        cause: &'static str,
        text: &mut String,
    ) -> Result<bool, AllocError>
        ensures text { Appends result text.old text.new
            (asked_step N.rules cause.now self.old (N.rules.asked (ask_view ask.entry))).answer }
        ensures state { OnOk result (self.new
            ≡ (asked_step N.rules cause.now self.old (N.rules.asked (ask_view ask.entry))).after) }
        ensures good { IfOk result (λ good. good
            ≡ (asked_step N.rules cause.now self.old (N.rules.asked (ask_view ask.entry))).is_good) }
    {
        if !N::takes(ask) {
            return push_unreadable(text, cause);
        }
        match self {
            NodePlayer::Made(node) => answer(node, alloc, ask, text),
            NodePlayer::Configured(config) => {
                let config = *config;
                self.ask_first(alloc, &config, ask, text)
            }
        }
    }

    // Makes the node from a configuration and asks it, if each field is in range. It is a call of its own,
    // since it takes room for moving a node, which no later line needs.
    #[inline(never)]
    fn ask_first(
        &mut self,
        alloc: Global,
        config: &Config,
        ask: Ask<'_>,
        text: &mut String,
    ) -> Result<bool, AllocError>
        requires { self.old ≡ Configured config.now }
        ensures text { Appends result text.old text.new
            (made_step N.rules config.now (config_fault config.now) (turned (N.rules.asked (ask_view ask.entry)))).answer }
        ensures state { OnOk result (self.new
            ≡ (made_step N.rules config.now (config_fault config.now) (turned (N.rules.asked (ask_view ask.entry)))).after) }
        ensures good { IfOk result (λ good. good
            ≡ (made_step N.rules config.now (config_fault config.now) (turned (N.rules.asked (ask_view ask.entry)))).is_good) }
    {
        match config.valid() {
            Ok(config) => {
                let mut node = N::made(alloc, &config)?;
                answer(&mut node, alloc, ask, text)?;
                *self = NodePlayer::Made(node);
                Ok(true)
            }
            Err(field) => push_out_of_range(text, field),
        }
    }

    // Asks the node, with digits instead of octets.
    fn ask_digits(
        &mut self,
        alloc: Global,
        ask: Ask<'_>,
        cause: &'static str,
        text: &mut String,
    ) -> Result<bool, AllocError>
        ensures text { Appends result text.old text.new
            (asked_step N.rules cause.now self.old (N.rules.asked (ask_said ask.entry))).answer }
        ensures state { OnOk result (self.new
            ≡ (asked_step N.rules cause.now self.old (N.rules.asked (ask_said ask.entry))).after) }
        ensures good { IfOk result (λ good. good
            ≡ (asked_step N.rules cause.now self.old (N.rules.asked (ask_said ask.entry))).is_good) }
    {
        let octets = octets_of_digits(alloc, octets_in(ask))?;
        self.ask(alloc, with_octets(ask, octets.as_slice()), cause, text)
    }
}

impl<N: Node + Drop> Player<String> for NodePlayer<N> {
    ghost use Rattle.node_lines.specs.Player.{node_playing};

    ghost playing = { node_playing N.rules };

    fn play(&mut self, alloc: Global, line: &[u8], text: &mut String) -> Result<bool, AllocError> {
        match read_line(line) {
            Line::Skipped => Ok(true),
            Line::Setting(parameter, number) => self.set(parameter, number, text),
            Line::Asking(ask) => {
                let cause = other_cause(ask, line, N::others());
                self.ask_digits(alloc, ask, cause, text)
            }
            Line::Helping => push_lines(text, N::lines()),
            Line::Unreadable => push_unreadable(text, cause_in(line)),
        }
    }
}

// Returns whether the ask is an event on the link between two nodes.
fn is_of_a_link(ask: Ask<'_>) -> bool
    ensures { result ≡ is_of_a_link (ask_said ask.entry) }
{
    let Ask::Happening(event) = ask else {
        return false;
    };
    match event {
        Event::UpDeliver | Event::UpLose | Event::UpDamage(_) => true,
        Event::DownDeliver | Event::DownLose | Event::DownDamage(_) | Event::DownClcw => true,
        _ => false,
    }
}

// Returns why an ask of this line that a node does not take is unreadable.
fn other_cause(ask: Ask<'_>, line: &[u8], others: &'static str) -> &'static str
    ensures { result.now ≡ other_cause (ask_said ask.entry) line.now others.now }
{
    if is_of_a_link(ask) {
        cause_in(line)
    } else {
        others
    }
}

// Asks a node, and appends the line of its answer.
fn answer<N: Node>(
    node: &mut N,
    alloc: Global,
    ask: Ask<'_>,
    text: &mut String,
) -> Result<bool, AllocError>
    ensures text { Appends result text.old text.new
        ((turned (N.rules.asked (ask_view ask.entry)) node.old).answer ++ 10 ∷ []) }
    ensures node { OnOk result (node.new ≡ (turned (N.rules.asked (ask_view ask.entry)) node.old).after) }
    ensures good { IfOk result (λ good. good ≡ true) }
{
    node.answer(alloc, ask, text)?;
    text.push('\n')?;
    Ok(true)
}

fn push_unreadable(text: &mut String, cause: &str) -> Result<bool, AllocError>
    ensures text { Appends result text.old text.new (codes "unreadable: " ++ (cause.now ++ 10 ∷ [])) }
    ensures good { IfOk result (λ good. good ≡ false) }
{
    write!(text, "unreadable: {cause}\n")?;
    Ok(false)
}

fn push_lines(text: &mut String, lines: &str) -> Result<bool, AllocError>
    ensures text { Appends result text.old text.new (codes "lines: " ++ (lines.now ++ 10 ∷ [])) }
    ensures good { IfOk result (λ good. good ≡ true) }
{
    write!(text, "lines: {lines}\n")?;
    Ok(true)
}

fn push_out_of_range(text: &mut String, field: &str) -> Result<bool, AllocError>
    ensures text { Appends result text.old text.new
        (codes "config out of range: " ++ (field.now ++ 10 ∷ [])) }
    ensures good { IfOk result (λ good. good ≡ false) }
{
    write!(text, "config out of range: {field}\n")?;
    Ok(false)
}
