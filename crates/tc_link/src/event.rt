// The events of a simulated link: the numbers that they set are octets.

ghost use Rattle.tc_link.specs.Reached.{IsEvent};

use cop1::Directive;
use nodes::Event;

// Does nothing. Its contract states that the numbers that an event sets are octets.
pub(crate) fn keeps_octets(event: Event<'_>)
    ensures { IsEvent event.entry }
{
    match event {
        Event::Directive(Directive::InitSetVr(_x)) => {}
        Event::Directive(Directive::SetVs(_x)) => {}
        Event::Resume(_x) => {}
        _ => {}
    }
}
