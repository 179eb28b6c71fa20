//! What is counted of a load's steps.

ghost use Rattle.std.specs.Prelude.{◌≡◌, count_by};
ghost use Rattle.load_gen.specs.Summary.{is_call};

use script_lang::Event;

// Whether the event is a command or a query.
fn is_call(event: &Event) -> bool
    ensures { result ≡ is_call event.now }
{
    matches!(event, Event::Call { .. } | Event::Query { .. })
}

/// How many of the events are commands and queries.
pub fn calls(events: &[Event]) -> usize
    ensures { result ≡ count_by is_call events.now }
{
    events.iter().filter(|event| is_call(event)).count()
}
