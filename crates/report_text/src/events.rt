//! The words of events.
ghost use Rattle.std.specs.Prelude.{◌≡◌, ◌++◌, OnOk, string_bytes};
ghost use Rattle.report_text.specs.Events.{event_text};

use event_machine::Event;
use std::alloc::AllocError;

/// Adds the words of an event.
pub(crate) fn push_event(text: &mut String, event: &Event) -> Result<(), AllocError>
    ensures { OnOk result (string_bytes text.new ≡ string_bytes text.old ++ event_text event.now) }
{
    match *event {
        Event::In(position) => write!(text, "in {position}"),
        Event::Ctl { s, item } => write!(text, "ctl {s} {item}"),
        Event::Pkt { s, p, item } => write!(text, "pkt {s} {p} {item}"),
        Event::Note { s, item } => write!(text, "note {s} {item}"),
        Event::App { c, s, item } => write!(text, "app {c} {s} {item}"),
        Event::Admin { c, item } => write!(text, "admin {c} {item}"),
        Event::Recv { h, item } => write!(text, "recv {h} {item}"),
    }
}
