//! What can fail and be brought back.
use machine_setup::{Input, Line};

/// A link, a switch, or the channel between a switch and its controller.
#[derive(Clone, Copy)]
pub(crate) enum Thing {
    Link(u16),
    Switch(u16),
    Control(u16),
}

impl Thing {
    ghost use Rattle.std.specs.Prelude.{◌≡◌};
    ghost use Rattle.std.specs.List.{list_any};
    ghost use Rattle.input_atoms.specs.Atoms.{brings_back, is_about, is_it, is_same, thing_failed, thing_recovered};

    /// What the input fails.
    pub(crate) fn failed(input: &Input) -> Option<Thing>
        ensures { result ≡ thing_failed input.now }
    {
        match input {
            Input::LinkDown(link) => Some(Thing::Link(*link)),
            Input::SwitchFail(s) => Some(Thing::Switch(*s)),
            Input::ControlDown(s) => Some(Thing::Control(*s)),
            Input::Inject { .. }
            | Input::LinkUp(_)
            | Input::SwitchUp(_)
            | Input::ControlUp(_)
            | Input::HostMove { .. }
            | Input::Policy { .. }
            | Input::Seconds(_) => None,
        }
    }

    /// What the input brings back.
    fn recovered(input: &Input) -> Option<Thing>
        ensures { result ≡ thing_recovered input.now }
    {
        match input {
            Input::LinkUp(link) => Some(Thing::Link(*link)),
            Input::SwitchUp(s) => Some(Thing::Switch(*s)),
            Input::ControlUp(s) => Some(Thing::Control(*s)),
            Input::Inject { .. }
            | Input::LinkDown(_)
            | Input::SwitchFail(_)
            | Input::ControlDown(_)
            | Input::HostMove { .. }
            | Input::Policy { .. }
            | Input::Seconds(_) => None,
        }
    }

    /// Whether the line brings the thing back.
    pub(crate) fn is_back_by(&self, line: &Line) -> bool
        ensures { result ≡ brings_back self.now line.now }
    {
        self.is_it(Thing::recovered(&line.input))
    }

    // Whether the line fails the thing or brings it back.
    fn is_changed_by(&self, line: &Line) -> bool
        ensures { result ≡ is_about self.now line.now }
    {
        self.is_it(Thing::failed(&line.input)) || self.is_it(Thing::recovered(&line.input))
    }

    /// Whether one of the lines fails the thing or brings it back.
    pub(crate) fn is_changed_among(&self, lines: &[Line]) -> bool
        ensures { result ≡ list_any (is_about self.now) lines.now }
    {
        lines.iter().any(|line| self.is_changed_by(line))
    }

    fn is_it(&self, other: Option<Thing>) -> bool
        ensures { result ≡ is_it self.now other }
    {
        match other {
            Some(other) => self.is_same(&other),
            None => false,
        }
    }

    fn is_same(&self, other: &Thing) -> bool
        ensures { result ≡ is_same self.now other.now }
    {
        match (self, other) {
            (Thing::Link(one), Thing::Link(two)) => *one == *two,
            (Thing::Switch(one), Thing::Switch(two)) => *one == *two,
            (Thing::Control(one), Thing::Control(two)) => *one == *two,
            _ => false,
        }
    }
}
