//! Who acts in the machine.

/// Who takes a step.
#[derive(Clone, Copy, Debug, PartialEq, Eq)]
pub enum Actor {
    /// The script, which gives the inputs.
    Script,
    Switch(u16),
    Controller(u16),
    Host(u16),
}
