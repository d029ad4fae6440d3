//! The commands of a FLOW_MOD.

/// What a FLOW_MOD asks of a table, after OpenFlow 1.0.0 section 5.3.3 (`ofp_flow_mod_command`).
#[derive(Clone, Copy, Debug, PartialEq, Eq)]
pub enum Command {
    /// Put the entry last, and take out what has its match and priority.
    Add,
    /// Change the actions of every entry that the match covers, or add where there is none.
    Modify,
    /// Change the actions of what has the match and the priority, or add where there is none.
    ModifyStrict,
    /// Take out every entry that the match covers, of those with an OUTPUT to `out_port`, where that is a port.
    Delete,
    /// Take out what has the match and the priority, if likewise.
    DeleteStrict,
}
