//! What was measured.

use std::time::Duration;

/// How long the calls take together, and a sum over what they answered.
#[derive(Clone, Copy, Debug)]
pub struct Figure {
    pub time: Duration,
    pub sum: u64,
}
