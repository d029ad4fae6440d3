//! Gates, through which a worker passes before each of its rounds.
ghost use Rattle.std.specs.Prelude.{◌≡◌, ℕ, ◌+◌, ◌-◌, ◌^◌, min};

/// A gate lets a worker through when it will. Contracts see how often one passed; the count stands still at 18,446,744,073,709,551,615.
pub trait Gate: Send + Drop {
    ghost passes: { Self → ℕ };

    /// Called before each round of a worker, with its number and how many rounds it made before.
    fn pass(&mut self, worker: u32, step: u64)
        ensures { passes self.new ≡ min (passes self.old + 1) (2 ^ 64 - 1) };
}

/// A gate that lets everyone through at once, and counts.
#[derive(Debug, Drop)]
pub struct OpenGate {
    passes: u64,
}

impl OpenGate {
    ghost use Rattle.run_recorder.specs.Gates.{open_passes};

    /// A gate through which nobody has passed.
    pub fn new() -> OpenGate
        ensures { open_passes result ≡ 0 }
    {
        OpenGate { passes: 0 }
    }
}

impl Gate for OpenGate {
    ghost use Rattle.run_recorder.specs.Gates.{open_passes};

    ghost passes = { open_passes };

    fn pass(&mut self, _worker: u32, _step: u64) {
        self.passes = self.passes.saturating_add(1);
    }
}
