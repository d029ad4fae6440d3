//! The gates that the program has.
ghost use Rattle.std.specs.Prelude.{◌≡◌, length};

use run_recorder::OpenGate;

/// A gate for each worker that there can be, all of them open.
pub fn open_gates() -> [OpenGate; 8]
    ensures { length result ≡ 8 }
{
    [
        OpenGate::new(),
        OpenGate::new(),
        OpenGate::new(),
        OpenGate::new(),
        OpenGate::new(),
        OpenGate::new(),
        OpenGate::new(),
        OpenGate::new(),
    ]
}
