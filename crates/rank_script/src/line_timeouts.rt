//! The timeout of a script line.

ghost use Rattle.std.specs.Prelude.{◌≡◌, true};
ghost use Rattle.rank_script.specs.PlainScripts.{has_look_in};

use gaspi_types::Timeout;
use std::marker::Model;

/// The timeout of a script line, in four bytes, since a script has many lines. Contracts see the timeout. (own choice)
#[derive(Debug, Drop)]
pub struct LineTimeout {
    /// How many looks it is; 0 for looks without end.
    looks: u32,
}

impl Model for LineTimeout {
    ghost use Rattle.gaspi_types.specs.declared.calls.Timeout.{Timeout};
    ghost use Rattle.rank_script.specs.LineTimeouts.{timeout_in};

    ghost Value = { Timeout };

    ghost view = { λ timeout. timeout_in timeout.looks };
}

impl LineTimeout {
    /// A timeout as a line keeps it. It must have one look at least.
    pub fn new(timeout: Timeout) -> LineTimeout
        requires { has_look_in timeout ≡ true }
        ensures { result ≡ timeout }
    {
        match timeout {
            Timeout::Looks(looks) => LineTimeout { looks },
            Timeout::Block => LineTimeout { looks: 0 },
        }
    }

    /// The timeout that was given to `new`.
    pub fn get(&self) -> Timeout
        ensures { result ≡ self.now }
    {
        if self.looks == 0 {
            Timeout::Block
        } else {
            Timeout::Looks(self.looks)
        }
    }
}
