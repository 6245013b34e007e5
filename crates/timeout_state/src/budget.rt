//! The looks that a call may still have, of its timeout. (GASPI: timeouts)

ghost use Rattle.std.specs.Prelude.{◌≡◌};
ghost use Rattle.timeout_state.specs.declared.budget.Look.TheVariants.{More};

use gaspi_types::Timeout;
use std::marker::Model;

/// Whether a look is the last that a call may have. (GASPI: timeouts)
#[derive(Clone, Copy, Debug, PartialEq, Eq)]
pub enum Look {
    /// Others may follow.
    More,
    /// It is the last.
    Final,
}

/// How many looks a call may still have. Contracts see that number, or none where they have no end.
#[derive(Debug, Drop)]
pub struct Budget {
    /// That number; None for `Block`.
    left: Option<u32>,
}

impl Model for Budget {
    ghost use Rattle.std.specs.Prelude.{ℕ, Option};

    ghost Value = { Option ℕ };

    ghost view = { λ budget. budget.left };
}

impl Budget {
    ghost use Rattle.timeout_state.specs.Looks.{looks_of, answer_of, spent, HasLook};

    /// All the looks of a timeout, which has at least one. (GASPI: timeouts)
    pub fn new(timeout: Timeout) -> Budget
        requires { HasLook (looks_of timeout) }
        ensures { result ≡ looks_of timeout }
    {
        let left = match timeout {
            Timeout::Looks(looks) => Some(looks),
            Timeout::Block => None,
        };
        Budget { left }
    }

    /// Uses up one look, and says which it is: `Final` where it is the last, else `More`; of `Block` none is the last. There is a
    /// look left; after `Final` there is none. (GASPI: timeouts)
    pub fn next(&mut self) -> Look
        requires { HasLook self.old }
        ensures answer { result ≡ answer_of self.old }
        ensures left { self.new ≡ spent self.old }
        ensures others { result ≡ More → HasLook self.new }
    {
        let Some(left) = self.left else {
            return Look::More;
        };
        self.left = Some(left - 1);
        if left == 1 { Look::Final } else { Look::More }
    }
}
