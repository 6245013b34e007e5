//! Programs of callers. (own choice)

use crate::callers::Caller;
use std::sync::Wait;

/// What each caller of a world does. One value of the type serves the threads of all callers. (own choice)
pub trait Program {
    ghost use Rattle.rank_programs.specs.Callers.{IsCaller, StaysCaller};

    /// What the program came to for one caller.
    type Outcome: Drop;

    /// Makes the calls of one caller, on that caller's thread. The end of the caller is made afterwards.
    fn run<R: Wait>(&self, caller: &mut Caller<'_, R>) -> Self::Outcome
        requires { IsCaller caller.old }
        ensures { StaysCaller caller.old caller.new };
}
