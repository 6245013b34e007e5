//! Laws of runs: the contract of a function that does nothing.

ghost use Rattle.std.specs.Prelude.{◌≡◌, ◌⊎◌, ◌<◌, ℕ, List, [], ◌∷◌, ◌++◌, Some, true};
ghost use Rattle.gaspi_types.specs.declared.calls.Call.{Call};
ghost use Rattle.gaspi_types.specs.declared.replies.Reply.{Reply};
ghost use Rattle.gaspi_types.specs.Replies.{same_reply};
ghost use Rattle.rank_script.specs.declared.scripts.ScriptLine.{ScriptLine};
ghost use Rattle.rank_script.specs.declared.scripts.RunOutcome.{RunOutcome};
ghost use Rattle.rank_script.specs.Runs.{RunPosition, AtLine, RunEnded, at_first_line, advanced, end_pair, Follows, IsStopped, IsRun};

/// Pairs of calls with replies lead a run from one line to another. One more pair leads to where its reply leads (`onward`). Pairs
/// that lead to an ending, or to a line before which the run is stopped, are a whole run once the caller's end is added (`ended`,
/// `stopped`). A call that is made again was made less often than its line allows (`bounded`). A run goes on after a line that expects
/// a reply only with that reply (`met`).
pub fn runs()
    ensures onward { (p : RunPosition) (pairs : List (Call × Reply)) (line : ScriptLine) (made : ℕ) (lines : List ScriptLine) (reply : Reply)
        → Follows p pairs (AtLine line made lines) → Follows p (pairs ++ (line.call, reply) ∷ []) (advanced (AtLine line made lines) reply) }
    ensures ended { (lines : List ScriptLine) (pairs : List (Call × Reply)) (outcome : RunOutcome)
        → Follows (at_first_line lines) pairs (RunEnded outcome) → IsRun lines (pairs ++ end_pair) outcome }
    ensures stopped { (lines : List ScriptLine) (pairs : List (Call × Reply)) (line : ScriptLine) (made : ℕ) (rest : List ScriptLine) (outcome : RunOutcome)
        → Follows (at_first_line lines) pairs (AtLine line made rest) → IsStopped line.number outcome → IsRun lines (pairs ++ end_pair) outcome }
    ensures bounded { (lines : List ScriptLine) (pairs : List (Call × Reply)) (line : ScriptLine) (made : ℕ) (rest : List ScriptLine)
        → Follows (at_first_line lines) pairs (AtLine line made rest) → (made ≡ 0) ⊎ (made < line.tries) }
    ensures met { (line : ScriptLine) (made : ℕ) (lines : List ScriptLine) (reply : Reply) (expected : Reply)
        → line.expected ≡ Some expected → advanced (AtLine line made lines) reply ≡ at_first_line lines → same_reply reply expected ≡ true }
{}
