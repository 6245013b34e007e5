//! A law of looks: the contract of a function that does nothing. (GASPI: timeouts)

ghost use Rattle.std.specs.Prelude.{◌≡◌, ℕ, ◌<◌, ◌≤◌};
ghost use Rattle.gaspi_types.specs.declared.calls.Timeout.TheVariants.{Looks, Block};
ghost use Rattle.timeout_state.specs.Looks.{looks_of, look_number};
ghost use Rattle.timeout_state.specs.declared.budget.Look.TheVariants.{More, Final};

/// Of `Looks(n)` the n-th look is `Final`, and each before it is `More`. Of `Block` each look is `More`.
pub fn last_look_is_final()
    ensures last { (n : ℕ) → 1 ≤ n → look_number n (looks_of (Looks n)) ≡ Final }
    ensures earlier { (n k : ℕ) → 1 ≤ k → k < n → look_number k (looks_of (Looks n)) ≡ More }
    ensures block { (k : ℕ) → look_number k (looks_of Block) ≡ More }
{}
