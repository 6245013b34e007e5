//! Laws of the words, most of them by example. A law is the contract of a function that does nothing.

ghost use Rattle.std.specs.Prelude.{◌≡◌, ◌≢◌, ◌≤◌, ℕ, List, [], ◌∷◌, Some, None, codes, is_some, true, false};
ghost use Rattle.std.specs.Fmt.{decimal};
ghost use Rattle.command_line.specs.Words.{command_of, the_app};
ghost use Rattle.clap.specs.Words.{fault_of};

use crate::words::Command;

/// These words are accepted, with these values.
#[tactic(auto, unfolding(crate::specs::Words::command_of, clap::proofs::OnLiterals::clap_on_literals))]
pub fn words_that_are_accepted()
    ensures run_plain { command_of (codes "run" ∷ []) ≡ Some (Command.Run 1 1000000 false) }
    ensures run_brief { command_of (codes "run" ∷ codes "--brief" ∷ [])
        ≡ Some (Command.Run 1 1000000 true) }
    ensures run_workers { command_of (codes "run" ∷ codes "--workers" ∷ codes "2" ∷ [])
        ≡ Some (Command.Run 2 1000000 false) }
    ensures run_least_workers { command_of (codes "run" ∷ codes "--workers" ∷ codes "1" ∷ [])
        ≡ Some (Command.Run 1 1000000 false) }
    ensures run_most_workers { command_of (codes "run" ∷ codes "--workers" ∷ codes "4" ∷ [])
        ≡ Some (Command.Run 4 1000000 false) }
    ensures run_least_limit { command_of (codes "run" ∷ codes "--limit" ∷ codes "1" ∷ [])
        ≡ Some (Command.Run 1 1 false) }
    ensures run_most_limit { command_of (codes "run" ∷ codes "--limit" ∷ codes "100000000" ∷ [])
        ≡ Some (Command.Run 1 100000000 false) }
    ensures run_all { command_of (codes "run" ∷ codes "--workers" ∷ codes "3" ∷ codes "--limit" ∷ codes "5" ∷ codes "--brief" ∷ [])
        ≡ Some (Command.Run 3 5 true) }
    ensures run_other_order { command_of (codes "run" ∷ codes "--brief" ∷ codes "--limit" ∷ codes "5" ∷ codes "--workers" ∷ codes "3" ∷ [])
        ≡ Some (Command.Run 3 5 true) }
    ensures plain { command_of (codes "step" ∷ []) ≡ Some (Command.Step 0 1000000 false) }
    ensures brief { command_of (codes "step" ∷ codes "--brief" ∷ [])
        ≡ Some (Command.Step 0 1000000 true) }
    ensures most_seed { command_of (codes "step" ∷ codes "--seed" ∷ codes "4294967295" ∷ [])
        ≡ Some (Command.Step 4294967295 1000000 false) }
    ensures joined_seed { command_of (codes "step" ∷ codes "--seed=5" ∷ [])
        ≡ Some (Command.Step 5 1000000 false) }
    ensures least_limit { command_of (codes "step" ∷ codes "--limit" ∷ codes "1" ∷ [])
        ≡ Some (Command.Step 0 1 false) }
    ensures most_limit { command_of (codes "step" ∷ codes "--limit" ∷ codes "100000000" ∷ [])
        ≡ Some (Command.Step 0 100000000 false) }
    ensures all { command_of (codes "step" ∷ codes "--seed" ∷ codes "5" ∷ codes "--limit" ∷ codes "3" ∷ codes "--brief" ∷ [])
        ≡ Some (Command.Step 5 3 true) }
    ensures other_order { command_of (codes "step" ∷ codes "--brief" ∷ codes "--limit" ∷ codes "3" ∷ codes "--seed" ∷ codes "5" ∷ [])
        ≡ Some (Command.Step 5 3 true) }
    ensures check { command_of (codes "check" ∷ []) ≡ Some Command.Check }
    ensures why { command_of (codes "why" ∷ codes "--place" ∷ codes "4" ∷ []) ≡ Some (Command.Why 4) }
    ensures why_joined { command_of (codes "why" ∷ codes "--place=4" ∷ []) ≡ Some (Command.Why 4) }
    ensures why_least { command_of (codes "why" ∷ codes "--place" ∷ codes "0" ∷ []) ≡ Some (Command.Why 0) }
    ensures why_most { command_of (codes "why" ∷ codes "--place" ∷ codes "18446744073709551615" ∷ []) ≡ Some (Command.Why 18446744073709551615) }
    ensures bench { command_of (codes "bench" ∷ codes "--seed" ∷ codes "5" ∷ codes "--ranks" ∷ codes "4" ∷ codes "--rounds" ∷ codes "3" ∷ []) ≡ Some (Command.Bench 5 4 3) }
    ensures bench_other_order { command_of (codes "bench" ∷ codes "--rounds" ∷ codes "3" ∷ codes "--seed" ∷ codes "5" ∷ codes "--ranks" ∷ codes "4" ∷ []) ≡ Some (Command.Bench 5 4 3) }
    ensures bench_least { command_of (codes "bench" ∷ codes "--seed" ∷ codes "0" ∷ codes "--ranks" ∷ codes "1" ∷ codes "--rounds" ∷ codes "1" ∷ []) ≡ Some (Command.Bench 0 1 1) }
    ensures bench_most { command_of (codes "bench" ∷ codes "--seed" ∷ codes "4294967295" ∷ codes "--ranks" ∷ codes "16" ∷ codes "--rounds" ∷ codes "5000" ∷ []) ≡ Some (Command.Bench 4294967295 16 5000) }
{}

/// These words are refused: no command, an unknown one, a number that is none or out of its range, a needed option left out, an
/// option or a flag given twice, and words that a subcommand does not have.
#[tactic(auto, unfolding(crate::specs::Words::command_of, clap::proofs::OnLiterals::clap_on_literals))]
pub fn words_that_are_refused()
    ensures nothing { command_of [] ≡ None }
    ensures empty_word { command_of ([] ∷ []) ≡ None }
    ensures other_command { command_of (codes "play" ∷ []) ≡ None }
    ensures longer_run { command_of (codes "runs" ∷ []) ≡ None }
    ensures longer_step { command_of (codes "steps" ∷ []) ≡ None }
    ensures workers_zero { command_of (codes "run" ∷ codes "--workers" ∷ codes "0" ∷ []) ≡ None }
    ensures workers_past_most { command_of (codes "run" ∷ codes "--workers" ∷ codes "5" ∷ []) ≡ None }
    ensures workers_without_number { command_of (codes "run" ∷ codes "--workers" ∷ []) ≡ None }
    ensures workers_no_number { command_of (codes "run" ∷ codes "--workers" ∷ codes "x" ∷ []) ≡ None }
    ensures workers_twice { command_of (codes "run" ∷ codes "--workers" ∷ codes "1" ∷ codes "--workers" ∷ codes "1" ∷ []) ≡ None }
    ensures run_limit_zero { command_of (codes "run" ∷ codes "--limit" ∷ codes "0" ∷ []) ≡ None }
    ensures run_limit_past_most { command_of (codes "run" ∷ codes "--limit" ∷ codes "100000001" ∷ []) ≡ None }
    ensures run_brief_twice { command_of (codes "run" ∷ codes "--brief" ∷ codes "--brief" ∷ []) ≡ None }
    ensures run_seed { command_of (codes "run" ∷ codes "--seed" ∷ codes "5" ∷ []) ≡ None }
    ensures run_twice { command_of (codes "run" ∷ codes "run" ∷ []) ≡ None }
    ensures step_workers { command_of (codes "step" ∷ codes "--workers" ∷ codes "1" ∷ []) ≡ None }
    ensures check_workers { command_of (codes "check" ∷ codes "--workers" ∷ codes "1" ∷ []) ≡ None }
    ensures seed_past_most { command_of (codes "step" ∷ codes "--seed" ∷ codes "4294967296" ∷ []) ≡ None }
    ensures limit_zero { command_of (codes "step" ∷ codes "--limit" ∷ codes "0" ∷ []) ≡ None }
    ensures limit_past_most { command_of (codes "step" ∷ codes "--limit" ∷ codes "100000001" ∷ []) ≡ None }
    ensures step_twice { command_of (codes "step" ∷ codes "step" ∷ []) ≡ None }
    ensures check_brief { command_of (codes "check" ∷ codes "--brief" ∷ []) ≡ None }
    ensures brief_first { command_of (codes "--brief" ∷ codes "step" ∷ []) ≡ None }
    ensures seed_without_number { command_of (codes "step" ∷ codes "--seed" ∷ []) ≡ None }
    ensures seed_no_number { command_of (codes "step" ∷ codes "--seed" ∷ codes "x" ∷ []) ≡ None }
    ensures seed_twice { command_of (codes "step" ∷ codes "--seed" ∷ codes "5" ∷ codes "--seed" ∷ codes "5" ∷ []) ≡ None }
    ensures limit_twice { command_of (codes "step" ∷ codes "--limit" ∷ codes "5" ∷ codes "--limit" ∷ codes "5" ∷ []) ≡ None }
    ensures brief_twice { command_of (codes "step" ∷ codes "--brief" ∷ codes "--brief" ∷ []) ≡ None }
    ensures brief_with_value { command_of (codes "step" ∷ codes "--brief=true" ∷ []) ≡ None }
    ensures why_alone { command_of (codes "why" ∷ []) ≡ None }
    ensures why_place_without_number { command_of (codes "why" ∷ codes "--place" ∷ []) ≡ None }
    ensures why_place_no_number { command_of (codes "why" ∷ codes "--place" ∷ codes "x" ∷ []) ≡ None }
    ensures why_place_minus { command_of (codes "why" ∷ codes "--place" ∷ codes "-1" ∷ []) ≡ None }
    ensures why_place_joined_minus { command_of (codes "why" ∷ codes "--place=-0" ∷ []) ≡ None }
    ensures why_place_past_most { command_of (codes "why" ∷ codes "--place" ∷ codes "18446744073709551616" ∷ []) ≡ None }
    ensures why_place_twice { command_of (codes "why" ∷ codes "--place" ∷ codes "4" ∷ codes "--place" ∷ codes "4" ∷ []) ≡ None }
    ensures why_word { command_of (codes "why" ∷ codes "4" ∷ []) ≡ None }
    ensures why_word_behind { command_of (codes "why" ∷ codes "--place" ∷ codes "4" ∷ codes "5" ∷ []) ≡ None }
    ensures why_brief { command_of (codes "why" ∷ codes "--brief" ∷ []) ≡ None }
    ensures why_place_and_brief { command_of (codes "why" ∷ codes "--place" ∷ codes "4" ∷ codes "--brief" ∷ []) ≡ None }
    ensures why_limit { command_of (codes "why" ∷ codes "--place" ∷ codes "4" ∷ codes "--limit" ∷ codes "5" ∷ []) ≡ None }
    ensures check_place { command_of (codes "check" ∷ codes "--place" ∷ codes "4" ∷ []) ≡ None }
    ensures run_place { command_of (codes "run" ∷ codes "--place" ∷ codes "4" ∷ []) ≡ None }
    ensures longer_why { command_of (codes "whys" ∷ codes "--place" ∷ codes "4" ∷ []) ≡ None }
    ensures bench_alone { command_of (codes "bench" ∷ []) ≡ None }
    ensures bench_without_seed { command_of (codes "bench" ∷ codes "--ranks" ∷ codes "4" ∷ codes "--rounds" ∷ codes "3" ∷ []) ≡ None }
    ensures bench_without_ranks { command_of (codes "bench" ∷ codes "--seed" ∷ codes "5" ∷ codes "--rounds" ∷ codes "3" ∷ []) ≡ None }
    ensures bench_without_rounds { command_of (codes "bench" ∷ codes "--seed" ∷ codes "5" ∷ codes "--ranks" ∷ codes "4" ∷ []) ≡ None }
    ensures bench_seed_twice { command_of (codes "bench" ∷ codes "--seed" ∷ codes "5" ∷ codes "--ranks" ∷ codes "4" ∷ codes "--rounds" ∷ codes "3" ∷ codes "--seed" ∷ codes "5" ∷ []) ≡ None }
    ensures bench_ranks_twice { command_of (codes "bench" ∷ codes "--seed" ∷ codes "5" ∷ codes "--ranks" ∷ codes "4" ∷ codes "--rounds" ∷ codes "3" ∷ codes "--ranks" ∷ codes "4" ∷ []) ≡ None }
    ensures bench_rounds_twice { command_of (codes "bench" ∷ codes "--seed" ∷ codes "5" ∷ codes "--ranks" ∷ codes "4" ∷ codes "--rounds" ∷ codes "3" ∷ codes "--rounds" ∷ codes "3" ∷ []) ≡ None }
    ensures bench_seed_past_most { command_of (codes "bench" ∷ codes "--seed" ∷ codes "4294967296" ∷ codes "--ranks" ∷ codes "4" ∷ codes "--rounds" ∷ codes "3" ∷ []) ≡ None }
    ensures bench_ranks_zero { command_of (codes "bench" ∷ codes "--seed" ∷ codes "5" ∷ codes "--ranks" ∷ codes "0" ∷ codes "--rounds" ∷ codes "3" ∷ []) ≡ None }
    ensures bench_ranks_past_most { command_of (codes "bench" ∷ codes "--seed" ∷ codes "5" ∷ codes "--ranks" ∷ codes "17" ∷ codes "--rounds" ∷ codes "3" ∷ []) ≡ None }
    ensures bench_rounds_zero { command_of (codes "bench" ∷ codes "--seed" ∷ codes "5" ∷ codes "--ranks" ∷ codes "4" ∷ codes "--rounds" ∷ codes "0" ∷ []) ≡ None }
    ensures bench_rounds_past_most { command_of (codes "bench" ∷ codes "--seed" ∷ codes "5" ∷ codes "--ranks" ∷ codes "4" ∷ codes "--rounds" ∷ codes "5001" ∷ []) ≡ None }
    ensures bench_seed_no_number { command_of (codes "bench" ∷ codes "--seed" ∷ codes "x" ∷ codes "--ranks" ∷ codes "4" ∷ codes "--rounds" ∷ codes "3" ∷ []) ≡ None }
    ensures bench_ranks_no_number { command_of (codes "bench" ∷ codes "--seed" ∷ codes "5" ∷ codes "--ranks" ∷ codes "x" ∷ codes "--rounds" ∷ codes "3" ∷ []) ≡ None }
    ensures bench_rounds_no_number { command_of (codes "bench" ∷ codes "--seed" ∷ codes "5" ∷ codes "--ranks" ∷ codes "4" ∷ codes "--rounds" ∷ codes "x" ∷ []) ≡ None }
    ensures bench_seed_without_number { command_of (codes "bench" ∷ codes "--ranks" ∷ codes "4" ∷ codes "--rounds" ∷ codes "3" ∷ codes "--seed" ∷ []) ≡ None }
    ensures bench_ranks_without_number { command_of (codes "bench" ∷ codes "--seed" ∷ codes "5" ∷ codes "--rounds" ∷ codes "3" ∷ codes "--ranks" ∷ []) ≡ None }
    ensures bench_rounds_without_number { command_of (codes "bench" ∷ codes "--seed" ∷ codes "5" ∷ codes "--ranks" ∷ codes "4" ∷ codes "--rounds" ∷ []) ≡ None }
    ensures bench_brief { command_of (codes "bench" ∷ codes "--seed" ∷ codes "5" ∷ codes "--ranks" ∷ codes "4" ∷ codes "--rounds" ∷ codes "3" ∷ codes "--brief" ∷ []) ≡ None }
    ensures bench_workers { command_of (codes "bench" ∷ codes "--seed" ∷ codes "5" ∷ codes "--ranks" ∷ codes "4" ∷ codes "--rounds" ∷ codes "3" ∷ codes "--workers" ∷ codes "1" ∷ []) ≡ None }
    ensures bench_limit { command_of (codes "bench" ∷ codes "--seed" ∷ codes "5" ∷ codes "--ranks" ∷ codes "4" ∷ codes "--rounds" ∷ codes "3" ∷ codes "--limit" ∷ codes "5" ∷ []) ≡ None }
    ensures bench_word { command_of (codes "bench" ∷ codes "--seed" ∷ codes "5" ∷ codes "--ranks" ∷ codes "4" ∷ codes "--rounds" ∷ codes "3" ∷ codes "5" ∷ []) ≡ None }
    ensures step_ranks { command_of (codes "step" ∷ codes "--ranks" ∷ codes "4" ∷ []) ≡ None }
{}

/// Words that ask for help or for the version are refused like all others.
#[tactic(auto, unfolding(crate::specs::Words::command_of, clap::proofs::OnLiterals::clap_on_literals))]
pub fn help_and_version_are_refused()
    ensures flag { command_of (codes "--help" ∷ []) ≡ None }
    ensures short { command_of (codes "-h" ∷ []) ≡ None }
    ensures word { command_of (codes "help" ∷ []) ≡ None }
    ensures version { command_of (codes "--version" ∷ []) ≡ None }
    ensures short_version { command_of (codes "-V" ∷ []) ≡ None }
    ensures of_run { command_of (codes "run" ∷ codes "--help" ∷ []) ≡ None }
    ensures short_of_run { command_of (codes "run" ∷ codes "-h" ∷ []) ≡ None }
    ensures of_step { command_of (codes "step" ∷ codes "--help" ∷ []) ≡ None }
    ensures short_of_step { command_of (codes "step" ∷ codes "-h" ∷ []) ≡ None }
    ensures of_check { command_of (codes "check" ∷ codes "--help" ∷ []) ≡ None }
    ensures of_why { command_of (codes "why" ∷ codes "--help" ∷ []) ≡ None }
    ensures short_of_why { command_of (codes "why" ∷ codes "-h" ∷ []) ≡ None }
    ensures of_why_with_place { command_of (codes "why" ∷ codes "--place" ∷ codes "4" ∷ codes "--help" ∷ []) ≡ None }
    ensures of_bench { command_of (codes "bench" ∷ codes "--seed" ∷ codes "5" ∷ codes "--ranks" ∷ codes "4" ∷ codes "--rounds" ∷ codes "3" ∷ codes "--help" ∷ []) ≡ None }
    ensures short_of_bench { command_of (codes "bench" ∷ codes "--seed" ∷ codes "5" ∷ codes "--ranks" ∷ codes "4" ∷ codes "--rounds" ∷ codes "3" ∷ codes "-h" ∷ []) ≡ None }
{}

/// A number may have a plus and leading zeros, and 0 a minus where `=` joins it; `--` at the end changes nothing.
#[tactic(auto, unfolding(crate::specs::Words::command_of, clap::proofs::OnLiterals::clap_on_literals))]
pub fn other_forms_that_are_accepted()
    ensures run_plus { command_of (codes "run" ∷ codes "--workers" ∷ codes "+3" ∷ []) ≡ Some (Command.Run 3 1000000 false) }
    ensures run_zeros { command_of (codes "run" ∷ codes "--workers" ∷ codes "04" ∷ []) ≡ Some (Command.Run 4 1000000 false) }
    ensures run_dashes { command_of (codes "run" ∷ codes "--" ∷ []) ≡ Some (Command.Run 1 1000000 false) }
    ensures plus { command_of (codes "step" ∷ codes "--seed" ∷ codes "+5" ∷ []) ≡ Some (Command.Step 5 1000000 false) }
    ensures zeros { command_of (codes "step" ∷ codes "--seed" ∷ codes "05" ∷ []) ≡ Some (Command.Step 5 1000000 false) }
    ensures minus { command_of (codes "step" ∷ codes "--seed=-0" ∷ []) ≡ Some (Command.Step 0 1000000 false) }
    ensures dashes { command_of (codes "step" ∷ codes "--" ∷ []) ≡ Some (Command.Step 0 1000000 false) }
    ensures check_dashes { command_of (codes "check" ∷ codes "--" ∷ []) ≡ Some Command.Check }
    ensures why_plus { command_of (codes "why" ∷ codes "--place" ∷ codes "+4" ∷ []) ≡ Some (Command.Why 4) }
    ensures why_zeros { command_of (codes "why" ∷ codes "--place" ∷ codes "04" ∷ []) ≡ Some (Command.Why 4) }
    ensures why_dashes { command_of (codes "why" ∷ codes "--place" ∷ codes "4" ∷ codes "--" ∷ []) ≡ Some (Command.Why 4) }
    ensures bench_plus { command_of (codes "bench" ∷ codes "--seed" ∷ codes "+5" ∷ codes "--ranks" ∷ codes "4" ∷ codes "--rounds" ∷ codes "3" ∷ []) ≡ Some (Command.Bench 5 4 3) }
    ensures bench_zeros { command_of (codes "bench" ∷ codes "--seed" ∷ codes "5" ∷ codes "--ranks" ∷ codes "04" ∷ codes "--rounds" ∷ codes "3" ∷ []) ≡ Some (Command.Bench 5 4 3) }
    ensures bench_joined { command_of (codes "bench" ∷ codes "--seed=-0" ∷ codes "--ranks=4" ∷ codes "--rounds=3" ∷ []) ≡ Some (Command.Bench 0 4 3) }
    ensures bench_dashes { command_of (codes "bench" ∷ codes "--seed" ∷ codes "5" ∷ codes "--ranks" ∷ codes "4" ∷ codes "--rounds" ∷ codes "3" ∷ codes "--" ∷ []) ≡ Some (Command.Bench 5 4 3) }
{}

/// A first word that is neither `run` nor `step` nor `check` nor `why` nor `bench` is refused, whatever follows.
pub fn other_first_words_are_refused()
    ensures { (first : List ℕ) (rest : List (List ℕ)) → first ≢ codes "run" → first ≢ codes "step" → first ≢ codes "check"
        → first ≢ codes "why" → first ≢ codes "bench" → command_of (first ∷ rest) ≡ None }
{}

/// Every number in its range, in decimal, gives just that value.
pub fn numbers_are_read()
    ensures run { (workers limit : ℕ) → 1 ≤ workers → workers ≤ 4 → 1 ≤ limit → limit ≤ 100000000
        → command_of (codes "run" ∷ codes "--workers" ∷ decimal workers ∷ codes "--limit" ∷ decimal limit ∷ codes "--brief" ∷ [])
        ≡ Some (Command.Run workers limit true) }
    ensures step { (seed limit : ℕ) → seed ≤ 4294967295 → 1 ≤ limit → limit ≤ 100000000
        → command_of (codes "step" ∷ codes "--seed" ∷ decimal seed ∷ codes "--limit" ∷ decimal limit ∷ codes "--brief" ∷ [])
        ≡ Some (Command.Step seed limit true) }
    ensures why { (place : ℕ) → place ≤ 18446744073709551615
        → command_of (codes "why" ∷ codes "--place" ∷ decimal place ∷ []) ≡ Some (Command.Why place) }
    ensures bench { (seed ranks rounds : ℕ) → seed ≤ 4294967295 → 1 ≤ ranks → ranks ≤ 16 → 1 ≤ rounds → rounds ≤ 5000
        → command_of (codes "bench" ∷ codes "--seed" ∷ decimal seed ∷ codes "--ranks" ∷ decimal ranks ∷ codes "--rounds" ∷ decimal rounds ∷ [])
        ≡ Some (Command.Bench seed ranks rounds) }
{}

/// Words that clap accepts are never refused: None is the answer to words in which clap finds a fault, and to no others.
pub fn words_without_a_fault_are_accepted()
    ensures { (words : List (List ℕ)) → fault_of the_app words ≡ [] → is_some (command_of words) ≡ true }
{}
