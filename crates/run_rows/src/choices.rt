ghost use Rattle.std.specs.Prelude.{codes, [], ◌∷◌};
ghost use Rattle.run_rules.specs.declared.trap_kind.TrapKind.TheVariants as traps;
ghost use Rattle.run_rules.specs.Runs.{done, trap_at, no_steps};
ghost use Rattle.run_rows.specs.Coming.{Runs};
ghost use Rattle.run_rows.specs.Choices.{labels_and_ranges, labels_of_chars, no_label_fits, conditions_stop_early, from_left_to_right, assertion_fails, output_that_does_not_fit};

/// Rows of small modules: what CASE, ASSERT and conditions do, and their traps, and in which order parts are evaluated.
pub fn choices_come_to()
    ensures labels_and_ranges { Runs (labels_and_ranges ∷ []) (codes "A") 1000000 done (codes "baaabc") 29 }
    ensures labels_of_chars { Runs (labels_of_chars ∷ []) (codes "A") 1000000 done (codes "2b\n") 7 }
    ensures no_label_fits { Runs (no_label_fits ∷ []) (codes "A") 1000000 (trap_at traps.NoCase (codes "A") (record { line = 0; character = 44 })) [] 2 }
    ensures conditions_stop_early { Runs (conditions_stop_early ∷ []) (codes "A") 1000000 done (codes "01") 9 }
    ensures from_left_to_right { Runs (from_left_to_right ∷ []) (codes "A") 1000000 done (codes "125") 17 }
    ensures assertion_fails { Runs (assertion_fails ∷ []) (codes "A") 1000000 (trap_at traps.Assertion (codes "A") (record { line = 0; character = 47 })) [] 3 }
    ensures output_that_does_not_fit { Runs (output_that_does_not_fit ∷ []) (codes "A") 6 no_steps (codes "a") 6 }
{}
