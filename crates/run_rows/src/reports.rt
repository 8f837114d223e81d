ghost use Rattle.std.specs.Prelude.{◌≡◌, true, codes, [], ◌∷◌, Some, None};
ghost use Rattle.run_rules.specs.declared.trap_kind.TrapKind.TheVariants as traps;
ghost use Rattle.run_rules.specs.Runs.{done, trap_at, no_steps, end_text, tests_of};
ghost use Rattle.run_rows.specs.Spelled.{trees_fit};
ghost use Rattle.run_rows.specs.Modules.{four_tests};
ghost use Rattle.run_rows.specs.Reports.{which_are_tests};

/// Which procedures of small modules are tests, and the texts of some ends.
pub fn reports_come_to()
    ensures fits { trees_fit (which_are_tests ∷ []) ≡ true }
    ensures four { tests_of four_tests.tree ≡ codes "TestA" ∷ codes "TestB" ∷ codes "TestC" ∷ codes "TestD" ∷ [] }
    ensures exported { tests_of which_are_tests.tree ≡ codes "Test" ∷ codes "Testing" ∷ codes "TestEmpty" ∷ [] }
    ensures assertion { end_text (trap_at traps.Assertion (codes "T") (record { line = 2; character = 24 })) ≡ Some (codes "trap assertion at T 2:24") }
    ensures division { end_text (trap_at traps.Division (codes "T") (record { line = 4; character = 55 })) ≡ Some (codes "trap division at T 4:55") }
    ensures no_label { end_text (trap_at traps.NoCase (codes "Main") (record { line = 0; character = 120 })) ≡ Some (codes "trap noCase at Main 0:120") }
    ensures stuck { end_text (trap_at traps.Stuck (codes "A") (record { line = 0; character = 0 })) ≡ Some (codes "trap stuck at A 0:0") }
    ensures no_steps { end_text no_steps ≡ Some (codes "out of steps") }
    ensures done { end_text done ≡ None }
{}
