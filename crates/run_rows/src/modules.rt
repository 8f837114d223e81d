ghost use Rattle.std.specs.Prelude.{codes, [], ◌∷◌};
ghost use Rattle.run_rules.specs.declared.trap_kind.TrapKind.TheVariants as traps;
ghost use Rattle.run_rules.specs.Runs.{done, trap_at, no_steps};
ghost use Rattle.run_rows.specs.Coming.{Runs, Tests};
ghost use Rattle.run_rows.specs.Modules.{import_of_another_name_c, import_of_another_name_a, modules_in_order_e, modules_in_order_a, modules_in_order_b, modules_in_order_c, modules_in_order_d, test_behind_bodies_b, test_behind_bodies_t, endless_recursion, four_tests, name_that_means_nothing, call_without_a_value};

/// Rows of small modules: in which order modules run, what tests do, and what happens where no rule applies.
pub fn modules_come_to()
    ensures import_of_another_name { Runs (import_of_another_name_c ∷ import_of_another_name_a ∷ []) (codes "A") 1000000 done (codes "67") 8 }
    ensures modules_in_order { Runs (modules_in_order_e ∷ modules_in_order_a ∷ modules_in_order_b ∷ modules_in_order_c ∷ modules_in_order_d ∷ []) (codes "A") 1000000 done (codes "DCBA") 8 }
    ensures test_behind_bodies { Tests (test_behind_bodies_b ∷ test_behind_bodies_t ∷ []) (codes "T") (codes "TestA") 1000000 (trap_at traps.Assertion (codes "T") (record { line = 0; character = 126 })) (codes "6101521\n") 39 }
    ensures endless_recursion { Tests (endless_recursion ∷ []) (codes "T") (codes "TestX") 1000000 (trap_at traps.Depth (codes "T") (record { line = 0; character = 34 })) [] 515 }
    ensures test_a_passes { Tests (four_tests ∷ []) (codes "T") (codes "TestA") 1000000 done [] 3 }
    ensures test_b_fails { Tests (four_tests ∷ []) (codes "T") (codes "TestB") 1000000 (trap_at traps.Assertion (codes "T") (record { line = 2; character = 24 })) [] 3 }
    ensures test_c_has_no_end { Tests (four_tests ∷ []) (codes "T") (codes "TestC") 100 no_steps [] 100 }
    ensures test_d_divides { Tests (four_tests ∷ []) (codes "T") (codes "TestD") 1000000 (trap_at traps.Division (codes "T") (record { line = 4; character = 55 })) [] 4 }
    ensures name_that_means_nothing { Runs (name_that_means_nothing ∷ []) (codes "A") 1000000 (trap_at traps.Stuck (codes "A") (record { line = 1; character = 1 })) [] 2 }
    ensures call_without_a_value { Runs (call_without_a_value ∷ []) (codes "A") 1000000 (trap_at traps.Stuck (codes "A") (record { line = 0; character = 0 })) (codes "ab") 3 }
{}
