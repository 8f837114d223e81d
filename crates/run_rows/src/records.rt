ghost use Rattle.std.specs.Prelude.{codes, [], ◌∷◌};
ghost use Rattle.run_rules.specs.declared.trap_kind.TrapKind.TheVariants as traps;
ghost use Rattle.run_rules.specs.Runs.{done, trap_at};
ghost use Rattle.run_rows.specs.Coming.{Runs, Tests};
ghost use Rattle.run_rows.specs.Records.{records_of_two_modules_b, records_of_two_modules_a, records_by_their_types, tests_of_actual_types, guard_fails};

/// Rows of small modules: what records come to, and the trap of guards.
pub fn records_come_to()
    ensures records_of_two_modules { Runs (records_of_two_modules_b ∷ records_of_two_modules_a ∷ []) (codes "A") 1000000 (trap_at traps.Range (codes "A") (record { line = 0; character = 192 })) (codes "300  44   7   1") 37 }
    ensures records_by_their_types { Runs (records_by_their_types ∷ []) (codes "A") 1000000 done (codes "01107") 45 }
    ensures tests_of_actual_types { Runs (tests_of_actual_types ∷ []) (codes "A") 1000000 done (codes "110111") 18 }
    ensures guard_fails { Tests (guard_fails ∷ []) (codes "T") (codes "TestG") 1000000 (trap_at traps.Guard (codes "T") (record { line = 0; character = 113 })) [] 5 }
{}
