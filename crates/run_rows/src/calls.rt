ghost use Rattle.std.specs.Prelude.{codes, [], ◌∷◌};
ghost use Rattle.run_rules.specs.declared.trap_kind.TrapKind.TheVariants as traps;
ghost use Rattle.run_rules.specs.Runs.{done, trap_at};
ghost use Rattle.run_rows.specs.Coming.{Runs};
ghost use Rattle.run_rows.specs.Calls.{swapped_by_var_parameters, var_parameter_and_value, value_parameters_are_copies, names_of_a_procedure_come_first, calls_256_deep, calls_257_deep};

/// Rows of small modules: what calls do, and the trap of depth.
pub fn calls_come_to()
    ensures swapped_by_var_parameters { Runs (swapped_by_var_parameters ∷ []) (codes "A") 1000000 (trap_at traps.Index (codes "A") (record { line = 0; character = 358 })) (codes " 24  5") 38 }
    ensures var_parameter_and_value { Runs (var_parameter_and_value ∷ []) (codes "A") 1000000 done (codes "3") 9 }
    ensures value_parameters_are_copies { Runs (value_parameters_are_copies ∷ []) (codes "A") 1000000 done (codes "oldold12old22litnew99str02") 119 }
    ensures names_of_a_procedure_come_first { Runs (names_of_a_procedure_come_first ∷ []) (codes "A") 1000000 done (codes "2 1") 9 }
    ensures calls_256_deep { Runs (calls_256_deep ∷ []) (codes "A") 1000000 done [] 769 }
    ensures calls_257_deep { Runs (calls_257_deep ∷ []) (codes "A") 1000000 (trap_at traps.Depth (codes "A") (record { line = 0; character = 55 })) [] 770 }
{}
