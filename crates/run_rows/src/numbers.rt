ghost use Rattle.std.specs.Prelude.{codes, [], ◌∷◌};
ghost use Rattle.run_rules.specs.declared.trap_kind.TrapKind.TheVariants as traps;
ghost use Rattle.run_rules.specs.Runs.{done, trap_at};
ghost use Rattle.run_rows.specs.Coming.{Runs};
ghost use Rattle.run_rows.specs.Numbers.{sign_covers_its_term, quotients_round_down, numbers_in_places, inc_and_dec, sum_overflows, sign_overflows, absolute_value_overflows, inc_overflows, step_of_for_overflows, sum_on_the_fourth_line, mod_by_zero, div_by_negative, not_of_a_number, slash_between_numbers};

/// Rows of small modules: what sums, quotients and numbers in places come to, the traps of overflow and division, and that no rule applies
/// where an operator doesn't fit.
pub fn numbers_come_to()
    ensures sign_covers_its_term { Runs (sign_covers_its_term ∷ []) (codes "A") 1000000 done (codes "  -3x\ny") 9 }
    ensures quotients_round_down { Runs (quotients_round_down ∷ []) (codes "A") 1000000 done (codes "  -3  -4 1") 15 }
    ensures numbers_in_places { Runs (numbers_in_places ∷ []) (codes "A") 1000000 done (codes "-1512345") 13 }
    ensures inc_and_dec { Runs (inc_and_dec ∷ []) (codes "A") 1000000 done (codes "6 -1\n") 12 }
    ensures sum_overflows { Runs (sum_overflows ∷ []) (codes "A") 1000000 (trap_at traps.Overflow (codes "A") (record { line = 0; character = 68 })) [] 3 }
    ensures sign_overflows { Runs (sign_overflows ∷ []) (codes "A") 1000000 (trap_at traps.Overflow (codes "A") (record { line = 0; character = 65 })) [] 3 }
    ensures absolute_value_overflows { Runs (absolute_value_overflows ∷ []) (codes "A") 1000000 (trap_at traps.Overflow (codes "A") (record { line = 0; character = 65 })) [] 3 }
    ensures inc_overflows { Runs (inc_overflows ∷ []) (codes "A") 1000000 (trap_at traps.Overflow (codes "A") (record { line = 0; character = 61 })) [] 3 }
    ensures step_of_for_overflows { Runs (step_of_for_overflows ∷ []) (codes "A") 1000000 (trap_at traps.Overflow (codes "A") (record { line = 0; character = 44 })) [] 5 }
    ensures sum_on_the_fourth_line { Runs (sum_on_the_fourth_line ∷ []) (codes "A") 1000000 (trap_at traps.Overflow (codes "A") (record { line = 3; character = 42 })) [] 4 }
    ensures mod_by_zero { Runs (mod_by_zero ∷ []) (codes "A") 1000000 (trap_at traps.Division (codes "A") (record { line = 0; character = 59 })) [] 3 }
    ensures div_by_negative { Runs (div_by_negative ∷ []) (codes "A") 1000000 (trap_at traps.Division (codes "A") (record { line = 0; character = 60 })) [] 3 }
    ensures not_of_a_number { Runs (not_of_a_number ∷ []) (codes "A") 1000000 (trap_at traps.Stuck (codes "A") (record { line = 0; character = 0 })) [] 2 }
    ensures slash_between_numbers { Runs (slash_between_numbers ∷ []) (codes "A") 1000000 (trap_at traps.Stuck (codes "A") (record { line = 0; character = 0 })) [] 2 }
{}
