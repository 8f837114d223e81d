ghost use Rattle.std.specs.Prelude.{codes, [], ◌∷◌};
ghost use Rattle.run_rules.specs.declared.trap_kind.TrapKind.TheVariants as traps;
ghost use Rattle.run_rules.specs.Runs.{done, trap_at};
ghost use Rattle.run_rows.specs.Coming.{Runs};
ghost use Rattle.run_rows.specs.Sets.{sets_by_incl_and_excl, complement_and_empty_range, element_32, incl_of_32, shifts_and_rotations, left_shift_and_difference, shift_by_32};

/// Rows of small modules: what sets and shifts come to, and the trap of range.
pub fn sets_come_to()
    ensures sets_by_incl_and_excl { Runs (sets_by_incl_and_excl ∷ []) (codes "A") 1000000 done (codes "1e") 12 }
    ensures complement_and_empty_range { Runs (complement_and_empty_range ∷ []) (codes "A") 1000000 done (codes "-21474836480") 16 }
    ensures element_32 { Runs (element_32 ∷ []) (codes "A") 1000000 (trap_at traps.Range (codes "A") (record { line = 0; character = 70 })) [] 3 }
    ensures incl_of_32 { Runs (incl_of_32 ∷ []) (codes "A") 1000000 (trap_at traps.Range (codes "A") (record { line = 0; character = 69 })) [] 3 }
    ensures shifts_and_rotations { Runs (shifts_and_rotations ∷ []) (codes "A") 1000000 done (codes "-2147483648-2147483648-4") 29 }
    ensures left_shift_and_difference { Runs (left_shift_and_difference ∷ []) (codes "A") 1000000 done (codes "-2147483648 18") 18 }
    ensures shift_by_32 { Runs (shift_by_32 ∷ []) (codes "A") 1000000 (trap_at traps.Range (codes "A") (record { line = 0; character = 65 })) [] 3 }
{}
