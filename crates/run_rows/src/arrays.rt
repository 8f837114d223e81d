ghost use Rattle.std.specs.Prelude.{codes, [], ◌∷◌};
ghost use Rattle.run_rules.specs.declared.trap_kind.TrapKind.TheVariants as traps;
ghost use Rattle.run_rules.specs.Runs.{done, trap_at, no_steps};
ghost use Rattle.run_rows.specs.Coming.{Runs};
ghost use Rattle.run_rows.specs.Arrays.{copied_and_compared_texts, texts_end_at_zero, left_text_is_read_first, copy_that_does_not_fit, open_arrays_have_lengths, structures_assigned, index_at_length, index_below_zero};

/// Rows of small modules: what arrays, texts and their copies come to, and the trap of indices.
pub fn arrays_come_to()
    ensures copied_and_compared_texts { Runs (copied_and_compared_texts ∷ []) (codes "A") 1000000 done (codes "axc  7779") 51 }
    ensures texts_end_at_zero { Runs (texts_end_at_zero ∷ []) (codes "A") 1000000 done (codes "x6!<=") 30 }
    ensures left_text_is_read_first { Runs (left_text_is_read_first ∷ []) (codes "A") 1000000 done (codes "12") 28 }
    ensures copy_that_does_not_fit { Runs (copy_that_does_not_fit ∷ []) (codes "A") 9 no_steps [] 9 }
    ensures copy_that_just_fits { Runs (copy_that_does_not_fit ∷ []) (codes "A") 13 done [] 13 }
    ensures open_arrays_have_lengths { Runs (open_arrays_have_lengths ∷ []) (codes "A") 1000000 done (codes "23") 11 }
    ensures structures_assigned { Runs (structures_assigned ∷ []) (codes "A") 1000000 done (codes "6 9") 24 }
    ensures index_at_length { Runs (index_at_length ∷ []) (codes "A") 1000000 (trap_at traps.Index (codes "A") (record { line = 0; character = 74 })) [] 3 }
    ensures index_below_zero { Runs (index_below_zero ∷ []) (codes "A") 1000000 (trap_at traps.Index (codes "A") (record { line = 0; character = 72 })) [] 2 }
{}
