ghost use Rattle.std.specs.Prelude.{codes, [], ◌∷◌};
ghost use Rattle.run_rules.specs.declared.trap_kind.TrapKind.TheVariants as traps;
ghost use Rattle.run_rules.specs.Runs.{done, trap_at};
ghost use Rattle.run_rows.specs.Coming.{Runs};
ghost use Rattle.run_rows.specs.Bytes.{bytes_within_range, byte_of_256, byte_of_300, byte_below_zero, inc_above_byte, inc_of_byte_overflows, dec_below_byte, byte_argument_of_256, byte_result_of_256, chr_of_256};

/// Rows of small modules: what bytes come to, and the trap of range.
pub fn bytes_come_to()
    ensures bytes_within_range { Runs (bytes_within_range ∷ []) (codes "A") 1000000 done (codes "255-1 254 25563") 38 }
    ensures byte_of_256 { Runs (byte_of_256 ∷ []) (codes "A") 1000000 (trap_at traps.Range (codes "A") (record { line = 0; character = 68 })) [] 3 }
    ensures byte_of_300 { Runs (byte_of_300 ∷ []) (codes "A") 1000000 (trap_at traps.Range (codes "A") (record { line = 0; character = 68 })) [] 3 }
    ensures byte_below_zero { Runs (byte_below_zero ∷ []) (codes "A") 1000000 (trap_at traps.Range (codes "A") (record { line = 0; character = 67 })) [] 3 }
    ensures inc_above_byte { Runs (inc_above_byte ∷ []) (codes "A") 1000000 (trap_at traps.Range (codes "A") (record { line = 0; character = 51 })) [] 3 }
    ensures inc_of_byte_overflows { Runs (inc_of_byte_overflows ∷ []) (codes "A") 1000000 (trap_at traps.Overflow (codes "A") (record { line = 0; character = 51 })) [] 3 }
    ensures dec_below_byte { Runs (dec_below_byte ∷ []) (codes "A") 1000000 (trap_at traps.Range (codes "A") (record { line = 0; character = 41 })) [] 2 }
    ensures byte_argument_of_256 { Runs (byte_argument_of_256 ∷ []) (codes "A") 1000000 (trap_at traps.Range (codes "A") (record { line = 0; character = 82 })) [] 2 }
    ensures byte_result_of_256 { Runs (byte_result_of_256 ∷ []) (codes "A") 1000000 (trap_at traps.Range (codes "A") (record { line = 0; character = 60 })) [] 3 }
    ensures chr_of_256 { Runs (chr_of_256 ∷ []) (codes "A") 1000000 (trap_at traps.Range (codes "A") (record { line = 0; character = 72 })) [] 3 }
{}
