ghost use Rattle.std.specs.Prelude.{codes, [], ◌∷◌};
ghost use Rattle.run_rules.specs.Runs.{done, no_steps};
ghost use Rattle.run_rows.specs.Coming.{Runs};
ghost use Rattle.run_rows.specs.Loops.{sum_of_squares, repeat_and_elsif_turns, endless_repeat, for_counts_down, for_limit_is_looked_at_each_turn, for_limit_is_called_each_turn};

/// Rows of small modules: what loops do, and what happens where no step is left.
pub fn loops_come_to()
    ensures sum_of_squares { Runs (sum_of_squares ∷ []) (codes "A") 1000000 done (codes "14") 19 }
    ensures repeat_and_elsif_turns { Runs (repeat_and_elsif_turns ∷ []) (codes "A") 1000000 done (codes "0") 23 }
    ensures endless_repeat { Runs (endless_repeat ∷ []) (codes "A") 50 no_steps [] 50 }
    ensures for_counts_down { Runs (for_counts_down ∷ []) (codes "A") 1000000 done (codes "321 0") 20 }
    ensures for_limit_is_looked_at_each_turn { Runs (for_limit_is_looked_at_each_turn ∷ []) (codes "A") 1000000 done (codes "3") 17 }
    ensures for_limit_is_called_each_turn { Runs (for_limit_is_called_each_turn ∷ []) (codes "A") 1000000 done (codes "4") 20 }
{}
