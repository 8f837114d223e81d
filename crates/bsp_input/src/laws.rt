ghost use Rattle.std.specs.Prelude.{◌≡◌, ◌∷◌, ◌++◌, List, ℕ, Some};
ghost use Rattle.bsp_edge.specs.declared.reading.Got.TheVariants.{End};
ghost use Rattle.bsp_input.specs.Runs.{Move, Runs, hand, handed_of, read_of};
ghost use Rattle.bsp_input.specs.Slots.{Place, left_of};

/// In whatever order the session asks and takes and the thread puts there what it read: all that was handed out, and then what
/// is left, is all that was read, in order. The end is told only where nothing is left.
pub fn hands_out_what_was_read()
    ensures order { (moves : List Move) (place : Place) → Runs moves place → read_of moves ≡ handed_of moves ++ left_of place }
    ensures end { (moves : List Move) (into : List ℕ) (place : Place) → Runs (hand (Some End) into ∷ moves) place → read_of moves ≡ handed_of moves }
{}
