ghost use Rattle.std.specs.Prelude.{ℕ, Contains};
ghost use Rattle.build_plan.specs.Rows.{AreWithin};
ghost use Rattle.build_plan.specs.Places.{Places, IsReady, IsDone};

/// A plan gets through: where no place is ready and all that were given are finished, every place is finished.
pub fn gets_through()
    ensures { (places : Places) → AreWithin places.rows → ((place : ℕ) → ¬ (IsReady places place)) → ((place : ℕ) →
        Contains places.given place → Contains places.finished place) → IsDone places }
{}
