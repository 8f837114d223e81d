ghost use Rattle.build_rules.specs.Determined.{IsDetermined};
ghost use Rattle.build_rules.specs.Locality.{DoViewsSuffice, IsApart};
ghost use Rattle.build_rules.specs.World.{World};

use grammar_laws::one_tree;

/// Where no target sees two modules of one stem, checks by views find the clean build.
pub fn views_suffice()
    ensures { (w : World) → IsApart w → DoViewsSuffice w }
{}

/// Where no target sees two modules of one stem, there is one clean build: each module has one state and one list.
pub fn one_clean_build()
    ensures { (w : World) → IsApart w → IsDetermined w }
{
    one_tree();
}
