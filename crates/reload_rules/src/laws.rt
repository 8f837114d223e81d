ghost use Rattle.std.specs.Prelude.{◌≡◌, ◌↔◌, List, true};
ghost use Rattle.target_graph.specs.declared.target.Target.{Target};
ghost use Rattle.reload_rules.specs.Changes.{AreChanges, SaysSame, says_same};
ghost use Rattle.reload_rules.specs.declared.change.ChangedTarget.{ChangedTarget};

/// There is one list of the changes between two workspaces.
pub fn one_list_of_changes()
    ensures { (old new : List Target) (first second : List ChangedTarget) → AreChanges old new first → AreChanges old new second → first ≡ second }
{}

/// Two workspaces say the same of a target exactly where they give it the same kind, modules, names of dependencies and main
/// module.
pub fn same_where_all_is()
    ensures { (old new : List Target) (a b : Target) → (says_same old a new b ≡ true) ↔ SaysSame old a new b }
{}
