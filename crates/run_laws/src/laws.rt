ghost use Rattle.std.specs.Prelude.{◌≡◌, ◌⊎◌, ℕ, ◌≤◌, List, length, Some, ℤ};
ghost use Rattle.oberon_tree.specs.Trees.{ElsifsTree, ExprTree, GuardedTree, StatementsTree};
ghost use Rattle.oberon_types.specs.Types.{TyTree};
ghost use Rattle.run_laws.specs.Paths.{AreApart, Begins, IsWhole, Step, path_leads};
ghost use Rattle.run_rules.specs.World.{At, World};
ghost use Rattle.run_rules.specs.Cells.{Spot};
ghost use Rattle.run_rules.specs.Linked.{Linked, Source};
ghost use Rattle.run_rules.specs.Expressions.{Env, expr_does};
ghost use Rattle.run_rules.specs.Statements.{calls, count_turn, elsif_turns, loop_of, statements_do, turns, until_turn, while_turn};
ghost use Rattle.run_rules.specs.Runs.{run_main, run_test};

/// What a run or a test writes is no longer than the steps that it takes, and these are no more than its limit.
pub fn output_within_steps()
    ensures run { (sources : List Source) (main : List ℕ) (limit : ℕ) → (length (run_main sources main limit).output ≤ (run_main sources main limit).steps) × ((run_main sources main limit).steps ≤ limit) }
    ensures test { (sources : List Source) (m x : List ℕ) (limit : ℕ) → (length (run_test sources m x limit).output ≤ (run_test sources m x limit).steps) × ((run_test sources m x limit).steps ≤ limit) }
{}

/// A turn of a loop takes a step, so no loop is cut short: with more turns than there are steps left it does the same.
pub fn enough_turns()
    ensures while_loop { (ms : List Linked) (d : ℕ) (v : Env) (g : GuardedTree) (rest : ElsifsTree) (n : ℕ) (w : World) → w.left ≤ n → turns n (λ u. while_turn (calls ms d) v g (λ t. elsif_turns (calls ms d) v rest t) u) w ≡ loop_of (λ u. while_turn (calls ms d) v g (λ t. elsif_turns (calls ms d) v rest t) u) w }
    ensures repeat_loop { (ms : List Linked) (d : ℕ) (v : Env) (b : StatementsTree) (e : ExprTree) (n : ℕ) (w : World) → w.left ≤ n → turns n (until_turn (λ u. statements_do (calls ms d) v b u) (λ u. expr_does (calls ms d) v e u)) w ≡ loop_of (until_turn (λ u. statements_do (calls ms d) v b u) (λ u. expr_does (calls ms d) v e u)) w }
    ensures for_loop { (ms : List Linked) (d : ℕ) (v : Env) (at : At) (by : ℤ) (s : Spot) (limit : ExprTree) (b : StatementsTree) (n : ℕ) (w : World) → w.left ≤ n → turns n (count_turn at by s (λ u. expr_does (calls ms d) v limit u) (λ u. statements_do (calls ms d) v b u)) w ≡ loop_of (count_turn at by s (λ u. expr_does (calls ms d) v limit u) (λ u. statements_do (calls ms d) v b u)) w }
{}

/// Two paths from one variable lead to cells that are apart, or one of them begins with the other.
pub fn paths_apart()
    ensures { (me : List ℕ) (p q : List Step) (t : TyTree) (place : ℕ) (s r : Spot) → IsWhole t → path_leads me p t place ≡ Some s → path_leads me q t place ≡ Some r → AreApart s r ⊎ (Begins p q ⊎ Begins q p) }
{}
