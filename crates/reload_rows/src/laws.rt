ghost use Rattle.std.specs.Prelude.{◌≡◌, List, []};
ghost use Rattle.session_law.specs.Lawful.{Lawful};
ghost use Rattle.session_law.specs.Order.{Event};
ghost use Rattle.session_law.specs.Past.{after};
ghost use Rattle.task_stream.specs.declared.shown.TableKey.{TableKey};
ghost use Rattle.reload_rows.specs.Own.{IsOwn, ShowsOwn};

/// Behind each event of a lawful session, also while a list is half told, a reload half way or a build at work, all that a
/// client shows is of documents of the workspace that is in force then. So any other document shows nothing.
pub fn shows_own()
    ensures own { (order : List Event) → Lawful order → ShowsOwn (after order).force (after order).table }
    ensures others { (order : List Event) → Lawful order → (key : TableKey) → ¬ (IsOwn (after order).force key)
        → (after order).table key.document key.target ≡ [] }
{}
