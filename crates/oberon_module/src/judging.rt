ghost use Rattle.std.specs.Prelude.{◌≡◌, ◌++◌, [], map, IfOk, OnOk};
ghost use Rattle.oberon_tree.specs.Memory.{module_tree};
ghost use Rattle.oberon_types.specs.Entities.{missing_view};
ghost use Rattle.oberon_types.specs.Memory.{plain_view};
ghost use Rattle.oberon_rules.specs.Module.{whole_scope, whole_says, module_says};
ghost use Rattle.oberon_infer.specs.Memory.{plain_scopes, plain_said};
ghost use Rattle.oberon_module.specs.Views.{views_of};

use crate::importing::{Views, imports};
use crate::unused::unused;
use ob_text::{Code, Name, NoMemory};
use oberon_declare::declarations;
use oberon_infer::{Said, Scope, Scopes, add_row};
use oberon_procedures::{end_name, procedures};
use oberon_statements::body;
use oberon_tree::Module;
use std::alloc::Global;

/// The scope of a module behind all its declarations, and all that is said of it (The Programming Language Oberon-07,
/// section 11). `me` is the stem of the module's file.
pub fn judge<'a>(
    alloc: Global,
    me: &Name,
    views: Views<'a>,
    root: &'a Module,
    said: &mut Vec<Said<'a>>,
) -> Result<Scopes<'a>, NoMemory>
    requires missing { plain_view views.missing.now ≡ missing_view }
    requires first { said.old.items ≡ [] }
    ensures is { IfOk result (λ scopes. plain_scopes scopes ≡ whole_scope me.now (views_of views.entry) (module_tree root.now)) }
    ensures says { OnOk result (map plain_said said.new.items ≡ module_says me.now (views_of views.entry) (module_tree root.now)) }
{
    let scopes = judge_whole(alloc, me, views, root, said)?;
    unused(alloc, views, &root.imports, said)?;
    Ok(scopes)
}

/// The same without the use of imports.
fn judge_whole<'a>(
    alloc: Global,
    me: &Name,
    views: Views<'a>,
    root: &'a Module,
    said: &mut Vec<Said<'a>>,
) -> Result<Scopes<'a>, NoMemory>
    requires { plain_view views.missing.now ≡ missing_view }
    ensures is { IfOk result (λ scopes. plain_scopes scopes ≡ whole_scope me.now (views_of views.entry) (module_tree root.now)) }
    ensures says { OnOk result (map plain_said said.new.items ≡ map plain_said said.old.items ++ whole_says me.now (views_of views.entry) (module_tree root.now)) }
{
    add_row(
        said,
        root.name.name != *me,
        root.name.span,
        Code::ModuleName,
    )?;
    end_name(&root.name, &root.end_name, said)?;
    let mut scopes = Scopes {
        procedure: None,
        locals: None,
        globals: Scope::new(alloc),
    };
    imports(alloc, views, &mut scopes, &root.imports, said)?;
    declarations(alloc, me, &mut scopes, &root.declarations, said)?;
    procedures(alloc, me, &mut scopes, root.procedures.as_slice(), said)?;
    body(alloc, me, &scopes, &root.body, said)?;
    Ok(scopes)
}
