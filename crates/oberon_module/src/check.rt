ghost use Rattle.std.specs.Prelude.{◌≡◌, true, if◌then◌else◌, List, [], map, IfOk};
ghost use Rattle.ob_text.specs.Held.{IsReadable};
ghost use Rattle.oberon_tree.specs.Memory.{tree_of};
ghost use Rattle.oberon_types.specs.Entities.{broken_view, exports_view};
ghost use Rattle.oberon_types.specs.Memory.{plain_view};
ghost use Rattle.oberon_rules.specs.Judged.{has_error};
ghost use Rattle.oberon_rules.specs.Local.{Local, IsTreeless, view_in};
ghost use Rattle.oberon_rules.specs.Views.{written, map_view, exported_in};
ghost use Rattle.oberon_infer.specs.Memory.{plain_said, plain_scope};
ghost use Rattle.oberon_module.specs.Checked.{IsChecked, says_error};
ghost use Rattle.oberon_module.specs.Reading.{IsRead, imports_read};
ghost use Rattle.oberon_module.specs.Views.{plain_views};

use crate::exports::{exports, is_too_large};
use crate::importing::Views;
use crate::judging::judge;
use crate::listing::listed;
use crate::reading::{Reading, copied, read_tokens, read_tree, text_of};
use indexmap::IndexMap;
use ob_text::{Code, Diagnostic, Held, Name, NoMemory, Severity};
use oberon_imports::imports_of;
use oberon_infer::{Said, Scope, add_row};
use oberon_tree::Tree;
use oberon_types::View;
use std::alloc::Global;
use std::sync::Arc;

/// What a check finds.
#[derive(Drop)]
pub struct Checked {
    /// The diagnostics, in the order of lists.
    pub list: Vec<Diagnostic>,
    /// The names of the modules that are imported, each once, in the order of the text.
    pub imports: Vec<Name>,
    pub view: View,
}

/// Checks what is held at a document's path by the views of its imports; a name without a view is no module. `stem` is
/// the stem of the document's path.
pub fn check_module(
    alloc: Global,
    stem: &Name,
    held: &Held,
    views: &IndexMap<Name, View>,
) -> Result<Checked, NoMemory>
    requires { IsReadable held.now }
    ensures { IfOk result (λ c. Local held.now stem.now (view_in (plain_views views.now.entries)) c.list.items c.imports.items (plain_view c.view)) }
{
    let tokens = read_tokens(alloc, held)?;
    let reading = read_tree(alloc, held, tokens)?;
    check_read(alloc, stem, held, &reading, views)
}

/// Checks a document that was read as far as its tree.
pub fn check_read(
    alloc: Global,
    stem: &Name,
    held: &Held,
    reading: &Reading,
    views: &IndexMap<Name, View>,
) -> Result<Checked, NoMemory>
    requires { IsRead held.now reading.now }
    ensures local { IfOk result (λ c. Local held.now stem.now (view_in (plain_views views.now.entries)) c.list.items c.imports.items (plain_view c.view)) }
    ensures imports { IfOk result (λ c. c.imports.items ≡ imports_read reading.now) }
{
    match reading {
        Reading::Parsed(tree) => check_tree(alloc, stem, text_of(held), tree, views),
        Reading::Listed(list) => without_tree(alloc, list.as_slice()),
        Reading::Scanned(_) => unreachable!(),
    }
}

/// What has no tree imports nothing, and is broken.
fn without_tree(alloc: Global, list: &[Diagnostic]) -> Result<Checked, NoMemory>
    ensures listed { IfOk result (λ c. c.list.items ≡ list.now) }
    ensures treeless { IfOk result (λ c. IsTreeless c.imports.items (plain_view c.view)) }
{
    Ok(Checked {
        list: copied(alloc, list)?,
        imports: Vec::new(alloc),
        view: View::Broken,
    })
}

/// Checks a module by its tree.
fn check_tree(
    alloc: Global,
    stem: &Name,
    text: &[u8],
    tree: &Tree,
    views: &IndexMap<Name, View>,
) -> Result<Checked, NoMemory>
    ensures { IfOk result (λ c. IsChecked text.now stem.now (view_in (plain_views views.now.entries)) (tree_of tree.now) c.list.items c.imports.items (plain_view c.view)) }
{
    let missing = View::Missing;
    let views = Views {
        known: views,
        missing: &missing,
    };
    let module = tree.root();
    let mut said = Vec::new(alloc);
    let scopes = judge(alloc, stem, views, module, &mut said)?;
    let large = is_too_large(&scopes.globals);
    add_row(&mut said, large, module.name.span, Code::InterfaceTooLarge)?;
    Ok(Checked {
        list: listed(alloc, text, said.as_slice())?,
        imports: imports_of(alloc, tree)?,
        view: view_of(alloc, said.as_slice(), &scopes.globals)?,
    })
}

/// What the module shows, where nothing that is said of it is an error.
fn view_of(alloc: Global, said: &[Said], scope: &Scope) -> Result<View, NoMemory>
    ensures { IfOk result (λ view. plain_view view ≡ map_view written (if has_error (map plain_said said.now) then broken_view else exports_view (exported_in (plain_scope scope.now)))) }
{
    if has_error(said) {
        Ok(View::Broken)
    } else {
        Ok(View::Exports(Arc::new(alloc, exports(alloc, scope)?)?))
    }
}

fn has_error(said: &[Said]) -> bool
    ensures { result ≡ has_error (map plain_said said.now) }
{
    for one in said {
        if is_error(one) {
            return true;
        }
    }
    false
}

fn is_error(one: &Said) -> bool
    ensures { result ≡ says_error (plain_said one.now) }
{
    match one {
        Said::Broken { code, .. } => match code.severity() {
            Severity::Error => true,
            Severity::Warning => false,
        },
        Said::Resolved(_) => false,
    }
}
