ghost use Rattle.std.specs.Prelude.{◌≡◌, ◌<◌, ◌≤◌, length, ℕ, List, Some, true, if◌then◌else◌, IfOk, IfSome, IfNone, OnOk, Contains};
ghost use Rattle.std.specs.List.{All, slice_get};
ghost use Rattle.build_plan.specs.Lists.{lists};
ghost use Rattle.ob_text.specs.Held.{IsReadable};
ghost use Rattle.oberon_types.specs.Entities.{missing_view};
ghost use Rattle.oberon_types.specs.Memory.{plain_view};
ghost use Rattle.oberon_types.specs.Types.{same_name};
ghost use Rattle.oberon_rules.specs.Local.{view_in};
ghost use Rattle.oberon_module.specs.Views.{plain_views};
ghost use Rattle.target_graph.specs.Limits.{pairs_limit};
ghost use Rattle.target_graph.specs.Names.{is_path};
ghost use Rattle.target_graph.specs.Workspace.{IsVisible, pairs_of, stem_at};
ghost use Rattle.build_rules.specs.Locality.{IsApart};
ghost use Rattle.build_rules.specs.World.{Imports, IsCyclic, held_in};
ghost use Rattle.build_rules.specs.Views.{as_view, HasView, HasList, IsCheck, IsShown};
ghost use Rattle.build_sources.specs.Documents.{AreDocuments, AreImportsOf, AreKnown, IsDocument};
ghost use Rattle.build_sources.specs.Known.{AreViewsOf, IsViewOf, view_at};
ghost use Rattle.build_sources.specs.Rows.{AreRows, IsRow};
ghost use Rattle.build_sources.specs.Sources.{AreSources, world};

use crate::documents::{Document, Documents};
use crate::output::out_view;
use indexmap::IndexMap;
use ob_text::{Held, Name, NoMemory, Snapshot};
use oberon_module::Checked;
use oberon_types::View;
use std::alloc::Global;
use std::sync::Arc;
use target_graph::{Pair, Workspace, stem_of};

/// What the checks of a build go by.
pub struct Sources {
    pub workspace: Arc<Workspace>,
    pub documents: Documents,
    /// What the module Out shows.
    pub out: Box<View>,
}

impl Drop for Sources {
    fn drop(self) {
        let Self {
            workspace: _,
            documents: _,
            out: _,
        } = self;
    }
}

impl Sources {
    /// Reads what was handed out of the documents of a workspace's modules, but for those whose imports are known: for each
    /// entry of the snapshot in order the names that it imports, or none. A shorter list knows nothing of the others.
    pub fn new(
        alloc: Global,
        workspace: Arc<Workspace>,
        snapshot: Snapshot,
        known: &[Option<&[Name]>],
    ) -> Result<Sources, NoMemory>
        requires texts { All (λ entry. IsReadable entry.1) snapshot.entries }
        requires known { AreKnown snapshot.entries known.now }
        ensures sources { IfOk result AreSources }
        ensures world { IfOk result (λ sources. world sources ≡ record { targets = workspace.value.targets; entries = snapshot.entries }) }
    {
        let documents = Documents::read(alloc, snapshot, known)?;
        let out = Box::new(alloc, out_view(alloc)?)?;
        Ok(Sources {
            workspace,
            documents,
            out,
        })
    }

    /// A law: no target sees two modules of one stem.
    pub fn are_apart(&self)
        ensures { IsApart (world self.now) }
    {
        let _pairs = self.workspace.pairs();
    }

    /// How many modules the workspace has.
    pub fn count(&self) -> usize
        ensures count { result ≡ length (pairs_of self.now.workspace.value.targets) }
        ensures few { result ≤ pairs_limit }
    {
        self.workspace.pairs().len()
    }

    /// For each module of the workspace, the modules that it imports.
    pub fn rows(&self, alloc: Global) -> Result<Vec<Vec<u32>>, NoMemory>
        requires { AreSources self.now }
        ensures { IfOk result (λ rows. AreRows (world self.now) (lists rows)) }
    {
        let workspace: &Workspace = &self.workspace;
        let mut rows = Vec::new(alloc);
        for pair in workspace.pairs() {
            let imports = self.documents.of(&pair.path).imports.as_slice();
            rows.push(row(alloc, workspace, pair.target, imports)?)?;
        }
        Ok(rows)
    }

    /// The pair of a module.
    pub fn pair(&self, index: u32) -> &Pair
        requires { index < length (pairs_of self.now.workspace.value.targets) }
        ensures there { slice_get (pairs_of self.now.workspace.value.targets) index ≡ Some result.now }
        ensures within { result.now.target < length self.now.workspace.value.targets }
        ensures valid { is_path result.now.path ≡ true }
    {
        &self.workspace.pairs()[index as usize]
    }

    /// The module that a name means to the modules of a target. Takes no memory.
    pub fn visible(&self, target: u32, name: &Name) -> Option<u32>
        requires { target < length self.now.workspace.value.targets }
        ensures some { IfSome result (IsVisible self.now.workspace.value.targets target name.now) }
        ensures none { IfNone result ((pair : ℕ) → ¬ (IsVisible self.now.workspace.value.targets target name.now pair)) }
    {
        self.workspace.visible(target, name)
    }

    /// The document of a module, as it was read.
    pub fn document(&self, index: u32) -> &Document
        requires sources { AreSources self.now }
        requires within { index < length (pairs_of self.now.workspace.value.targets) }
        ensures { IsDocument (held_in (world self.now) index) result.now }
    {
        self.documents.of(&self.pair(index).path)
    }

    /// What is held at a module's path.
    pub fn held(&self, index: u32) -> &Held
        requires sources { AreSources self.now }
        requires within { index < length (pairs_of self.now.workspace.value.targets) }
        ensures { result.now ≡ held_in (world self.now) index }
    {
        &self.document(index).held
    }

    /// The names that a module imports, each once, in the order of the text.
    pub fn imports(&self, index: u32) -> &[Name]
        requires sources { AreSources self.now }
        requires within { index < length (pairs_of self.now.workspace.value.targets) }
        ensures { AreImportsOf (held_in (world self.now) index) result.now }
    {
        self.document(index).imports.as_slice()
    }

    /// The stem of a module's path.
    pub fn stem(&self, alloc: Global, index: u32) -> Result<Name, NoMemory>
        requires { index < length (pairs_of self.now.workspace.value.targets) }
        ensures { IfOk result (λ stem. stem ≡ stem_at self.now.workspace.value.targets index) }
    {
        stem_of(alloc, &self.pair(index).path)
    }

    /// Checks a module by the views that are kept of those that it imports.
    pub fn check(&self, alloc: Global, index: u32, kept: &[View]) -> Result<Checked, NoMemory>
        requires sources { AreSources self.now }
        requires within { index < length (pairs_of self.now.workspace.value.targets) }
        requires all { length kept.now ≡ length (pairs_of self.now.workspace.value.targets) }
        requires known { (q : ℕ) → Imports (world self.now) index q → HasView (world self.now) q (view_at kept.now q) }
        ensures list { IfOk result (λ checked. HasList (world self.now) index checked.list.items) }
        ensures view { IfOk result (λ checked. ¬ (IsCyclic (world self.now) index) → HasView (world self.now) index (plain_view checked.view)) }
    {
        self.are_apart();
        let views = self.views(alloc, index, kept)?;
        self.check_by(alloc, index, &views)
    }

    /// The views of a module's imports, by those that are kept of modules.
    pub fn views(
        &self,
        alloc: Global,
        index: u32,
        kept: &[View],
    ) -> Result<IndexMap<Name, View>, NoMemory>
        requires sources { AreSources self.now }
        requires within { index < length (pairs_of self.now.workspace.value.targets) }
        requires all { length kept.now ≡ length (pairs_of self.now.workspace.value.targets) }
        // Where those that are kept are the modules' own, so are these.
        ensures shown { IfOk result (λ views. ((q : ℕ) → Imports (world self.now) index q → HasView (world self.now) q (view_at kept.now q))
            → (names : List (List ℕ)) → AreImportsOf (held_in (world self.now) index) names → (name : List ℕ) → Contains names name
            → IsShown (world self.now) as_view index name (view_in (plain_views views.entries) name)) }
        ensures others { IfOk result (λ views. (names : List (List ℕ)) → AreImportsOf (held_in (world self.now) index) names → (name : List ℕ) → ¬ (Contains names name)
            → view_in (plain_views views.entries) name ≡ missing_view) }
    {
        let target = self.pair(index).target;
        let imports = self.document(index).imports.as_slice();
        self.views_of(alloc, target, imports, kept)
    }

    /// Checks a module by the views of its imports.
    pub fn check_by(
        &self,
        alloc: Global,
        index: u32,
        views: &IndexMap<Name, View>,
    ) -> Result<Checked, NoMemory>
        requires sources { AreSources self.now }
        requires within { index < length (pairs_of self.now.workspace.value.targets) }
        ensures check { IfOk result (λ checked. IsCheck (world self.now) index (view_in (plain_views views.now.entries)) checked.list.items checked.imports.items (plain_view checked.view)) }
        ensures imports { IfOk result (λ checked. AreImportsOf (held_in (world self.now) index) checked.imports.items) }
    {
        let document = self.document(index);
        let stem = self.stem(alloc, index)?;
        document.check(alloc, &stem, views)
    }

    /// The view of each name that a module of a target imports; a name without a view is no module.
    fn views_of(
        &self,
        alloc: Global,
        target: u32,
        imports: &[Name],
        kept: &[View],
    ) -> Result<IndexMap<Name, View>, NoMemory>
        requires sources { AreSources self.now }
        requires within { target < length self.now.workspace.value.targets }
        requires all { length kept.now ≡ length (pairs_of self.now.workspace.value.targets) }
        ensures are { IfOk result (λ views. AreViewsOf self.now.workspace.value.targets target kept.now imports.now (view_in (plain_views views.entries))) }
        ensures others { IfOk result (λ views. (name : List ℕ) → ¬ (Contains imports.now name) → view_in (plain_views views.entries) name ≡ missing_view) }
    {
        let mut views = IndexMap::new(alloc);
        for name in imports {
            let view = self.view_of(target, name, kept)?;
            put(&mut views, name.copy(alloc)?, view)?;
        }
        Ok(views)
    }

    /// The view of what a name means to the modules of a target.
    fn view_of(&self, target: u32, name: &Name, kept: &[View]) -> Result<View, NoMemory>
        requires sources { AreSources self.now }
        requires within { target < length self.now.workspace.value.targets }
        requires all { length kept.now ≡ length (pairs_of self.now.workspace.value.targets) }
        ensures { IfOk result (λ view. IsViewOf self.now.workspace.value.targets target kept.now name.now (plain_view view)) }
    {
        match self.visible(target, name) {
            Some(module) => kept[module as usize].copy(),
            None if name.as_slice() == b"Out".as_slice() => self.out.copy(),
            None => Ok(View::Missing),
        }
    }
}

/// The modules that some names mean to the modules of a target.
fn row(
    alloc: Global,
    workspace: &Workspace,
    target: u32,
    imports: &[Name],
) -> Result<Vec<u32>, NoMemory>
    requires { target < length workspace.now.targets }
    ensures { IfOk result (λ row. IsRow workspace.now.targets target imports.now row.items) }
{
    let mut row = Vec::new(alloc);
    for name in imports {
        match workspace.visible(target, name) {
            Some(found) => row.push(found)?,
            None => {}
        }
    }
    Ok(row)
}

/// Puts a view under its name, in the place of any other.
fn put(views: &mut IndexMap<Name, View>, name: Name, view: View) -> Result<(), NoMemory>
    ensures { OnOk result ((other : List ℕ) → view_in (plain_views views.new.entries) other ≡ (if same_name name other then plain_view view else view_in (plain_views views.old.entries) other)) }
{
    let old = views.insert(name, view)?;
    let_go(old);
    Ok(())
}

fn let_go(_old: Option<View>) {}
