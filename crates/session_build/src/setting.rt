ghost use Rattle.std.specs.Prelude.{◌≡◌, Some, map, Contains, IfOk};
ghost use Rattle.std.specs.List.{AllPairs, slice_get};
ghost use Rattle.session_law.specs.Builds.{build_document};
ghost use Rattle.session_build.specs.Setting.{IsSetting, IsNumberOf};

use indexmap::IndexSet;
use ob_text::{Items, Text};
use session_law::BuildDocument;
use std::alloc::Global;
use std::sync::Arc;
use target_graph::Workspace;

/// What a build goes by.
pub(crate) struct Setting {
    pub alloc: Global,
    pub workspace: Arc<Workspace>,
    /// The ordinal of the request's message.
    pub number: u64,
    /// The request's `originId`.
    pub origin: Arc<Option<Text>>,
    pub documents: Items<BuildDocument>,
    /// Their pairs, in order.
    pub pairs: IndexSet<u32>,
    /// The targets that they are in, in the order of the workspace file.
    pub targets: IndexSet<u32>,
}

impl Drop for Setting {
    fn drop(self) {
        let Self {
            alloc: _,
            workspace: _,
            number: _,
            origin: _,
            documents: _,
            pairs: _,
            targets: _,
        } = self;
    }
}

impl Setting {
    /// The index of a pair's document.
    pub fn document_index(&self, pair: u32) -> usize
        requires setting { IsSetting self.now }
        requires among { Contains (map (λ document. document.pair) self.now.documents) pair }
        ensures { slice_get self.now.documents result ≡ Some (build_document self.now.workspace.value pair) }
    {
        match self.pairs.get_index_of(&pair) {
            Some(index) => index,
            None => unreachable!(),
        }
    }

    /// The number of the target of a pair, counted from 1.
    pub fn target_of(&self, pair: u32) -> u64
        requires setting { IsSetting self.now }
        requires among { Contains (map (λ document. document.pair) self.now.documents) pair }
        ensures { IsNumberOf self.now pair result }
    {
        let space: &Workspace = &self.workspace;
        let target = space.pairs()[pair as usize].target;
        let _count = self.targets.len();
        match self.targets.get_index_of(&target) {
            Some(before) => before as u64 + 1,
            None => unreachable!(),
        }
    }
}
