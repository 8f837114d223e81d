ghost use Rattle.std.specs.Prelude.{◌≡◌, IfOk};
ghost use Rattle.oberon_tree.specs.Memory.{module_tree, tree_of};

use crate::module::Module;
use ob_text::NoMemory;
use std::alloc::Global;
use std::sync::Arc;

/// The syntax tree of a module. It never changes, so its copies share it.
pub struct Tree {
    root: Arc<Module>,
}

impl Drop for Tree {
    fn drop(self) {
        let Self { root: _ } = self;
    }
}

impl Tree {
    /// Owns a module.
    pub fn new(alloc: Global, root: Module) -> Result<Tree, NoMemory>
        ensures { IfOk result (λ t. tree_of t ≡ module_tree root) }
    {
        Ok(Tree {
            root: Arc::new(alloc, root)?,
        })
    }

    pub fn root(&self) -> &Module
        ensures { module_tree result.now ≡ tree_of self.now }
    {
        &self.root
    }

    /// An equal value, which shares the module.
    pub fn copy(&self) -> Result<Tree, NoMemory>
        ensures { IfOk result (λ t. tree_of t ≡ tree_of self.now) }
    {
        Ok(Tree {
            root: self.root.clone()?,
        })
    }
}
