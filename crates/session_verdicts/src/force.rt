ghost use Rattle.std.specs.Prelude.{◌≡◌, IfOk};

use ob_text::NoMemory;
use std::alloc::Global;
use std::marker::Model;
use std::sync::Arc;
use target_graph::Workspace;

/// The workspace in force, which its builds share.
#[derive(Drop)]
pub struct InForce {
    workspace: Arc<Workspace>,
}

impl Model for InForce {
    ghost use Rattle.target_graph.specs.Workspace.{Space};

    ghost Value = { Space };

    ghost view = { λ force. force.workspace.value };
}

impl InForce {
    pub fn new(workspace: Arc<Workspace>) -> InForce
        ensures { result ≡ workspace.value }
    {
        InForce { workspace }
    }

    /// The workspace, to be shared.
    pub fn of(alloc: Global, workspace: Workspace) -> Result<InForce, NoMemory>
        ensures { IfOk result (λ force. force ≡ workspace) }
    {
        Ok(InForce::new(Arc::new(alloc, workspace)?))
    }

    pub fn get(&self) -> &Workspace
        ensures { result.now ≡ self.now }
    {
        &self.workspace
    }

    /// The same workspace, for a build.
    pub fn share(&self) -> Result<Arc<Workspace>, NoMemory>
        ensures { IfOk result (λ workspace. workspace.value ≡ self.now) }
    {
        Ok(self.workspace.clone()?)
    }
}
