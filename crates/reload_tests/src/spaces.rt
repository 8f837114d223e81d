//! Workspaces of texts.
use ob_text::{Held, Text};
use std::alloc::Global;
use std::test::Fail;
use target_graph::{Root, Workspace, root_of};

/// The workspace whose targets a file lists so.
pub fn workspace(alloc: Global, targets: &str) -> Result<Workspace, Fail> {
    let text = format!(in alloc; "{{\"version\":1,\"targets\":[{targets}]}}")?;
    let held = Held::Text(Text::new(alloc, text.as_str().as_bytes())?);
    match Workspace::read(alloc, &held, root(alloc)?) {
        Ok(workspace) => Ok(workspace),
        Err(_) => Err(Fail::new("refused")),
    }
}

fn root(alloc: Global) -> Result<Root, Fail> {
    match root_of(alloc, "file:///w") {
        Ok(root) => Ok(root),
        Err(_) => Err(Fail::new("root")),
    }
}
