ghost use Rattle.std.specs.Prelude.{◌≡◌};
ghost use Rattle.client_script.specs.Lines.{is_initialize};

use ob_text::{Items, Text};

/// A line of a script that isn't empty: what the client does at it.
#[derive(Debug, Drop)]
pub enum Line {
    /// build/initialize, with the address of the client's root
    Initialize(Text),
    /// workspace/buildTargets
    Targets,
    /// buildTarget/sources, of targets by their names
    Sources(Items<Text>),
    /// buildTarget/inverseSources, of a document by its path
    Inverse(Text),
    /// buildTarget/compile
    Compile(Items<Text>),
    /// buildTarget/test
    Test(Items<Text>),
    /// buildTarget/run
    Run(Text),
    /// buildTarget/cleanCache
    Clean(Items<Text>),
    /// workspace/reload
    Reload,
    /// $/cancelRequest, with the id of a request
    Cancel(u64),
    /// waits for all answers
    Wait,
    /// writes all that is shown
    ShowAll,
    /// writes the errors that are shown
    ShowErrors,
    /// build/shutdown
    Shutdown,
    /// build/exit
    Exit,
}

impl Line {
    /// Whether it is `initialize`, which is the first line of a script and no other.
    pub fn is_initialize(&self) -> bool
        ensures { result ≡ is_initialize self.now }
    {
        matches!(self, Line::Initialize(_))
    }
}
