use ob_text::{Items, Name, Path};

/// What a target is for.
#[derive(Clone, Copy, Debug, PartialEq, Eq)]
pub enum TargetKind {
    Library,
    Application,
    Test,
}

/// A target of a workspace. Its dependencies are indices in the list of all targets, and its main
/// module, which an
/// application alone has, is the stem of one of its modules' paths.
#[derive(Debug)]
pub struct Target {
    pub name: Name,
    pub kind: TargetKind,
    pub modules: Items<Path>,
    pub dependencies: Items<u32>,
    pub main: Option<Name>,
}

impl Drop for Target {
    fn drop(self) {
        let Self {
            name: _,
            kind: _,
            modules: _,
            dependencies: _,
            main: _,
        } = self;
    }
}

/// A target, by its index, and one of its modules.
#[derive(Debug, Drop)]
pub struct Pair {
    pub target: u32,
    pub path: Path,
}
