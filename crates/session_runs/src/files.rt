//! The files that many sessions meet.

/// The path of the file that describes a workspace.
pub const WORKSPACE_FILE: &[u8] = b"oberon-build.json";

/// A workspace without targets.
pub const WORKSPACE: &[u8] = b"{\"version\":1,\"targets\":[]}";

/// A workspace of one target, which has one module.
pub const APP_ALONE: &[u8] =
    b"{\"version\":1,\"targets\":[{\"name\":\"app\",\"kind\":\"application\",\"modules\":[\"A.Mod\"],\"main\":\"A\"}]}";

/// Files, each as its path and its text.
pub type Files<'a> = &'a [(&'a [u8], &'a [u8])];

/// The files of a workspace without targets.
pub const WORKSPACE_ALONE: Files<'static> = &[(WORKSPACE_FILE, WORKSPACE)];

/// The file of the workspace of one target.
pub const APP: (&[u8], &[u8]) = (WORKSPACE_FILE, APP_ALONE);

/// A module without faults.
pub const A: (&[u8], &[u8]) = (b"A.Mod", b"MODULE A; END A.");

/// A module that ends in another name.
pub const ODD_Z: (&[u8], &[u8]) = (b"Z.Mod", b"MODULE Z; END Y.");
