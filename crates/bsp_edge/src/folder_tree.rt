ghost use Rattle.std.specs.Prelude.{◌≡◌, ◌≢◌, ◌<◌, None, Some, Ok, Err, length, vec_len, IfErr, IfOk, OnOk, IsErrOf};
ghost use Rattle.std.specs.Fs.{file_type, IsFile};
ghost use Rattle.std.specs.IoError.{error_kind};
ghost use Rattle.std.specs.List.{All};
ghost use Rattle.std.specs.Path.{path_buf_bytes, path_join};
ghost use Rattle.std.specs.Str.{IsUtf8};
ghost use Rattle.ob_text.specs.Held.{IsReadable};
ghost use Rattle.bsp_edge.specs.Handing.{HandFaults, HandsOut, paths_of};

use crate::document::read_document;
use crate::handing::{Tree, TreeFault};
use ob_text::{Held, Items, Path, Snapshot, Text};
use std::alloc::{AllocError, Global};
use std::fs::{self, File, Metadata};
use std::io::{self, ErrorKind};
use std::path::{self, PathBuf};
use std::rt::Files;
use std::str;

/// How many bytes are read at once.
const PIECE: usize = 65_536;

/// The files below a folder. It tells nothing of their contents. Each file is read anew each time that
/// it is asked for. A fault of reading fails the call, and so does what is no regular file: a folder, a
/// FIFO, a device or a socket in a file's place. A link counts as what it leads to.
#[derive(Drop)]
pub struct FolderTree<R> {
    runtime: R,
    alloc: Global,
    folder: Text,
    faults: u64,
}

impl<R: Files> FolderTree<R> {
    /// The tree of a folder, which is the current one where `folder` is empty. A path that begins with
    /// `/` is taken as it is. Where the folder isn't there, none of its files is.
    pub fn new(runtime: R, alloc: Global, folder: Text) -> FolderTree<R>
        ensures { ⟦<FolderTree<R> as Tree>⟧.faults result ≡ 0 }
    {
        FolderTree {
            runtime,
            alloc,
            folder,
            faults: 0,
        }
    }

    fn read_files(&self, paths: &[Path], buffer: &mut [u8]) -> Result<Snapshot, TreeFault>
        requires { 0 < length buffer.old }
        ensures paths { IfOk result (λ snapshot. paths_of snapshot.entries ≡ paths.now) }
        ensures texts { IfOk result (λ snapshot. All (λ entry. IsReadable entry.1) snapshot.entries) }
    {
        let mut entries = Vec::new(self.alloc);
        for path in paths {
            let held = self.read_file(path, buffer)?;
            entries.push((path.copy(self.alloc)?, held))?;
        }
        Ok(Snapshot {
            entries: Items::from_vec(entries),
        })
    }

    /// Opens nothing but a regular file, since the open of a FIFO may wait for good.
    fn read_file(&self, path: &Path, buffer: &mut [u8]) -> Result<Held, TreeFault>
        requires { 0 < length buffer.old }
        ensures { IfOk result IsReadable }
    {
        let name = name_of(self.alloc, self.folder.as_slice(), path.as_slice())?;
        match found(fs::metadata(&self.runtime, name.as_path()))? {
            Some(metadata) => {
                regular(&metadata)?;
                self.read_regular(&metadata, name, buffer)
            }
            None => Ok(Held::Absent),
        }
    }

    /// Opens a file where the look at its path found a regular one.
    fn read_regular(
        &self,
        _looked: &Metadata,
        name: PathBuf,
        buffer: &mut [u8],
    ) -> Result<Held, TreeFault>
        requires regular { IsFile (file_type _looked.now) }
        requires room { 0 < length buffer.old }
        ensures { IfOk result IsReadable }
    {
        match found(File::open(&self.runtime, name))? {
            Some(mut file) => read_document(self.alloc, &mut file, buffer),
            None => Ok(Held::Absent),
        }
    }
}

impl<R: Files> Tree for FolderTree<R> {
    ghost handed = { λ _. None };

    ghost faults = { λ tree. tree.faults };

    fn read_all(&mut self, paths: &[Path]) -> Result<Snapshot, TreeFault> {
        let mut buffer = zeros(self.alloc, PIECE)?;
        match self.read_files(paths, buffer.as_mut_slice()) {
            Ok(snapshot) => Ok(snapshot),
            Err(TreeFault::Failed) => {
                self.faults = self.faults.saturating_add(1);
                Err(TreeFault::Failed)
            }
            Err(TreeFault::NoMemory) => Err(TreeFault::NoMemory),
        }
    }
}

/// What a call on a path found. It is nothing where there is no entry, or a parent is no folder.
fn found<T>(answer: io::Result<T>) -> Result<Option<T>, TreeFault>
    ensures found { IfOk answer (λ it. result ≡ Ok (Some it)) }
    ensures missing { IfErr answer (λ error. error_kind error ≡ ErrorKind.NotFound
        → result ≡ Ok None) }
    ensures no_folder { IfErr answer (λ error. error_kind error ≡ ErrorKind.NotADirectory
        → result ≡ Ok None) }
    ensures failed { IfErr answer (λ error. error_kind error ≢ ErrorKind.NotFound
        → error_kind error ≢ ErrorKind.NotADirectory → result ≡ Err TreeFault.Failed) }
{
    match answer {
        Ok(it) => Ok(Some(it)),
        Err(error) => match error.kind() {
            ErrorKind::NotFound | ErrorKind::NotADirectory => Ok(None),
            _ => Err(TreeFault::Failed),
        },
    }
}

/// Looks whether a regular file stands at a path.
fn regular(metadata: &Metadata) -> Result<(), TreeFault>
    ensures file { IsFile (file_type metadata.now) → result ≡ Ok tt }
    ensures other { ¬ (IsFile (file_type metadata.now)) → result ≡ Err TreeFault.Failed }
    ensures found { OnOk result (IsFile (file_type metadata.now)) }
{
    if metadata.is_file() {
        Ok(())
    } else {
        Err(TreeFault::Failed)
    }
}

/// The name of a file below a folder. Only a name of UTF-8 can be read.
fn name_of(alloc: Global, folder: &[u8], file: &[u8]) -> Result<PathBuf, TreeFault>
    ensures joined { IfOk result (λ name. path_buf_bytes name ≡ path_join folder.now file.now) }
    ensures failed { IsErrOf result TreeFault.Failed → IsUtf8 folder.now → ¬ (IsUtf8 file.now) }
{
    let Ok(folder) = str::from_utf8(folder) else {
        return Err(TreeFault::Failed);
    };
    let Ok(file) = str::from_utf8(file) else {
        return Err(TreeFault::Failed);
    };
    Ok(path::Path::new(folder).join(alloc, file)?)
}

fn zeros(alloc: Global, count: usize) -> Result<Vec<u8>, AllocError>
    ensures { IfOk result (λ bytes. vec_len bytes ≡ count) }
{
    vec![in alloc; 0; count]
}
