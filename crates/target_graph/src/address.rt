ghost use Rattle.std.specs.Prelude.{◌≡◌, ◌≢◌, ◌<◌, ◌≤◌, ◌^◌, ◌++◌, ℕ, List, IfOk, IfSome, IfNone, length};
ghost use Rattle.target_graph.specs.Address as spec;
ghost use Rattle.std.specs.List.{list_any};
ghost use Rattle.std.specs.Option.{option_copied};
ghost use Rattle.target_graph.specs.Listers as listers;
ghost use Rattle.target_graph.specs.Listers.{AreListers};

use crate::target::Target;
use ob_text::{NoMemory, Path, Text};
use std::alloc::Global;
use url::{ParseError, Url};

/// What follows the front of a text.
pub(crate) fn behind<'a>(text: &'a [u8], front: &[u8]) -> Option<&'a [u8]>
    ensures some { IfSome result (λ rest. text.now ≡ front.now ++ rest.now) }
    ensures none { IfNone result ((rest : List ℕ) → text.now ≢ front.now ++ rest) }
{
    text.strip_prefix(front)
}

/// Three texts as one.
pub(crate) fn joined(alloc: Global, root: &[u8], mark: &[u8], name: &[u8]) -> Result<Text, NoMemory>
    ensures { IfOk result (λ text. text ≡ root.now ++ mark.now ++ name.now) }
{
    let mut text = Vec::from_slice(alloc, root)?;
    text.extend_from_slice(mark)?;
    text.extend_from_slice(name)?;
    Ok(Text::from_vec(text))
}

/// The text that `url` prints for an address, where it reads it.
#[tactic(auto, unfolding(crate::specs::Address::printed))]
pub(crate) fn printed(alloc: Global, uri: &str) -> Result<Option<Text>, NoMemory>
    ensures { IfOk result (λ text. text ≡ spec.printed uri.now) }
{
    match Url::parse(alloc, uri) {
        Ok(url) => Ok(Some(Text::new(alloc, url.as_str().as_bytes())?)),
        Err(ParseError::OutOfMemory | ParseError::Overflow) => Err(NoMemory),
        Err(_) => Ok(None),
    }
}

/// The indices of the targets that list one of two paths.
pub(crate) fn listing(
    alloc: Global,
    targets: &[Target],
    own: Option<&[u8]>,
    other: Option<&[u8]>,
) -> Result<Vec<u32>, NoMemory>
    requires { length targets.now < 2 ^ 32 }
    ensures listers { IfOk result (λ indices. AreListers targets.now (option_copied own.entry)
        (option_copied other.entry) indices.items) }
    ensures few { IfOk result (λ indices. length indices.items ≤ length targets.now) }
{
    let mut indices = Vec::new(alloc);
    for index in 0..targets.len() {
        if lists(targets[index].modules.as_slice(), own, other) {
            indices.push(index as u32)?;
        }
    }
    Ok(indices)
}

fn lists(modules: &[Path], own: Option<&[u8]>, other: Option<&[u8]>) -> bool
    ensures { result ≡ list_any (listers.is_one (option_copied own.entry) (option_copied
        other.entry)) modules.now }
{
    for path in modules {
        if is_one(path.as_slice(), own, other) {
            return true;
        }
    }
    false
}

fn is_one(path: &[u8], own: Option<&[u8]>, other: Option<&[u8]>) -> bool
    ensures { result ≡ listers.is_one (option_copied own.entry) (option_copied other.entry)
        path.now }
{
    is_this(path, own) || is_this(path, other)
}

fn is_this(path: &[u8], wanted: Option<&[u8]>) -> bool
    ensures { result ≡ listers.is_this (option_copied wanted.entry) path.now }
{
    match wanted {
        Some(wanted) => path == wanted,
        None => false,
    }
}
