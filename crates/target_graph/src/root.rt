ghost use Rattle.std.specs.Prelude.{◌≡◌, ◌≤◌, None, Some, IfOk, length};
ghost use Rattle.url.specs.Parts.{serialize};
ghost use Rattle.url.specs.Parser.{Gives, parse_url};
ghost use Rattle.target_graph.specs.Address.{root_at, root_of_url, with_slash, plain_root};
ghost use Rattle.target_graph.specs.Limits.{root_limit};

use bsp_address::is_graphic;
use ob_text::{NoMemory, Text};
use std::alloc::Global;
use std::marker::Model;
use url::{ParseError, Url};

/// The most bytes of a root.
const ROOT_LIMIT: usize = 4_096;

/// The address of a workspace's folder. It ends in a slash.
#[derive(Debug, Drop)]
pub struct Root {
    text: Text,
}

impl Model for Root {
    ghost use Rattle.std.specs.Prelude.{ℕ, List};
    ghost use Rattle.target_graph.specs.Root.{IsRoot};

    ghost Value = { List ℕ };

    ghost view = { λ root. root.text };

    ghost invariant = { λ root. IsRoot root.text };
}

impl Root {
    ghost use Rattle.std.specs.Prelude.{◌≡◌, IfOk};
    ghost use Rattle.target_graph.specs.Root.{IsRoot};

    pub fn as_slice(&self) -> &[u8]
        ensures text { result.now ≡ self.now }
        ensures root { IsRoot self.now }
    {
        self.text.as_slice()
    }

    /// An equal value of its own.
    pub fn copy(&self, alloc: Global) -> Result<Root, NoMemory>
        ensures { IfOk result (λ root. root ≡ self.now) }
    {
        Ok(Root {
            text: self.text.copy(alloc)?,
        })
    }
}

/// Why an address is no root.
#[derive(Clone, Copy, Debug, PartialEq, Eq)]
pub enum RootFault {
    /// It isn't an address of a folder, or its root is longer than 4,096 bytes or holds a byte that is no printing
    /// ASCII character.
    BadRoot,
    NoMemory,
}

impl From<NoMemory> for RootFault {
    ghost use Rattle.std.specs.Prelude.{◌≡◌};
    ghost use Rattle.target_graph.specs.declared.root.RootFault.TheVariants as faults;

    ghost from_gives = { λ _ fault. fault ≡ faults.NoMemory };

    fn from(_error: NoMemory) -> RootFault {
        RootFault::NoMemory
    }
}

/// The root at a `rootUri` (Build Server Protocol 2.2, InitializeBuildParams).
#[tactic(auto, unfolding(crate::specs::Address::root_at))]
pub fn root_of(alloc: Global, text: &str) -> Result<Root, RootFault>
    requires { length text.now ≤ root_limit }
    ensures root { IfOk result (λ root. root_at text.now ≡ Some root) }
    ensures bad { result ≡ Err RootFault.BadRoot → root_at text.now ≡ None }
{
    match Url::parse(alloc, text) {
        Ok(url) => root_of_url(alloc, &url),
        Err(ParseError::OutOfMemory | ParseError::Overflow) => Err(RootFault::NoMemory),
        Err(_) => Err(RootFault::BadRoot),
    }
}

fn root_of_url(alloc: Global, url: &Url) -> Result<Root, RootFault>
    ensures root { IfOk result (λ root. root_of_url url.now ≡ Some root) }
    ensures bad { result ≡ Err RootFault.BadRoot → root_of_url url.now ≡ None }
{
    if url.cannot_be_a_base() || url.query().is_some() || url.fragment().is_some() {
        return Err(RootFault::BadRoot);
    }
    let text = with_slash(alloc, url.as_str())?;
    plain_root(text)
}

/// The text with a slash at its end.
fn with_slash(alloc: Global, text: &str) -> Result<Vec<u8>, NoMemory>
    ensures { IfOk result (λ bytes. bytes.items ≡ with_slash text.now) }
{
    let mut bytes = Vec::from_slice(alloc, text.as_bytes())?;
    if bytes.last().copied() != Some(b'/') {
        bytes.push(b'/')?;
    }
    Ok(bytes)
}

/// The root that is this text.
#[tactic(auto, using(crate::proofs::PlainLaws::plain_bytes))]
fn plain_root(text: Vec<u8>) -> Result<Root, RootFault>
    ensures root { IfOk result (λ root. plain_root text.items ≡ Some root) }
    ensures bad { result ≡ Err RootFault.BadRoot → plain_root text.items ≡ None }
{
    if text.len() > ROOT_LIMIT {
        return Err(RootFault::BadRoot);
    }
    if !is_graphic(text.as_slice()) {
        return Err(RootFault::BadRoot);
    }
    Ok(Root {
        text: Text::from_vec(text),
    })
}
