ghost use Rattle.std.specs.Prelude.{◌≡◌, ◌==◌, ◌&&◌, List, ℕ, true, IfOk, slice_index};
ghost use Rattle.std.specs.Char.{is_ascii_alphabetic, is_ascii_alphanumeric};
ghost use Rattle.std.specs.List.{list_all, before_first};
ghost use Rattle.target_graph.specs.Names as spec;
ghost use Rattle.target_graph.specs.Names.{IsModuleName};

use ob_text::{Name, NoMemory, Path};
use oberon_scan::is_reserved;
use std::alloc::Global;

/// The most bytes of a target's name, and of a module's path.
const NAME_LIMIT: usize = 255;

/// Whether a text may be the name of a target.
#[tactic(auto, unfolding(crate::specs::Names::is_name))]
pub(crate) fn is_name(text: &[u8]) -> bool
    ensures { result ≡ spec.is_name text.now }
{
    are_name_bytes(text) && text.len() <= NAME_LIMIT
}

/// Whether a text may be the path of a module.
#[tactic(auto, unfolding(crate::specs::Names::is_path))]
pub(crate) fn is_path(text: &[u8]) -> bool
    ensures { result ≡ spec.is_path text.now }
{
    text.len() <= NAME_LIMIT && has_segments(text) && is_module_name(stem(text))
}

/// The stem of a module's path, which is the name of its module.
pub fn stem_of(alloc: Global, path: &Path) -> Result<Name, NoMemory>
    requires { spec.is_path path.now ≡ true }
    ensures stem { IfOk result (λ name. name ≡ spec.stem path.now) }
    ensures name { IfOk result IsModuleName }
{
    Name::new(alloc, stem(path.as_slice()))
}

/// The stem of a path.
#[tactic(auto, unfolding(crate::specs::Names::stem))]
pub(crate) fn stem(path: &[u8]) -> &[u8]
    ensures { result.now ≡ spec.stem path.now }
{
    before_dot(last_segment(path))
}

fn before_dot(text: &[u8]) -> &[u8]
    ensures { result.now ≡ before_first (λ byte. byte == 46) text.now }
{
    match text.iter().position(|byte| *byte == b'.') {
        Some(end) => text.split_at(end).0,
        None => text,
    }
}

fn last_segment(path: &[u8]) -> &[u8]
    ensures { result.now ≡ spec.last_segment path.now }
{
    let mut start = path.len();
    'back: while start > 0 && path[start - 1] != b'/' {
        start -= 1;
    }
    path.split_at(start).1
}

fn has_segments(path: &[u8]) -> bool
    ensures { result ≡ list_all spec.is_segment (spec.segments path.now) }
{
    let mut start = 0;
    let mut at = 0;
    'sweep: while at < path.len() {
        let byte = path[at];
        if !is_name_byte(byte) {
            if byte != b'/' || !leads_on(&path[start..at]) {
                return false;
            }
            start = at + 1;
        }
        at += 1;
    }
    leads_on(&path[start..])
}

/// Whether a text leads on from its folder: it isn't empty, and names neither that folder nor the one above.
fn leads_on(text: &[u8]) -> bool
    ensures { spec.is_segment text.now ≡ list_all spec.is_name_byte text.now && result }
{
    const HERE: &[u8] = b".";
    const ABOVE: &[u8] = b"..";
    !text.is_empty() && text != HERE && text != ABOVE
}

fn are_name_bytes(text: &[u8]) -> bool
    ensures { result ≡ spec.are_name_bytes text.now }
{
    !text.is_empty() && has_name_bytes(text)
}

fn has_name_bytes(text: &[u8]) -> bool
    ensures { result ≡ list_all spec.is_name_byte text.now }
{
    text.iter().all(|byte| is_name_byte(*byte))
}

fn is_name_byte(byte: u8) -> bool
    ensures { result ≡ spec.is_name_byte byte }
{
    byte.is_ascii_alphabetic() || byte.is_ascii_digit() || matches!(byte, b'_' | b'.' | b'-')
}

#[tactic(auto, unfolding(crate::specs::Names::is_module_name))]
fn is_module_name(text: &[u8]) -> bool
    ensures { result ≡ spec.is_module_name text.now }
{
    const OUT: &[u8] = b"Out";
    is_identifier(text) && !is_reserved(text) && text != OUT
}

fn is_identifier(text: &[u8]) -> bool
    ensures { result ≡ spec.is_identifier text.now }
{
    match text {
        [first, rest @ ..] => first.is_ascii_alphabetic() && is_alphanumeric(rest),
        [] => false,
    }
}

fn is_alphanumeric(text: &[u8]) -> bool
    ensures { result ≡ list_all is_ascii_alphanumeric text.now }
{
    text.iter().all(|byte| byte.is_ascii_alphanumeric())
}
