ghost use Rattle.std.specs.Prelude.{◌≡◌, ◌++◌, option_map, IfOk, OnOk, true};
ghost use Rattle.std.specs.List.{All};
ghost use Rattle.std.specs.Str.{IsUtf8};
ghost use Rattle.ob_text.specs.Held.{Entries};
ghost use Rattle.serde_json.specs.Data.{array, string};
ghost use Rattle.serde_json.specs.Written.{comma_if, compact_text, items_text};
ghost use Rattle.recordings.specs.Recordings.{AreTexts, IsHeldText, IsTextEntry, entries_items, entry_data, handed_data, held_items};

use ob_text::{Held, NoMemory, Path, Snapshot};
use serde_json::Value;
use std::alloc::Global;

/// What the tree handed out, or that it failed, as JSON with no space. One text after another becomes JSON.
#[tactic(auto, using(crate::proofs::SpellingLaws::null_text))]
pub(crate) fn handed_text(alloc: Global, snapshot: Option<&Snapshot>) -> Result<Vec<u8>, NoMemory>
    requires { AreTexts (option_map (λ s. s.now.entries) snapshot) }
    ensures { IfOk result (λ text. text.items ≡ compact_text (handed_data (option_map (λ s. s.now.entries) snapshot.entry))) }
{
    let mut out = Vec::new(alloc);
    match snapshot {
        Some(snapshot) => {
            print_entries(alloc, snapshot.entries.as_slice(), &mut out)?;
            Ok(out)
        }
        None => {
            put(&mut out, b"null")?;
            Ok(out)
        }
    }
}

/// Prints a list of entries.
fn print_entries(alloc: Global, entries: &[(Path, Held)], out: &mut Vec<u8>) -> Result<(), NoMemory>
    requires { All IsTextEntry entries.now }
    ensures { OnOk result (out.new.items ≡ out.old.items ++ compact_text (array (entries_items entries.now))) }
{
    put(out, b"[")?;
    let mut later = false;
    let mut rest = entries;
    'entries: while let Some((entry, others)) = rest.split_first() {
        print_entry(alloc, later, entry, out)?;
        later = true;
        rest = others;
    }
    put(out, b"]")
}

/// Prints a path with what is held there, behind a comma where something stands before.
fn print_entry(
    alloc: Global,
    later: bool,
    entry: &(Path, Held),
    out: &mut Vec<u8>,
) -> Result<(), NoMemory>
    requires path { IsUtf8 entry.now.0 }
    requires held { IsHeldText entry.now.1 }
    ensures { OnOk result (out.new.items ≡ out.old.items ++ (comma_if later ++ compact_text (entry_data entry.now))) }
{
    if later {
        put(out, b",")?;
    }
    put(out, b"[")?;
    print_text(alloc, entry.0.as_str(), out)?;
    print_held(alloc, &entry.1, out)
}

/// Prints what is held at a path, behind the path, with the closing bracket.
fn print_held(alloc: Global, held: &Held, out: &mut Vec<u8>) -> Result<(), NoMemory>
    requires { IsHeldText held.now }
    ensures { OnOk result (out.new.items ≡ out.old.items ++ items_text true (held_items held.now)) }
{
    match held {
        Held::Text(text) => {
            put(out, b",\"text\",")?;
            print_text(alloc, text.as_str(), out)?;
            put(out, b"]")
        }
        Held::Absent => put(out, b",\"absent\"]"),
        Held::TooLarge => put(out, b",\"tooLarge\"]"),
        Held::NotText => put(out, b",\"notText\"]"),
    }
}

/// Prints a text of JSON.
fn print_text(alloc: Global, text: &str, out: &mut Vec<u8>) -> Result<(), NoMemory>
    ensures { OnOk result (out.new.items ≡ out.old.items ++ compact_text (string text.now)) }
{
    let value = Value::try_from_str(alloc, text)?;
    let text = value.to_string(alloc)?;
    put(out, text.as_bytes())
}

/// Puts bytes behind `out`.
fn put(out: &mut Vec<u8>, bytes: &[u8]) -> Result<(), NoMemory>
    ensures { OnOk result (out.new.items ≡ out.old.items ++ bytes.now) }
{
    out.extend_from_slice(bytes)?;
    Ok(())
}
