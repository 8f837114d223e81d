ghost use Rattle.std.specs.Prelude.{◌≡◌, ◌++◌, map, OnOk};
ghost use Rattle.std.specs.Option.{IfSome};
ghost use Rattle.std.specs.Str.{IsUtf8};
ghost use Rattle.serde_json.specs.Written.{comma_if, compact_text};
ghost use Rattle.bsp_records.specs.Diagnostics.{diagnostic_data, publish_diagnostics_params_data};
ghost use Rattle.bsp_records.specs.Printing.{origin_text};
ghost use Rattle.bsp_records.specs.Shown.{publication, shown};
ghost use Rattle.bsp_records.specs.Writing.{array_with};

use crate::identifiers::{BuildTargetIdentifier, TextDocumentIdentifier};
use crate::shown::show;
use crate::writing::Write;
use bsp_address::Address;
use ob_text::{Diagnostic, NoMemory, Text};
use std::alloc::Global;

/// Prints the params of build/publishDiagnostics for a list of diagnostics behind `out`: its JSON with no space and the
/// members in the order of their names. One diagnostic after another becomes JSON, so that one alone takes its
/// memory beside the text.
pub fn print_publication(
    alloc: Global,
    document: &Address,
    target: &Address,
    origin: &Option<Text>,
    reset: bool,
    list: &[Diagnostic],
    out: &mut Vec<u8>,
) -> Result<(), NoMemory>
    requires origin { IfSome origin.now IsUtf8 }
    ensures { OnOk result (out.new.items ≡ out.old.items ++ compact_text (publish_diagnostics_params_data
        (publication document.now target.now origin.now reset (map shown list.now)))) }
{
    put(out, b"{\"buildTarget\":")?;
    let target = BuildTargetIdentifier {
        uri: target.as_text().copy(alloc)?,
    };
    print(alloc, &target, out)?;
    put(out, b",\"diagnostics\":")?;
    print_list(alloc, list, out)?;
    print_origin(alloc, origin, out)?;
    put(out, b",\"reset\":")?;
    print(alloc, &reset, out)?;
    put(out, b",\"textDocument\":")?;
    let document = TextDocumentIdentifier {
        uri: document.as_text().copy(alloc)?,
    };
    print(alloc, &document, out)?;
    put(out, b"}")
}

/// Prints the member of an originId, where there is one, behind other members.
fn print_origin(alloc: Global, origin: &Option<Text>, out: &mut Vec<u8>) -> Result<(), NoMemory>
    requires { IfSome origin.now IsUtf8 }
    ensures { OnOk result (out.new.items ≡ out.old.items ++ origin_text origin.now) }
{
    match origin {
        Some(origin) => {
            put(out, b",\"originId\":")?;
            print(alloc, origin, out)
        }
        None => Ok(()),
    }
}

/// Prints the list of some diagnostics.
fn print_list(alloc: Global, list: &[Diagnostic], out: &mut Vec<u8>) -> Result<(), NoMemory>
    ensures { OnOk result (out.new.items
        ≡ out.old.items ++ compact_text (array_with (map diagnostic_data (map shown list.now)))) }
{
    put(out, b"[")?;
    let mut later = false;
    let mut rest = list;
    'diagnostics: while let Some((diagnostic, others)) = rest.split_first() {
        print_comma(later, out)?;
        print(alloc, &show(alloc, diagnostic)?, out)?;
        later = true;
        rest = others;
    }
    put(out, b"]")
}

/// Puts a text behind `out`.
fn put(out: &mut Vec<u8>, text: &[u8]) -> Result<(), NoMemory>
    ensures { OnOk result (out.new.items ≡ out.old.items ++ text.now) }
{
    out.extend_from_slice(text)?;
    Ok(())
}

/// Prints a comma, where something stands before.
fn print_comma(later: bool, out: &mut Vec<u8>) -> Result<(), NoMemory>
    ensures { OnOk result (out.new.items ≡ out.old.items ++ comma_if later) }
{
    if later {
        put(out, b",")?;
    }
    Ok(())
}

/// Prints a record behind `out`.
fn print<T: Write>(alloc: Global, value: &T, out: &mut Vec<u8>) -> Result<(), NoMemory>
    requires { T.HasTexts value.now }
    ensures { OnOk result (out.new.items ≡ out.old.items ++ compact_text (T.data_of value.now)) }
{
    let json = value.write(alloc)?;
    let text = json.to_string(alloc)?;
    put(out, text.as_bytes())
}
