use super::{is_printed, one, owned, parsed};
use bsp_records::{
    BuildTargetIdentifier, PublishDiagnosticsParams, TextDocumentIdentifier,
    read_publish_diagnostics_params, show_all, write_publish_diagnostics_params,
};
use ob_text::{Code, Diagnostic, Name, Position, Range, Span};
use std::alloc::Global;
use std::test::Fail;

const PUBLISHED: &str =
    "{\"buildTarget\":{\"uri\":\"file:///w/?id=app\"},\"diagnostics\":[{\"code\":\"badToken\",\"message\":\"unexpected symbol\",\"range\":{\"end\":{\"character\":19,\"line\":0},\"start\":{\"character\":18,\"line\":0}},\"severity\":1,\"source\":\"oberon\"}],\"reset\":true,\"textDocument\":{\"uri\":\"file:///w/A.Mod\"}}";

/// A diagnostic of the characters 18 to 19 of line 0.
fn diagnostic(code: Code, name: Option<Name>) -> Diagnostic {
    let start = Position {
        line: 0,
        character: 18,
    };
    let end = Position {
        line: 0,
        character: 19,
    };
    Diagnostic {
        span: Span { start: 18, end: 19 },
        range: Range { start, end },
        code,
        name,
    }
}

/// Are the params of the diagnostic printed so?
fn is_published(alloc: Global, want: &str) -> Result<bool, Fail> {
    let list = [diagnostic(Code::BadToken, None)];
    let params = PublishDiagnosticsParams {
        text_document: TextDocumentIdentifier {
            uri: owned(alloc, "file:///w/A.Mod")?,
        },
        build_target: BuildTargetIdentifier {
            uri: owned(alloc, "file:///w/?id=app")?,
        },
        origin_id: None,
        diagnostics: show_all(alloc, &list)?,
        reset: true,
    };
    is_printed(
        alloc,
        &write_publish_diagnostics_params(alloc, &params)?,
        want,
    )
}

#[test]
fn publishes(rt: HostRuntime) -> Result<(), Fail> {
    assert!(rt; is_published(rt.alloc(), PUBLISHED)?);
    Ok(())
}

/// Is what was read of a text written as this?
fn is_written_again(alloc: Global, text: &str, want: &str) -> Result<bool, Fail> {
    let params = read_publish_diagnostics_params(alloc, &parsed(alloc, text)?)?;
    is_printed(
        alloc,
        &write_publish_diagnostics_params(alloc, &params)?,
        want,
    )
}

#[test]
fn writes_what_it_read(rt: HostRuntime) -> Result<(), Fail> {
    let alloc = rt.alloc();
    assert!(rt; is_written_again(alloc, PUBLISHED, PUBLISHED)?);
    let numbered =
        "{\"textDocument\":{\"uri\":\"a\"},\"buildTarget\":{\"uri\":\"b\"},\"originId\":null,\"diagnostics\":[{\"range\":{\"start\":{\"line\":0,\"character\":1},\"end\":{\"line\":2,\"character\":3}},\"code\":-7,\"message\":\"\"}],\"reset\":false}";
    let want =
        "{\"buildTarget\":{\"uri\":\"b\"},\"diagnostics\":[{\"code\":\"-7\",\"message\":\"\",\"range\":{\"end\":{\"character\":3,\"line\":2},\"start\":{\"character\":1,\"line\":0}}}],\"reset\":false,\"textDocument\":{\"uri\":\"a\"}}";
    assert!(rt; is_written_again(alloc, numbered, want)?);
    Ok(())
}

/// A name of so many letters, and what stands behind them.
fn name(alloc: Global, count: usize, behind: &str) -> Result<Name, Fail> {
    let mut bytes = vec![in alloc; b'a'; count]?;
    bytes.extend_from_slice(behind.as_bytes())?;
    Ok(Name::from_vec(bytes))
}

/// The length of the message of such a name.
fn message_length(alloc: Global, count: usize, behind: &str) -> Result<usize, Fail> {
    let name = name(alloc, count, behind)?;
    let list = one(alloc, diagnostic(Code::NoName, Some(name)))?;
    let mut length = 0;
    for record in show_all(alloc, list.as_slice())?.as_slice() {
        length = record.message.as_slice().len();
    }
    Ok(length)
}

#[test]
fn cuts_names(rt: HostRuntime) -> Result<(), Fail> {
    let alloc = rt.alloc();
    for (count, want) in [(0, 14), (63, 77), (64, 78), (65, 78)] {
        assert_eq!(rt; message_length(alloc, count, "")?, want);
    }
    Ok(())
}

#[test]
fn cuts_names_that_are_not_ascii(rt: HostRuntime) -> Result<(), Fail> {
    let alloc = rt.alloc();
    for (count, behind, want) in [(0, "ä", 14), (3, "äb", 17), (63, "ä", 77), (64, "ä", 78)] {
        assert_eq!(rt; message_length(alloc, count, behind)?, want);
    }
    Ok(())
}
