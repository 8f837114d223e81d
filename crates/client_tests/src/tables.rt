use bsp_records::{
    BuildTargetIdentifier, DiagnosticRecord, DiagnosticSeverity, PublishDiagnosticsParams,
    TextDocumentIdentifier,
};
use client_table::{Row, Table};
use ob_text::{Items, Position, Range, Text};
use std::alloc::Global;
use std::test::Fail;

/// A publication: its document, its target, whether it resets, and the messages of its diagnostics.
type Published = (&'static str, &'static str, bool, &'static [&'static str]);

/// A row: its document, its target and its message.
type Shown = (&'static str, &'static str, &'static str);

/// What is published, one after another, and all that is shown then.
const TABLES: [(&[Published], &[Shown]); 4] = [
    (&[], &[]),
    // What resets replaces, what doesn't goes behind; each document and target has a list of its own.
    (
        &[
            ("b", "y", true, &["1", "2"]),
            ("b", "x", false, &["3"]),
            ("b", "y", false, &["4"]),
            ("b", "x", true, &["5", "6"]),
            ("a", "y", false, &["7"]),
        ],
        &[
            ("a", "y", "7"),
            ("b", "x", "5"),
            ("b", "x", "6"),
            ("b", "y", "1"),
            ("b", "y", "2"),
            ("b", "y", "4"),
        ],
    ),
    // An empty list that resets clears, and one that doesn't changes nothing; so does one of what shows nothing.
    (
        &[
            ("a", "x", true, &["1"]),
            ("a", "y", true, &["2"]),
            ("b", "x", true, &["3"]),
            ("a", "x", true, &[]),
            ("a", "y", false, &[]),
            ("b", "x", true, &[]),
            ("c", "x", true, &[]),
            ("a", "x", false, &["4"]),
        ],
        &[("a", "x", "4"), ("a", "y", "2")],
    ),
    // Documents and targets ascend byte by byte, the shorter one first.
    (
        &[
            ("b", "x", true, &["1"]),
            ("a/c", "x", true, &["2"]),
            ("a", "z", true, &["3"]),
            ("a", "yy", true, &["4"]),
            ("a", "y", true, &["5"]),
            ("B", "x", true, &["6"]),
        ],
        &[
            ("B", "x", "6"),
            ("a", "y", "5"),
            ("a", "yy", "4"),
            ("a", "z", "3"),
            ("a/c", "x", "2"),
            ("b", "x", "1"),
        ],
    ),
];

fn owned(alloc: Global, text: &str) -> Result<Text, Fail> {
    Ok(Text::new(alloc, text.as_bytes())?)
}

fn params(alloc: Global, published: &Published) -> Result<PublishDiagnosticsParams, Fail> {
    let (document, target, reset, messages) = *published;
    let mut records = Vec::new(alloc);
    for message in messages {
        let start = Position {
            line: 0,
            character: 0,
        };
        let end = start;
        records.push(DiagnosticRecord {
            range: Range { start, end },
            severity: Some(DiagnosticSeverity::Error),
            code: None,
            source: None,
            message: owned(alloc, message)?,
        })?;
    }
    Ok(PublishDiagnosticsParams {
        text_document: TextDocumentIdentifier {
            uri: owned(alloc, document)?,
        },
        build_target: BuildTargetIdentifier {
            uri: owned(alloc, target)?,
        },
        origin_id: None,
        diagnostics: Items::from_vec(records),
        reset,
    })
}

fn is_row(row: &Row, shown: &Shown) -> bool {
    let (document, target, message) = *shown;
    row.document.as_slice() == document.as_bytes()
        && row.target.as_slice() == target.as_bytes()
        && row.item.message.as_slice() == message.as_bytes()
}

#[test]
fn shows_what_is_published(rt: HostRuntime) -> Result<(), Fail> {
    let alloc = rt.alloc();
    for &(published, shown) in &TABLES {
        let mut table = Table::new(alloc);
        for each in published {
            table.apply(&params(alloc, each)?)?;
        }
        let rows = table.rows()?;
        assert!(rt; rows.len() == shown.len());
        assert!(rt;
            rows.iter()
                .zip(shown)
                .all(|(row, wanted)| is_row(row, wanted))
        );
        for (document, target, _message) in shown {
            assert!(rt; !table.get(document, target).is_empty());
        }
        assert!(rt; table.get("c", "x").is_empty());
    }
    Ok(())
}
