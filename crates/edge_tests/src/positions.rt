use ob_text::{Cursor, Position, Range, Span, position_of};

/// A text, an offset in it, and the line and the character there.
const OFFSETS: [(&str, u32, u32, u32); 19] = [
    ("", 0, 0, 0),
    ("ab", 2, 0, 2),
    // The example of the Language Server Protocol 3.17, section Position.
    ("a\u{10400}b", 1, 0, 1),
    ("a\u{10400}b", 5, 0, 3),
    ("a\u{10400}b", 6, 0, 4),
    ("\u{e9}\u{20ac}x", 2, 0, 1),
    ("\u{e9}\u{20ac}x", 5, 0, 2),
    ("\u{feff}x", 3, 0, 1),
    ("a\nb", 1, 0, 1),
    ("a\nb", 2, 1, 0),
    ("a\rb", 2, 1, 0),
    ("a\r\nb", 2, 0, 2),
    ("a\r\nb", 3, 1, 0),
    ("a\r\nb", 4, 1, 1),
    ("\r\r\n\n", 1, 1, 0),
    ("\r\r\n\n", 2, 1, 1),
    ("\r\r\n\n", 3, 2, 0),
    ("\r\r\n\n", 4, 3, 0),
    ("a\r", 2, 1, 0),
];

#[test]
fn counts_lines_and_units(rt: HostRuntime) {
    for &(text, offset, line, character) in &OFFSETS {
        assert!(rt; offset as usize <= text.len());
        let position = position_of(text.as_bytes(), offset);
        assert_eq!(rt;
            position,
            Position { line, character },
            "{text:?} at {offset}"
        );
    }
}

#[test]
fn finds_ranges_in_order(rt: HostRuntime) {
    let mut cursor = Cursor::new(b"a\nbc d");
    let outer = cursor.range_of(Span { start: 0, end: 6 });
    assert_eq!(rt;
        outer.start,
        Position {
            line: 0,
            character: 0
        }
    );
    assert_eq!(rt;
        outer.end,
        Position {
            line: 1,
            character: 4
        }
    );
    let inner = cursor.range_of(Span { start: 2, end: 4 });
    assert_eq!(rt;
        inner.start,
        Position {
            line: 1,
            character: 0
        }
    );
    assert_eq!(rt;
        inner.end,
        Position {
            line: 1,
            character: 2
        }
    );
}
