//! Texts with their lines or their first fault, worked out by hand.
use crate::{Line, LineError, LineFault, Lines};
use std::alloc::Global;
use std::process::Abort;
use std::test::Fail;

// A text, each of its lines with a word as its number and its words, and its fault.
#[derive(Drop)]
struct Case<'a> {
    text: &'a [u8],
    lines: &'a str,
    fault: Option<LineError>,
}

fn show(alloc: Global, all: &mut String, line: Option<Line>) -> Result<(), Fail> {
    let Some(line) = line else {
        return Ok(());
    };
    all.push_str(&format!(in alloc; "{}", line.number())?)?;
    for i in 0..line.count() {
        all.push_str(" ")?;
        all.push_str(str::from_utf8(line.word(i + 1))?)?;
    }
    all.push_str("\n")?;
    Ok(())
}

// Gives bytes one by one where the size is 0, and else slices of this size.
fn feed(
    alloc: Global,
    lines: &mut Lines,
    text: &[u8],
    size: usize,
    all: &mut String,
) -> Result<Option<LineError>, Fail> {
    let mut start = 0;
    for byte in text {
        if size == 0 {
            match lines.push(*byte) {
                Ok(line) => show(alloc, all, line)?,
                Err(fault) => return Ok(Some(fault)),
            }
        } else if start < text.len() {
            let end = start.saturating_add(size).min(text.len());
            match lines.take(&text[start..end]) {
                Ok((count, line)) => {
                    show(alloc, all, line)?;
                    start = start.saturating_add(count);
                }
                Err(fault) => return Ok(Some(fault)),
            }
        }
    }
    Ok(None)
}

// However the bytes come, the lines are the same; a fault is answered again by each call.
fn check(rt: &impl Abort, alloc: Global, case: &Case<'_>) -> Result<(), Fail> {
    for size in [0usize, 1, 3, case.text.len().max(1)] {
        let mut lines = Lines::new(alloc);
        let mut all = String::new(alloc);
        let found = feed(alloc, &mut lines, case.text, size, &mut all)?;
        assert!(rt; found == case.fault, "{found:?}, wanted {:?}", case.fault);
        if let Some(fault) = found {
            assert!(rt; matches!(lines.push(b'\n'), Err(again) if again == fault));
            assert!(rt; matches!(lines.take(b""), Err(again) if again == fault));
            assert!(rt; matches!(lines.take(b"a\n"), Err(again) if again == fault));
        }
        match lines.finish() {
            Ok(line) => {
                show(alloc, &mut all, line)?;
                assert!(rt; case.fault.is_none(), "no {:?} at {size}", case.fault);
            }
            Err(fault) => assert!(rt; Some(fault) == case.fault, "{fault:?} at {size}"),
        }
        assert!(rt;
            all.as_str() == case.lines,
            "{:?}, wanted {:?} at {size}",
            all.as_str(),
            case.lines
        );
    }
    Ok(())
}

fn not_ascii(line: u32, column: u32) -> Option<LineError> {
    Some(LineError::Fault(LineFault::NotAscii { line, column }))
}

#[test]
fn each_text_has_its_lines_or_its_fault(rt: HostRuntime) -> Result<(), Fail> {
    let alloc = rt.alloc();
    let cases: [(&[u8], &str, Option<LineError>); 20] = [
        (b"", "", None),
        (b"\n\n", "", None),
        (b" a \t b\n\nc\td", "1 a b\n3 c d\n", None),
        (b"\t \n a\n", "2 a\n", None),
        // comments
        (b"// a\nb // c // d\n//", "2 b\n", None),
        (b"a//b\n/ c / d/", "1 a\n2 / c / d/\n", None),
        (b"///\n/", "2 /\n", None),
        (b"a // \x00\xb5\r \x7f\nb", "1 a\n2 b\n", None),
        // a CR at a line's end, and elsewhere
        (b"a\r\nb \r\n\r\nc\r", "1 a\n2 b\n4 c\n", None),
        (b"a/\r/\n", "", not_ascii(1, 3)),
        (b"a\rb", "", not_ascii(1, 2)),
        (b"a\nb\r\r\n", "1 a\n", not_ascii(2, 2)),
        (b"\r//", "", not_ascii(1, 1)),
        // bytes that aren't allowed
        (b"~!\n\x7f", "1 ~!\n", not_ascii(2, 1)),
        (b"a b\n \xc2\xb5 // c\n", "1 a b\n", not_ascii(2, 2)),
        (b"a\x00", "", not_ascii(1, 2)),
        (b"\x1f", "", not_ascii(1, 1)),
        (b"a\x0bb", "", not_ascii(1, 2)),
        (b"/\xff/\n", "", not_ascii(1, 2)),
        (b"a /\n/\x80", "1 a /\n", not_ascii(2, 2)),
    ];
    for (text, lines, fault) in cases {
        check(&rt, alloc, &Case { text, lines, fault })?;
    }
    Ok(())
}

#[test]
fn a_line_has_at_most_65536_bytes(rt: HostRuntime) -> Result<(), Fail> {
    let alloc = rt.alloc();
    let long = Some(LineError::Fault(LineFault::LongLine { line: 2 }));
    // the byte of which the line is made, how many of them, what comes after, and the fault
    let cases: [(u8, usize, &[u8], Option<LineError>); 9] = [
        (b' ', 65536, b"\nb", None),
        (b' ', 65537, b"\nb", long),
        (b' ', 65535, b"\r\nb", None),
        (b' ', 65536, b"\r\nb", long),
        (b'/', 65536, b"\nb", None),
        (b'/', 65537, b"\nb", long),
        (b'/', 65537, b"", long),
        (b' ', 65535, b"\x80", not_ascii(2, 65536)),
        (b' ', 65536, b"\x80", long),
    ];
    for (byte, count, after, fault) in cases {
        let mut text = Vec::from_slice(alloc, b"a\n")?;
        text.extend_from_slice(&vec![in alloc; byte; count]?)?;
        text.extend_from_slice(after)?;
        let lines = if fault.is_none() {
            "1 a\n3 b\n"
        } else {
            "1 a\n"
        };
        let case = Case {
            text: &text,
            lines,
            fault,
        };
        check(&rt, alloc, &case)?;
    }
    Ok(())
}

#[test]
fn a_line_of_one_word_fills_it(rt: HostRuntime) -> Result<(), Fail> {
    let alloc = rt.alloc();
    let text = vec![in alloc; b'x'; 65536]?;
    let mut lines = Lines::new(alloc);
    let (count, line) = lines.take(&text)?;
    assert!(rt; count == 65536 && line.is_none());
    assert!(rt; matches!(&lines.push(b'\n'), Ok(Some(line)) if line.count() == 1));
    Ok(())
}
