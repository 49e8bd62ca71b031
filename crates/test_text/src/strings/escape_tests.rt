// Texts between quotes, and the bytes that each stands for.
use ir_text_strings::{extend_unescaped, has_escapes, unescaped, unescaped_len};
use std::process::Abort;
use std::test::Fail;

// Texts with an escape or a lone backslash, and what they stand for.
const ESCAPED: &[(&[u8], &[u8])] = &[
    (b"\\\\", b"\\"),
    (b"\\\"", b"\""),
    (b"\\n", b"\n"),
    (b"\\t", b"\t"),
    (b"a\\62", b"ab"),
    (b"\\5c", b"\\"),
    (b"\\5C", b"\\"),
    (b"a\\22", b"a\""),
    (b"\\00\\7f\\80\\fF", b"\x00\x7f\x80\xff"),
    (b"\\09\\0a\\1f\\a0\\F9", b"\x09\x0a\x1f\xa0\xf9"),
    // An escaped backslash begins no other escape.
    (b"\\\\62", b"\\62"),
    (b"\\\\\\62n", b"\\bn"),
    // Digits end after two.
    (b"\\626", b"b6"),
    // A backslash that begins no escape stands for itself.
    (b"\\", b"\\"),
    (b"\\6", b"\\6"),
    (b"\\6g", b"\\6g"),
    (b"\\g6", b"\\g6"),
    (b"\\6\\n", b"\\6\n"),
    (b"\\N\\r", b"\\N\\r"),
];

// Texts that stand for themselves.
const PLAIN: &[&[u8]] = &[b"", b"ab", b"62n\"", b"/5c"];

#[test]
fn texts_with_escapes(rt: HostRuntime) -> Result<(), Fail> {
    for (text, meaning) in ESCAPED {
        assert!(rt; has_escapes(*text));
        assert!(rt; unescaped_len(*text) == meaning.len());
        assert!(rt; unescaped(rt.alloc(), *text)?.as_slice() == *meaning);
    }
    Ok(())
}

#[test]
fn texts_without_escapes(rt: HostRuntime) -> Result<(), Fail> {
    for text in PLAIN {
        assert!(rt; !has_escapes(*text));
        assert!(rt; unescaped_len(*text) == text.len());
        assert!(rt; unescaped(rt.alloc(), *text)?.as_slice() == *text);
    }
    Ok(())
}

// One behind the other.
#[test]
fn texts_appended(rt: HostRuntime) -> Result<(), Fail> {
    let mut bytes = Vec::new(rt.alloc());
    extend_unescaped(&mut bytes, b"a\\62")?;
    extend_unescaped(&mut bytes, b"")?;
    extend_unescaped(&mut bytes, b"\\63d")?;
    assert!(rt; bytes.as_slice() == b"abcd".as_slice());
    Ok(())
}
