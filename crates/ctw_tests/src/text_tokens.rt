use ctw_lex::{LexFault, LexKind, LexPlace, TokenKind, TokenList, tokens, unescape};
use std::alloc::{AllocError, Global};
use std::test::Fail;

// Writes each token as its kind, start, end, line and text.
fn written(alloc: Global, list: &TokenList) -> Result<String, AllocError> {
    let mut out = String::new(alloc);
    for i in 0..list.count() {
        let t = list.at(i);
        out.push_str(&format!(in alloc;
            "{:?} {} {} {} {};",
            t.kind, t.start, t.end, t.line, t.text
        )?)?;
    }
    Ok(out)
}

#[test]
fn texts_have_these_tokens(rt: HostRuntime) -> Result<(), Fail> {
    let rows = [
        ("", ""),
        (" \t\r\n", ""),
        ("()", "Left 0 1 1 (;Right 1 2 1 );"),
        // every character of atoms
        (
            "azAZ09!#$%&'*+-./:<=>?@\\^_`|~",
            "Atom 0 29 1 azAZ09!#$%&'*+-./:<=>?@\\^_`|~;",
        ),
        // no blank is needed between tokens
        ("\"a\"\"b\"", "Text 0 3 1 \"a\";Text 3 6 1 \"b\";"),
        (
            "(a\"b\"c)",
            "Left 0 1 1 (;Atom 1 2 1 a;Text 2 5 1 \"b\";Atom 5 6 1 c;Right 6 7 1 );",
        ),
        // lines end at line feeds alone
        (
            "a\nb\r\nc\rd",
            "Atom 0 1 1 a;Atom 2 3 2 b;Atom 5 6 3 c;Atom 7 8 3 d;",
        ),
        // a comment to the line's end holds any character
        (
            "a;;(; \" \u{e9},\u{feff}\nb",
            "Atom 0 1 1 a;Atom 15 16 2 b;",
        ),
        (";;", ""),
        ("a;;b", "Atom 0 1 1 a;"),
        (";;;a\rb\nc", "Atom 7 8 2 c;"),
        // comments nest
        ("(;a(;b;)c;)d", "Atom 11 12 1 d;"),
        ("(;;)a", "Atom 4 5 1 a;"),
        ("(;;;)a", "Atom 5 6 1 a;"),
        ("(;(;;)a;)b", "Atom 9 10 1 b;"),
        // inside them only their own marks count
        ("(;;;\n\"\u{e9};)a", "Atom 10 11 2 a;"),
        ("(;((;;);;)a", "Atom 10 11 1 a;"),
        ("(;\n(;\n;)\n;)a\nb", "Atom 11 12 4 a;Atom 13 14 5 b;"),
        // a quote behind an escaped backslash closes the string, and one behind another backslash doesn't
        ("\"\\\\\"a", "Text 0 4 1 \"\\\\\";Atom 4 5 1 a;"),
        ("\"\\\"\"", "Text 0 4 1 \"\\\"\";"),
        ("\"\"", "Text 0 2 1 \"\";"),
        // what may stand in a string
        (
            "\" ~;;(;)\u{80}\u{10ffff}\"",
            "Text 0 15 1 \" ~;;(;)\u{80}\u{10ffff}\";",
        ),
        (
            "\"\\t\\n\\r\\\"\\'\\\\\\0f\\Fa\\u{00e9}\"",
            "Text 0 28 1 \"\\t\\n\\r\\\"\\'\\\\\\0f\\Fa\\u{00e9}\";",
        ),
        (
            "(; x ;)(\n ;; y\n $f)",
            "Left 7 8 1 (;Atom 16 18 3 $f;Right 18 19 3 );",
        ),
    ];
    for (text, want) in rows {
        assert!(rt; text.len() < 1000);
        let list = tokens(rt.alloc(), text)?;
        assert!(rt;
            written(rt.alloc(), &list)?.as_str() == want,
            "tokens of {text}"
        );
    }
    Ok(())
}

#[test]
fn texts_have_these_first_faults(rt: HostRuntime) -> Result<(), Fail> {
    use LexKind::{BadChar, BadEscape, OpenComment, OpenString};
    let rows = [
        // characters that stand in no token
        (",", BadChar, 0, 1),
        ("a[", BadChar, 1, 1),
        ("{", BadChar, 0, 1),
        ("a;b", BadChar, 1, 1),
        (";", BadChar, 0, 1),
        ("(;;);)", BadChar, 4, 1),
        ("\n\u{0}", BadChar, 1, 2),
        ("\u{b}", BadChar, 0, 1),
        ("a\u{7f}", BadChar, 1, 1),
        ("a\u{e9}", BadChar, 1, 1),
        ("\u{feff}a", BadChar, 0, 1),
        ("\u{661}", BadChar, 0, 1),
        // and in no string
        ("\n\"a\u{1f}\"", BadChar, 3, 2),
        ("\"a\nb\"", BadChar, 2, 1),
        ("\"\t\"", BadChar, 1, 1),
        ("\"\u{7f}\"", BadChar, 1, 1),
        // a string that is open to the end, also over lines and behind escapes
        ("a \"b", OpenString, 2, 1),
        ("\"\\q\u{1}", OpenString, 0, 1),
        ("\n\"a\nb\n\\\"", OpenString, 1, 2),
        ("\"\\\"", OpenString, 0, 1),
        ("\"\"\"", OpenString, 2, 1),
        // comments that are open to the end: the outermost is told
        ("(;", OpenComment, 0, 1),
        ("(;)", OpenComment, 0, 1),
        ("a\n(;\n(;;)", OpenComment, 2, 2),
        ("(;(;;)", OpenComment, 0, 1),
        ("(;(;", OpenComment, 0, 1),
        // escapes
        ("\"a\\q\"", BadEscape, 2, 1),
        ("\"\\4\"", BadEscape, 1, 1),
        ("\"\\4g\"", BadEscape, 1, 1),
        ("\"\\T\"", BadEscape, 1, 1),
        ("\"\\u\"", BadEscape, 1, 1),
        ("\"\\u41\"", BadEscape, 1, 1),
        ("\"\\u{}\"", BadEscape, 1, 1),
        ("\"\\u{41\"", BadEscape, 1, 1),
        ("\"\\u{4_1}\"", BadEscape, 1, 1),
        ("\"\\u{4g}\"", BadEscape, 1, 1),
        ("\"\\u{d800}\"", BadEscape, 1, 1),
        ("\"\\u{DFFF}\"", BadEscape, 1, 1),
        ("\"\\u{110000}\"", BadEscape, 1, 1),
        ("\"\\u{100000041}\"", BadEscape, 1, 1),
        ("\"\\u{10000000000000041}\"", BadEscape, 1, 1),
        ("\"\\t\\\n\"", BadEscape, 3, 1),
        ("\"\\\u{e9}\"", BadEscape, 1, 1),
        // the first fault counts, and within a string the first byte
        ("\"\u{1}\\q\" ,", BadChar, 1, 1),
        ("\"\\q\u{1}\" (;", BadEscape, 1, 1),
        (", \"", BadChar, 0, 1),
        ("(; \" ,", OpenComment, 0, 1),
        ("\"a\" ,", BadChar, 4, 1),
    ];
    for (text, kind, start, line) in rows {
        assert!(rt; text.len() < 1000);
        match tokens(rt.alloc(), text) {
            Ok(_) => assert!(rt; false, "tokens of {text}"),
            Err(fault) => assert!(rt;
                fault == LexFault::Bad(LexPlace { kind, start, line }),
                "fault of {text}"
            ),
        }
    }
    Ok(())
}

#[test]
fn strings_stand_for_these_bytes(rt: HostRuntime) -> Result<(), Fail> {
    let rows: [(&str, &[u8]); 12] = [
        ("\"\"", b""),
        ("\"a b\"", b"a b"),
        ("\"\\t\\n\\r\\\"\\'\\\\\"", b"\x09\x0a\x0d\x22\x27\x5c"),
        ("\"\\00\\fF\\7f\\4a\"", b"\x00\xff\x7f\x4a"),
        ("\"\\c3\\a9\"", b"\xc3\xa9"),
        ("\"\u{e9}\u{20ac}\"", b"\xc3\xa9\xe2\x82\xac"),
        ("\"\\u{0}\\u{41}\\u{7f}\"", b"\x00A\x7f"),
        (
            "\"\\u{e9}\\u{20AC}\\u{1f600}\"",
            b"\xc3\xa9\xe2\x82\xac\xf0\x9f\x98\x80",
        ),
        ("\"\\u{000000000000000000041}1\"", b"A1"),
        (
            "\"\\u{d7ff}\\u{e000}\\u{10FFFF}\"",
            b"\xed\x9f\xbf\xee\x80\x80\xf4\x8f\xbf\xbf",
        ),
        ("\"\\411\\\\n\\\"\"", b"A1\\n\""),
        ("\"\\ab\\bC\\5c\\22\"", b"\xab\xbc\x5c\x22"),
    ];
    for (text, want) in rows {
        assert!(rt; text.len() < 1000);
        let list = tokens(rt.alloc(), text)?;
        assert!(rt; list.count() == 1, "tokens of {text}");
        let t = list.at(0);
        assert!(rt; t.kind == TokenKind::Text, "kind of {text}");
        let bytes = unescape(rt.alloc(), t)?;
        assert!(rt; bytes.as_slice() == want, "bytes of {text}");
    }
    Ok(())
}
