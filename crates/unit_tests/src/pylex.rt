//! Tests of `rl_pylex`: sources that a quick look shows to lack a name, and others. If a quick look shows nothing, its answer
//! is still right, but slow, because all tokens are read then.

use rl_pylex::lacks_name;
use std::alloc::{AllocError, Global};
use std::test::Fail;

/// Sources, and whether they lack the name `re`.
static SOURCES: [(&str, bool); 20] = [
    ("", true),
    ("x = [1.5e3, (2)] @ y\r\n", true),
    ("\u{FEFF}x = r\n", true),
    ("# re\nx = 1 # re\n#re", true),
    ("x = 're' + \"re\" + 'a\\'re'\n", true),
    ("'''re 're'\nre''' + \"\"\"\nre\n\"\"\"", true),
    ("f'{re}' + F\"\"\"{re.x}\n\"\"\"", true),
    (
        "before = red + core.re_x + r2 + are + re9 + \u{E9}re + re\u{E9} + 1re",
        true,
    ),
    ("rb\"re\" + R're' + br'''re\n'''", true),
    ("x = \\\nr \\\r\ne", true),
    ("re", false),
    ("import re\n", false),
    ("x.re", false),
    ("(re)", false),
    ("'a're", false),
    ("re'a'", false),
    ("#\nre#", false),
    ("x \\\nre", false),
    ("r re", false),
    ("rre.re", false),
];

/// Tests the sources, and two with another name.
#[test]
fn names_at_a_quick_look(rt: HostRuntime) {
    for (source, wanted) in &SOURCES {
        assert!(rt; lacks_name(source.as_bytes(), b"re") == *wanted, "{source}");
    }
    assert!(rt; lacks_name(b"import re\n", b"regex") && !lacks_name(b"import regex\n", b"regex"));
}

/// Pieces to be put between other letters, and whether a quick look shows that the source lacks the name. It doesn't for
/// pieces with the name or with a fault.
static PIECES: [(&str, bool); 30] = [
    (" return ", true),
    (" are ", true),
    (" re_ ", true),
    (" re9 ", true),
    (" \u{E9}re ", true),
    (" re\u{E9} ", true),
    (" r e ", true),
    ("'re'", true),
    ("\"a re\\\"re\"", true),
    ("'''\nre'''", true),
    ("# re ", true),
    ("\\\n", true),
    ("\r\n\t\u{c}%&", true),
    (" re ", false),
    ("(re)", false),
    (".re\n", false),
    ("\tre=", false),
    ("\u{c}re;", false),
    ("\"a\"re#", false),
    (" return re ", false),
    ("?", false),
    ("$", false),
    ("`", false),
    ("\\ ", false),
    ("'", false),
    ("\"\n", false),
    ("\u{0}", false),
    ("\u{b}", false),
    ("\u{1f}", false),
    ("\u{7f}", false),
];

/// Returns a piece with `before` letters `x` before it and `behind` letters `x` after it.
fn between(
    alloc: Global,
    before: usize,
    piece: &str,
    behind: usize,
) -> Result<Vec<u8>, AllocError> {
    let mut source = vec![in alloc; b'x'; before]?;
    source.extend_from_slice(piece.as_bytes())?;
    for _one in 0..behind {
        source.push(b'x')?;
    }
    Ok(source)
}

/// Returns the number of letters `x` before the piece with which the answer was wrong, if there is one.
fn wrong_at(
    alloc: Global,
    piece: &str,
    behind: usize,
    wanted: bool,
) -> Result<Option<usize>, AllocError> {
    for before in 0..36 {
        let source = between(alloc, before, piece, behind)?;
        if lacks_name(source.as_slice(), b"re") != wanted {
            return Ok(Some(before));
        }
    }
    Ok(None)
}

/// Tests a piece at each place of a block, and across two blocks.
#[test]
fn pieces_in_blocks(rt: HostRuntime) -> Result<(), Fail> {
    for behind in [0, 3, 17, 33] {
        for (piece, wanted) in &PIECES {
            let wrong = wrong_at(rt.alloc(), piece, behind, *wanted)?;
            assert!(rt;
                wrong.is_none(),
                "{piece:?} at {wrong:?}, with {behind} behind"
            );
        }
    }
    Ok(())
}
