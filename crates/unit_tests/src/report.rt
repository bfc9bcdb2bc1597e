//! A test of `rl_report`: the place of a byte in a source, counted from the beginning.

use rl_report::{Place, place_of};

/// Tests that a byte order mark isn't a column, and that each line end and each character counts once.
#[test]
fn the_place_of_a_byte(rt: HostRuntime) {
    let found = place_of(b"\xEF\xBB\xBFa\r\nb\xC3\xA9c\rd", 9);
    assert!(rt; found == Place { line: 2, column: 3 });
}
