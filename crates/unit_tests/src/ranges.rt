//! A test of `rl_ranges`: the code points that two sets have in common.

use rl_lists::OutOfMemory;
use rl_ranges::CodeSet;

/// Tests the intersection of `[3-9]` and `[8-20]`.
#[test]
fn a_meet_holds_what_both_do(rt: HostRuntime) -> Result<(), OutOfMemory> {
    let low = CodeSet::range(rt.alloc(), 3, 9)?;
    let high = CodeSet::range(rt.alloc(), 8, 20)?;
    let meet = low.meet(&high)?;
    for code in 0..30 {
        assert!(rt; meet.contains(code) == (code == 8 || code == 9), "{code}");
    }
    Ok(())
}
