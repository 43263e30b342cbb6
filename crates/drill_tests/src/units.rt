//! Units played in turns on one thread, and the lines that they end with.

use drill_client::drill_plain;
use std::test::*;

// Sixteen commands of the number 0 leave five orders in unit 1; four are a clock, a buy of 175
// shares, a sale of 212, and an execution of 50 of the former. Of two hundred some are lost on both
// lines.
#[test]
fn a_unit_is_played_in_turns(rt: HostRuntime) -> Result<(), Fail> {
    let mut out = Vec::new(rt.alloc());
    for count in [16, 4, 200] {
        assert!(rt; count >= 1 && count <= 100_000);
        drill_plain(rt.alloc(), 0, 1, count, &mut out)?;
    }
    let lines = "unit 1 current 16 orders 5 shares 1078\n\
        unit 1 current 4 orders 2 shares 337\n\
        unit 1 current 200 orders 62 shares 18219\n";
    assert!(rt; out.as_slice() == lines.as_bytes());
    Ok(())
}
