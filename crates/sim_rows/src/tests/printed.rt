//! Printed lines.

use sim_lines::{add_cycle_line, add_end_lines};
use std::test::Fail;

#[test]
fn printed_lines(rt: HostRuntime) -> Result<(), Fail> {
    let mut text = Vec::new(rt.alloc());
    add_cycle_line(&mut text, 0, 4, 2)?;
    add_cycle_line(&mut text, u64::MAX, u32::MAX, 0)?;
    add_end_lines(&mut text, 6, 16)?;
    assert_eq!(rt;
        text.as_slice(),
        b"cycle 0 fired 4 held 2\ncycle 18446744073709551615 fired 4294967295 held 0\ncycles 6\nstorage 16\n".as_slice()
    );
    Ok(())
}
