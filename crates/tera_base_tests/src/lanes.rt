//! Lanes of bytes.

use std::test::Fail;
use tera_base::lanes::first_set;

#[test]
fn the_first_lane_that_is_set(rt: HostRuntime) -> Result<(), Fail> {
    assert!(rt; first_set(0b1010_0000, 16) == 5);
    assert!(rt; first_set(0, 16) == 16);
    Ok(())
}
