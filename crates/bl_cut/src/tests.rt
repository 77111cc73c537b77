//! Lists without cuts. What has a cut is tested where cuts are proved.

use super::*;
use std::test::Fail;

#[test]
fn a_list_without_cuts(rt: HostRuntime) -> Result<(), Fail> {
    let alloc = rt.alloc();
    let none = Cuts::none(alloc)?;
    let copy = none.copy()?;
    assert_eq!(rt; copy.count(), 0);
    assert!(rt; copy.at(0).is_none());
    Ok(())
}
