//! A list made from a vector, and given back.
use super::Listed;
use std::test::Fail;

#[test]
fn gives_its_items_back(rt: HostRuntime) -> Result<(), Fail> {
    let list = Listed::new(vec![in rt.alloc(); 3, 1, 2]?);
    assert_eq!(rt; list.as_slice(), [3, 1, 2].as_slice());
    assert_eq!(rt; list.into_vec(), vec![in rt.alloc(); 3, 1, 2]?);
    Ok(())
}
