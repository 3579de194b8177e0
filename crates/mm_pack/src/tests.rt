// That tables can be packed, and what of them is kept.

use crate::packing::pack;
use std::test::Fail;

#[test]
fn equal_rows_and_columns_are_kept_once(rt: HostRuntime) -> Result<(), Fail> {
    let packed = pack(rt.alloc(), &[2, 3], &[1, 1, 2, 1, 1, 2])?;
    assert_eq!(rt; packed.shape(), [1, 2].as_slice());
    assert_eq!(rt; packed.kept(), [1, 2].as_slice());
    assert_eq!(rt; packed.at(&[1, 1]), 1);
    assert_eq!(rt; packed.at(&[0, 2]), 2);
    Ok(())
}

#[test]
fn four_axes_keep_their_order(rt: HostRuntime) -> Result<(), Fail> {
    let cells = [7, 7, 8, 8, 9, 9, 9, 9, 7, 7, 8, 8, 9, 9, 9, 9];
    let packed = pack(rt.alloc(), &[2, 2, 2, 2], &cells)?;
    assert_eq!(rt; packed.shape(), [1, 2, 2, 1].as_slice());
    assert_eq!(rt; packed.kept(), [7, 8, 9, 9].as_slice());
    assert_eq!(rt; packed.at(&[1, 0, 1, 0]), 8);
    assert_eq!(rt; packed.slot(1, 1), 1);
    Ok(())
}
