//! The field's operations at worked elements.
use gz_field::{add, inv, mul, products_with_high, products_with_low};

fn products() -> [u8; 6] {
    [
        mul(2, 0x80),
        mul(3, 2),
        mul(2, 0x8e),
        mul(0x80, 0x80),
        mul(0, 7),
        mul(1, 0xff),
    ]
}

/// The products of 0x80 with the elements whose high half is 0.
const LOW: [u8; 16] = [
    0, 0x80, 0x1d, 0x9d, 0x3a, 0xba, 0x27, 0xa7, 0x74, 0xf4, 0x69, 0xe9, 0x4e, 0xce, 0x53, 0xd3,
];

/// The products of 2 with the elements whose low half is 0.
const HIGH: [u8; 16] = [
    0, 0x20, 0x40, 0x60, 0x80, 0xa0, 0xc0, 0xe0, 0x1d, 0x3d, 0x5d, 0x7d, 0x9d, 0xbd, 0xdd, 0xfd,
];

#[test]
fn sums_products_and_inverses(rt: HostRuntime) {
    assert!(rt; add(0x53, 0xca) == 0x99);
    assert!(rt; products() == [0x1d, 6, 1, 0x13, 0, 0xff]);
    assert!(rt; [inv(1), inv(2)] == [1, 0x8e]);
    assert!(rt; products_with_low(0x80) == LOW.as_slice());
    assert!(rt; products_with_high(2) == HIGH.as_slice());
}
