//! Numbers appended to a buffer.

use arrayvec::ArrayVec;
use cip_bytes::{append, append_u8, append_u16, append_u32};
use std::test::*;

#[test]
fn least_byte_first(rt: HostRuntime) {
    let mut out: ArrayVec<u8, 9> = ArrayVec::new();
    append_u8(&mut out, 0x01);
    append_u16(&mut out, 0x0302);
    append_u32(&mut out, 0x0706_0504);
    append(&mut out, &[8, 9]);
    assert_eq!(rt; out.as_slice(), [1, 2, 3, 4, 5, 6, 7, 8, 9].as_slice());
}
