//! The header as 24 bytes. The answers of the program have no options and few statuses, so they do not show this.

use enip_wire::Header;
use std::test::*;

/// No two bytes are the same, so a field at a wrong offset, of a wrong width or in a wrong order is found.
#[test]
fn each_field_at_its_place(rt: HostRuntime) {
    let header = Header {
        command: 0x0201,
        length: 0x0403,
        session: 0x0807_0605,
        status: 0x0c0b_0a09,
        context: *b"\x11\x12\x13\x14\x15\x16\x17\x18",
        options: 0x2423_2221,
    };
    let bytes = *b"\x01\x02\x03\x04\x05\x06\x07\x08\x09\x0a\x0b\x0c\
        \x11\x12\x13\x14\x15\x16\x17\x18\x21\x22\x23\x24";
    assert_eq!(rt; header.write(), bytes);
}
