//! The lines of the device.

use cip_values::ValueType;
use enip_owner::{
    AttributeRef, ChangedEvent, CommandEvent, DescribedAttribute, DescribedObject, EndedEvent,
    EventFault, HelloEvent, LINE_LIMIT, ValueEvent, write_changed, write_command, write_ended,
    write_error, write_hello, write_ok, write_value,
};
use std::alloc::Global;
use std::net::{IpAddr, Ipv4Addr, Ipv6Addr};
use std::test::Fail;

/// The address of a peer.
fn peer() -> IpAddr {
    IpAddr::V4(Ipv4Addr::new(10, 0, 0, 5))
}

/// A line as text, or why it is not written.
fn told(alloc: Global, written: Result<Vec<u8>, EventFault>) -> Result<String, Fail> {
    match written {
        Ok(line) => Ok(String::from_utf8_lossy(alloc, line.as_slice())?),
        Err(fault) => Ok(format!(in alloc; "{fault}")?),
    }
}

#[test]
fn commands(rt: HostRuntime) -> Result<(), Fail> {
    let command = CommandEvent {
        ticket: 7,
        class: 768,
        instance: 1,
        service: 50,
        data: &[5, 0, 0, 0],
        by: Some(peer()),
        again: false,
    };
    let line = told(rt.alloc(), write_command(rt.alloc(), &command))?;
    assert_eq!(rt;
        line.as_str(),
        "{\"command\":{\"ticket\":7,\"class\":768,\"instance\":1,\"service\":50,\"data\":\"05000000\",\
         \"by\":\"10.0.0.5\",\"again\":false}}\n"
    );
    let restarted = CommandEvent {
        ticket: u32::MAX,
        instance: u32::MAX,
        data: &[],
        by: None,
        again: true,
        ..command
    };
    let line = told(rt.alloc(), write_command(rt.alloc(), &restarted))?;
    assert_eq!(rt;
        line.as_str(),
        "{\"command\":{\"ticket\":4294967295,\"class\":768,\"instance\":4294967295,\"service\":50,\"data\":\"\",\
         \"again\":true}}\n"
    );
    let far = CommandEvent {
        by: Some(IpAddr::V6(Ipv6Addr::new(0xfd00, 0, 0, 0, 0, 0, 0, 5))),
        ..command
    };
    let line = told(rt.alloc(), write_command(rt.alloc(), &far))?;
    assert!(rt;
        line.as_str().contains("\"by\":\"fd00::5\",\"again\""),
        "{}",
        line.as_str()
    );
    Ok(())
}

/// Types of attributes, the bytes of a value, and the `values` of the line. Nothing if there are none.
static SHOWN: [(&str, &[u8], &str); 19] = [
    ("UINT", &[0xdc, 5], ",\"values\":[1500]"),
    ("UINT[]", &[1, 0, 2, 0], ",\"values\":[1,2]"),
    ("UINT[]", &[], ",\"values\":[]"),
    ("UINT", &[1], ""),
    ("UINT", &[1, 0, 2], ""),
    ("", &[0xdc, 5], ""),
    ("DINT", &[0xfe, 0xff, 0xff, 0xff], ",\"values\":[-2]"),
    ("DINT", &[0, 0, 0, 0x80], ",\"values\":[-2147483648]"),
    (
        "LINT",
        &[0, 0, 0, 0, 0, 0, 0, 0x80],
        ",\"values\":[-9223372036854775808]",
    ),
    ("ULINT", &[0xff; 8], ",\"values\":[18446744073709551615]"),
    ("WORD", &[0x34, 0x12], ",\"values\":[4660]"),
    ("BOOL", &[1], ",\"values\":[true]"),
    ("BOOL", &[0], ",\"values\":[false]"),
    ("BOOL", &[2], ""),
    ("REAL", &[0, 0, 0xc0, 0x3f], ",\"values\":[1.5]"),
    ("REAL", &[0, 0, 0x80, 0x7f], ",\"values\":[\"inf\"]"),
    ("SHORT_STRING", &[2, b'h', b'i'], ",\"values\":[\"hi\"]"),
    (
        "SHORT_STRING",
        &[4, b'"', b'\\', b'\n', 0xe9],
        ",\"values\":[\"\\\"\\\\\\n\u{e9}\"]",
    ),
    ("TIME", &[0xdc, 5, 0, 0], ",\"values\":[1500]"),
];

/// Sets and values, with the values of their bytes.
#[test]
fn changed_and_values(rt: HostRuntime) -> Result<(), Fail> {
    let attribute = AttributeRef {
        class: 4,
        instance: 101,
        attribute: 3,
    };
    let head = "\"class\":4,\"instance\":101,\"attribute\":3,\"data\":";
    for (name, data, values) in &SHOWN {
        let value_type = ValueType::from_name(name);
        let digits = hex::encode(rt.alloc(), *data)?;
        let changed = ChangedEvent {
            attribute,
            value_type,
            data,
            by: peer(),
        };
        let line = told(rt.alloc(), write_changed(rt.alloc(), &changed))?;
        let wanted = format!(in rt.alloc();
            "{{\"changed\":{{{head}\"{digits}\"{values},\"by\":\"10.0.0.5\"}}}}\n"
        )?;
        assert_eq!(rt; line.as_str(), wanted.as_str());
        let value = ValueEvent {
            attribute,
            value_type,
            data,
        };
        let line = told(rt.alloc(), write_value(rt.alloc(), &value))?;
        let wanted = format!(in rt.alloc(); "{{\"value\":{{{head}\"{digits}\"{values}}}}}\n")?;
        assert_eq!(rt; line.as_str(), wanted.as_str());
    }
    Ok(())
}

#[test]
fn ended_and_answers(rt: HostRuntime) -> Result<(), Fail> {
    let ended = EndedEvent {
        connection: 17,
        reason: "timed out",
    };
    let line = told(rt.alloc(), write_ended(rt.alloc(), &ended))?;
    assert_eq!(rt;
        line.as_str(),
        "{\"ended\":{\"connection\":17,\"reason\":\"timed out\"}}\n"
    );
    let line = told(rt.alloc(), write_ok(rt.alloc(), 12))?;
    assert_eq!(rt; line.as_str(), "{\"ok\":12}\n");
    let line = told(rt.alloc(), write_error(rt.alloc(), u64::MAX, "a \"b\"\nc"))?;
    assert_eq!(rt;
        line.as_str(),
        "{\"error\":18446744073709551615,\"text\":\"a \\\"b\\\"\\nc\"}\n"
    );
    Ok(())
}

/// A line has up to 64 KiB before its newline.
#[test]
fn longest_line(rt: HostRuntime) -> Result<(), Fail> {
    // What the line has besides the text.
    let around = "{\"error\":1,\"text\":\"\"}".len();
    let mut text = String::new(rt.alloc());
    for _ in 0..LINE_LIMIT - around {
        text.push_str("x")?;
    }
    let longest = write_error(rt.alloc(), 1, text.as_str())?;
    assert_eq!(rt; longest.len(), LINE_LIMIT + 1);
    text.push_str("x")?;
    assert!(rt; write_error(rt.alloc(), 1, text.as_str()).err() == Some(EventFault::TooLong));
    Ok(())
}

#[test]
fn hello(rt: HostRuntime) -> Result<(), Fail> {
    let speed = DescribedAttribute {
        attribute: 3,
        name: Some("speed"),
        type_name: "UINT",
        data: &[0xdc, 5],
    };
    let label = DescribedAttribute {
        attribute: 4,
        name: None,
        type_name: "SHORT_STRING[32]",
        data: &[0],
    };
    let conveyor = DescribedObject {
        class: 768,
        instance: 1,
        name: Some("conveyor"),
        attributes: &[speed, label],
    };
    let lamp = DescribedObject {
        class: 769,
        instance: 2,
        name: None,
        attributes: &[],
    };
    let device = HelloEvent {
        vendor: 1,
        product_code: 7,
        serial: 42,
        name: "Demo",
        life: Some(1_700_000_000_000_000),
        ahead: 256,
        objects: &[conveyor, lamp],
    };
    let line = told(rt.alloc(), write_hello(rt.alloc(), &device))?;
    assert_eq!(rt;
        line.as_str(),
        "{\"hello\":{\"vendor\":1,\"product_code\":7,\"serial\":42,\"name\":\"Demo\",\
         \"life\":1700000000000000,\"ahead\":256,\"objects\":[\
         {\"class\":768,\"instance\":1,\"name\":\"conveyor\",\"attributes\":[\
         {\"attribute\":3,\"name\":\"speed\",\"type\":\"UINT\",\"data\":\"dc05\"},\
         {\"attribute\":4,\"type\":\"SHORT_STRING[32]\",\"data\":\"00\"}]},\
         {\"class\":769,\"instance\":2,\"attributes\":[]}]}}\n"
    );
    let bare = HelloEvent {
        life: None,
        objects: &[],
        ..device
    };
    let line = told(rt.alloc(), write_hello(rt.alloc(), &bare))?;
    assert_eq!(rt;
        line.as_str(),
        "{\"hello\":{\"vendor\":1,\"product_code\":7,\"serial\":42,\"name\":\"Demo\",\"ahead\":256,\"objects\":[]}}\n"
    );
    Ok(())
}

/// A device with this many attributes of this many bytes.
fn large_hello(alloc: Global, attributes: usize, bytes: usize) -> Result<String, Fail> {
    let data = vec![in alloc; 0xa5; bytes]?;
    let attribute = DescribedAttribute {
        attribute: 1,
        name: None,
        type_name: "BYTES[500]",
        data: data.as_slice(),
    };
    let mut all = Vec::new(alloc);
    for _ in 0..attributes {
        all.push(attribute)?;
    }
    let object = DescribedObject {
        class: 768,
        instance: 1,
        name: None,
        attributes: all.as_slice(),
    };
    let device = HelloEvent {
        vendor: 1,
        product_code: 7,
        serial: 42,
        name: "Demo",
        life: None,
        ahead: 1,
        objects: &[object],
    };
    told(alloc, write_hello(alloc, &device))
}

/// Without data if they do not fit, and without attributes if even those do not fit.
#[test]
fn large_devices(rt: HostRuntime) -> Result<(), Fail> {
    let with_data = large_hello(rt.alloc(), 60, 500)?;
    assert!(rt; with_data.as_str().contains("\"data\":\"a5"));
    let without_data = large_hello(rt.alloc(), 70, 500)?;
    assert!(rt; !without_data.as_str().contains("data"));
    assert!(rt;
        without_data
            .as_str()
            .contains("{\"attribute\":1,\"type\":\"BYTES[500]\"}")
    );
    let without_attributes = large_hello(rt.alloc(), 2000, 500)?;
    assert_eq!(rt;
        without_attributes.as_str(),
        "{\"hello\":{\"vendor\":1,\"product_code\":7,\"serial\":42,\"name\":\"Demo\",\"ahead\":1,\"objects\":[\
         {\"class\":768,\"instance\":1}]}}\n"
    );
    Ok(())
}
