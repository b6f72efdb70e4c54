//! An attribute that is read without a request, and a number that is not printed.

use cip_objects::{Config, ConfigFault, CounterConfig, Objects};
use std::alloc::Global;
use std::test::Fail;

/// A device with the name "Demo" and no assembly.
fn demo(alloc: Global) -> Result<Config, Fail> {
    Ok(Config {
        vendor: 0x1234,
        device_type: 43,
        product_code: 7,
        major: 2,
        minor: 5,
        serial: 0x0102_0304,
        name: String::from_str(alloc, "Demo")?,
        status: 0,
        state: 3,
        counter: CounterConfig {
            enabled: true,
            value: 0,
            limit: 100,
        },
        assemblies: Vec::new(alloc),
        objects: Vec::new(alloc),
    })
}

#[test]
fn attribute(rt: HostRuntime) -> Result<(), Fail> {
    let objects = Objects::new(rt.alloc(), &demo(rt.alloc())?)?;
    let name = objects.attribute(1, 1, 7).ok_or("no name")?;
    assert_eq!(rt; name.as_slice(), b"\x04Demo".as_slice());
    assert!(rt; objects.attribute(1, 1, 9).is_none());
    Ok(())
}

#[test]
fn number_of_no_memory(rt: HostRuntime) {
    assert_eq!(rt; ConfigFault::Memory.number(), 6);
}
