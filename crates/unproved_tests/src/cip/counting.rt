//! Objects whose counter shows how many requests were executed.

use cip_objects::{Config, CounterConfig, Objects};
use std::alloc::Global;
use std::test::Fail;

/// Service 0x32 of class 0x64, instance 1, with the number 1. The reply to the n-th has the number n.
pub const ADD_ONE: [u8; 10] = [0x32, 0x02, 0x20, 0x64, 0x24, 0x01, 0x01, 0x00, 0x00, 0x00];

/// Objects without an assembly. The limit of the counter is the greatest number.
pub fn objects(alloc: Global) -> Result<Objects, Fail> {
    let config = Config {
        vendor: 0x1234,
        device_type: 43,
        product_code: 7,
        major: 2,
        minor: 5,
        serial: 16_909_060,
        name: String::from_str(alloc, "Demo")?,
        status: 0,
        state: 3,
        counter: CounterConfig {
            enabled: true,
            value: 0,
            limit: u32::MAX,
        },
        assemblies: Vec::new(alloc),
        objects: Vec::new(alloc),
    };
    let objects = Objects::new(alloc, &config)
        .ok()
        .ok_or("the objects are made")?;
    Ok(objects)
}
