//! The texts of the errors of `enip_wire`.

use crate::texts::check_texts;
use enip_wire::{CpfFault, Failed};
use std::test::Fail;

#[test]
fn of_enip_wire(rt: HostRuntime) -> Result<(), Fail> {
    let packets = [
        (CpfFault::Short, "the packet ends within an item"),
        (CpfFault::Trailing, "bytes follow the last item"),
        (CpfFault::Interface, "the interface is not 0"),
        (CpfFault::Address, "the first item is not the address"),
        (CpfFault::Data, "the second item is not the data"),
    ];
    check_texts(&rt, rt.alloc(), &packets)?;
    check_texts(&rt, rt.alloc(), &[(Failed, "the device failed")])
}
