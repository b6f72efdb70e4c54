//! The demo device.

ghost use Rattle.std.specs.Prelude.{IfOk};
ghost use Rattle.enip_bench.specs.Reached.{IsNewAdapter};

use configured_adapter::adapter_from;
use enip_adapter::Adapter;
use std::alloc::Global;
use std::test::Fail;

/// Its configuration file.
pub(crate) const DEMO: &str = "vendor = 4660
device_type = 43
product_code = 7
major = 2
minor = 5
serial = 16909060
name = \"Demo\"

[counter]
limit = 100

[[assembly]]
instance = 100
settable = true
members = [1, 2, 1]
";

/// A new adapter for it.
pub(crate) fn demo_adapter(alloc: Global) -> Result<Adapter, Fail>
    ensures { IfOk result IsNewAdapter }
{
    match adapter_from(alloc, DEMO.as_bytes()) {
        Ok(adapter) => Ok(adapter),
        Err(_) => Err(Fail::from("an adapter")),
    }
}
