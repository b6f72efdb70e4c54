//! The greatest number of peers, since `enip answer` has names for only nine, and the queue of the adapter that a
//! configuration describes.

use cip_application::ServiceKind;
use cip_owner::Queue;
use configured_adapter::{adapter_from, unshared_adapter_from};
use enip_adapter::Adapter;
use enip_config::{Configuration, ConfigurationRefusal, ExplainedFault, LoadFault};
use std::alloc::Global;
use std::process::Abort;
use std::test::Fail;

/// The least configuration, with an object of one service that is asked of the owner.
const FRONT: &str =
    "vendor = 0\ndevice_type = 0\nproduct_code = 0\nmajor = 1\nminor = 0\nserial = 0\nname = \"\"\n\
    [[object]]\nclass = 768\ninstance = 1\n[[object.service]]\nnumber = 50\nsize = 4\n";

/// A queued service after it.
const QUEUED: &str = "[[object.service]]\nnumber = 51\nsizes = [1, 2]\nreply = 3\nqueued = true\n";

#[test]
fn sixteen_peers(rt: HostRuntime) -> Result<(), Fail> {
    let text =
        b"vendor = 0\ndevice_type = 0\nproduct_code = 0\nmajor = 1\nminor = 0\nserial = 0\nname = \"\"\n\
        peers = 16\n";
    let told = Configuration::from_bytes(rt.alloc(), text)?;
    assert_eq!(rt; told.peers, 16);
    Ok(())
}

/// The texts, one after the other.
fn joined(alloc: Global, texts: &[&str]) -> Result<Vec<u8>, Fail> {
    let mut joined = Vec::new(alloc);
    for text in texts {
        joined.extend_from_slice(text.as_bytes())?;
    }
    Ok(joined)
}

/// The capacity of an adapter's queue.
fn capacity(adapter: &Adapter) -> Option<u16> {
    adapter.queue().map(Queue::limit)
}

/// Asserts the key `queue` of a configuration, and the capacity of the queue that its device has.
fn check(
    rt: &impl Abort,
    alloc: Global,
    text: &[u8],
    queue: Option<u16>,
    limit: Option<u16>,
) -> Result<(), Fail> {
    let told = Configuration::from_bytes(alloc, text)?;
    assert_eq!(rt; told.queue, queue);
    assert_eq!(rt; told.queue_limit(), limit);
    assert_eq!(rt; capacity(&adapter_from(alloc, text)?), limit);
    assert_eq!(rt; capacity(&unshared_adapter_from(alloc, text)?), limit);
    Ok(())
}

/// The queue has the configured capacity, or 16, if a service is queued.
#[test]
fn queues(rt: HostRuntime) -> Result<(), Fail> {
    let alloc = rt.alloc();
    check(&rt, alloc, &joined(alloc, &[FRONT])?, None, None)?;
    check(
        &rt,
        alloc,
        &joined(alloc, &[FRONT, "queued = false\n"])?,
        None,
        None,
    )?;
    check(
        &rt,
        alloc,
        &joined(alloc, &[FRONT, QUEUED])?,
        None,
        Some(16),
    )?;
    let empty = joined(alloc, &[FRONT, QUEUED, "[commands]\n"])?;
    check(&rt, alloc, &empty, Some(16), Some(16))?;
    let least = joined(alloc, &[FRONT, QUEUED, "[commands]\nqueue = 1\n"])?;
    check(&rt, alloc, &least, Some(1), Some(1))?;
    let greatest = joined(alloc, &[FRONT, QUEUED, "[commands]\nqueue = 256\n"])?;
    check(&rt, alloc, &greatest, Some(256), Some(256))
}

/// How many commands are handed over at once: as configured, or 1.
#[test]
fn ahead(rt: HostRuntime) -> Result<(), Fail> {
    let alloc = rt.alloc();
    let rows = [
        ("", 1),
        ("[commands]\n", 1),
        ("[commands]\nqueue = 7\n", 1),
        ("[commands]\nahead = 1\n", 1),
        ("[commands]\nahead = 256\nqueue = 7\n", 256),
    ];
    for (table, wanted) in &rows {
        let text = joined(alloc, &[FRONT, QUEUED, table])?;
        assert_eq!(rt; Configuration::from_bytes(alloc, &text)?.ahead, *wanted);
    }
    for table in ["ahead = 0\n", "ahead = 257\n", "ahead = \"1\"\n"] {
        let text = joined(alloc, &[FRONT, QUEUED, "[commands]\n", table])?;
        let refused = LoadFault::Refused(ConfigurationRefusal::BadValue);
        assert!(rt; Configuration::from_bytes(alloc, &text).err() == Some(refused));
    }
    Ok(())
}

/// A table `commands` without a queued service is refused, and the object has no Get_Result.
#[test]
fn unused_queue(rt: HostRuntime) -> Result<(), Fail> {
    let alloc = rt.alloc();
    let unused = joined(alloc, &[FRONT, "[commands]\n"])?;
    let refused = LoadFault::Refused(ConfigurationRefusal::Commands);
    assert!(rt; Configuration::from_bytes(alloc, &unused).err() == Some(refused));
    assert_eq!(rt; ConfigurationRefusal::Commands.number(), 14);
    Ok(())
}

/// Of two faults the one whose check comes first is refused, and explained.
#[test]
fn two_faults(rt: HostRuntime) -> Result<(), Fail> {
    let alloc = rt.alloc();
    let rows = [
        (
            "[commands]\nqueue = 0\nlength = 1\n",
            ConfigurationRefusal::UnknownKey,
            "line 16: unknown key commands.length",
        ),
        (
            "[[object.service]]\nnumber = 49\nsize = 4\n[commands]\nqueue = 0\n",
            ConfigurationRefusal::BadValue,
            "line 18: queue is 0 (allowed: 1 to 256)",
        ),
        (
            "[[object.service]]\nnumber = 49\nsize = 4\n[access]\nread = 1\n",
            ConfigurationRefusal::Service,
            "line 15: object class 0x300 instance 1, service 0x31: number is 49 (allowed: 50 to 99)",
        ),
        (
            "[access]\nread = 1\n[commands]\nqueue = 1\n",
            ConfigurationRefusal::Access,
            "line 15: read is not an array of addresses and prefixes",
        ),
    ];
    for (tables, refusal, wanted) in &rows {
        let text = joined(alloc, &[FRONT, tables])?;
        match Configuration::explained(alloc, &text) {
            Err(ExplainedFault::Refused(explanation)) => {
                assert_eq!(rt; explanation.refusal(), *refusal);
                let explained = format!(in alloc; "{explanation}")?;
                assert_eq!(rt; explained.as_str(), *wanted);
            }
            _ => assert!(rt; false),
        }
    }
    Ok(())
}

/// Get_Result comes after the services of the object that has a queued one.
#[test]
fn services(rt: HostRuntime) -> Result<(), Fail> {
    let alloc = rt.alloc();
    let other =
        "[[object]]\nclass = 768\ninstance = 2\n[[object.service]]\nnumber = 78\nsize = 0\n";
    let told = Configuration::from_bytes(alloc, &joined(alloc, &[FRONT, QUEUED, other])?)?;
    let wanted = [
        (50, (4, 4), 0, ServiceKind::Asked),
        (51, (1, 2), 3, ServiceKind::Queued),
        (78, (4, 4), 478, ServiceKind::Result),
    ];
    let objects = told.objects.objects.as_slice();
    assert_eq!(rt; objects.len(), 2);
    assert_eq!(rt; objects[0].services.len(), wanted.len());
    for (service, (number, sizes, reply, kind)) in objects[0].services.iter().zip(&wanted) {
        assert_eq!(rt; service.number, *number);
        assert_eq!(rt; (service.least, service.most), *sizes);
        assert_eq!(rt; service.reply, *reply);
        assert!(rt; service.kind == *kind);
    }
    assert_eq!(rt; objects[1].services.len(), 1);
    assert!(rt; objects[1].services[0].kind == ServiceKind::Asked);
    Ok(())
}
