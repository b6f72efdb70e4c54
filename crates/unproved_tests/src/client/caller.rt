//! The example in the documentation of `enip_client`, with a device. `tests/rules` compares the two texts.

use enip_adapter::{Adapter, Peer};
use enip_client::{Client, ClientFault, Heard, Hearing};
use std::test::Fail;
use test_fixtures::adapter::adapter_with_peer;
use test_fixtures::client::made;

/// The other end of the stream: a device, and the bytes that it has sent.
#[derive(Drop)]
struct Device {
    adapter: Adapter,
    peer: Peer,
    sent: Vec<u8>,
    memory: bool,
}

impl Device {
    fn send(&mut self, frame: &[u8]) {
        let fed = self.adapter.feed(0, &self.peer, frame);
        if let Some(answer) = fed.answer {
            self.memory = self.memory && self.sent.extend_from_slice(answer).is_ok();
        }
    }

    /// Copies what was sent into the buffer.
    fn receive(&mut self, room: &mut [u8]) -> usize {
        let size = self.sent.len().min(room.len());
        room[..size].copy_from_slice(&self.sent[..size]);
        self.sent.clear();
        size
    }
}

/// Registers a session, requests the vendor (class 1, instance 1, attribute 1), and unregisters.
fn ask_vendor(client: &mut Client, device: &mut Device) -> Result<Option<u16>, ClientFault> {
    let mut vendor = None;
    let mut room = [0; 600];
    device.send(client.register()?);
    let mut size = device.receive(&mut room);
    while size > 0 {
        let mut rest = &room[..size];
        while !rest.is_empty() && client.fault().is_none() {
            let Hearing { taken, heard } = client.feed(rest);
            match heard {
                Heard::Registered => device.send(client.unconnected(
                    b"\x0e\x03\x20\x01\x24\x01\x30\x01",
                )?),
                Heard::Reply(&[0x8e, 0, 0, 0, low, high]) => {
                    vendor = Some(u16::from_le_bytes([low, high]));
                    device.send(client.unregister()?);
                }
                _ => {}
            }
            rest = &rest[taken..];
        }
        size = device.receive(&mut room);
    }
    match client.fault() {
        Some(fault) => Err(fault),
        None => Ok(vendor),
    }
}

#[test]
fn it_hears_the_vendor(rt: HostRuntime) -> Result<(), Fail> {
    let (adapter, peer) = adapter_with_peer(rt.alloc())?;
    let mut device = Device {
        adapter,
        peer,
        sent: Vec::new(rt.alloc()),
        memory: true,
    };
    let mut client = made(rt.alloc())?;
    assert_eq!(rt; ask_vendor(&mut client, &mut device), Ok(Some(0x1234)));
    assert_eq!(rt; device.memory, true);
    assert_eq!(rt; client.is_registered(), false);
    Ok(())
}
