//! A keeper that numbers its commits: what it keeps is whole until a byte of it changes.

use enip_keep::{Entry, Keeper, MemoryKeeper, Numbered, RoundNote, StorageFault};
use std::alloc::Global;
use std::test::Fail;

/// The example of docs/STATE.md: keys, each with its bytes.
const KEPT: [(u64, &[u8]); 3] = [
    (
        0,
        &[
            7, 0, 0, 0, 0, 0, 0, 0, 0x7a, 0xd4, 0x75, 0xd8, 0x5f, 0xfd, 0x1a, 0xab,
        ],
    ),
    (1, &[1, 2, 3]),
    (0x1234, &[]),
];

/// A note in memory.
#[derive(Drop)]
struct MemoryNote {
    noted: u64,
}

impl RoundNote for MemoryNote {
    ghost noted = { λ n. n.noted };

    fn note(&mut self, round: u64) -> Result<(), StorageFault> {
        self.noted = round;
        Ok(())
    }
}

fn entry(alloc: Global, key: u64, bytes: &[u8]) -> Result<Entry, Fail> {
    Ok(Entry {
        key,
        bytes: Vec::from_slice(alloc, bytes)?,
    })
}

/// The entries of the example.
fn kept(alloc: Global) -> Result<Vec<Entry>, Fail> {
    let mut entries = Vec::new(alloc);
    for (key, bytes) in KEPT {
        entries.push(entry(alloc, key, bytes)?)?;
    }
    Ok(entries)
}

/// A keeper that numbers its commits, over one that keeps these entries.
fn over(alloc: Global, entries: &[Entry]) -> Result<Numbered<MemoryKeeper, MemoryNote>, Fail> {
    let mut keeper = MemoryKeeper::new(alloc);
    keeper.commit(entries)?;
    Ok(Numbered::start(alloc, keeper, MemoryNote { noted: 0 })?)
}

/// Nothing is whole.
#[test]
fn nothing_kept(rt: HostRuntime) -> Result<(), Fail> {
    let keeper = over(rt.alloc(), &[])?;
    assert!(rt; keeper.is_whole() && keeper.round() == 0);
    Ok(())
}

/// The seventh round keeps the number and the checksum of the example.
#[test]
fn checksum_kept(rt: HostRuntime) -> Result<(), Fail> {
    let alloc = rt.alloc();
    let mut keeper = over(alloc, &[])?;
    keeper.skip_to(5);
    keeper.commit(&[entry(alloc, 1, &[1, 2, 3])?])?;
    keeper.commit(&[entry(alloc, 0x1234, &[])?])?;
    assert!(rt; keeper.is_whole() && keeper.round() == 7);
    let found = keeper.into_keeper().load(alloc)?;
    assert!(rt; found.len() == KEPT.len());
    for (at, (key, bytes)) in KEPT.iter().enumerate() {
        assert!(rt;
            found[at].key == *key && found[at].bytes.as_slice() == *bytes,
            "{key}"
        );
    }
    Ok(())
}

/// The example is whole, and after a commit too.
#[test]
fn example_is_whole(rt: HostRuntime) -> Result<(), Fail> {
    let alloc = rt.alloc();
    let mut keeper = over(alloc, &kept(alloc)?)?;
    assert!(rt; keeper.is_whole() && keeper.round() == 7);
    assert!(rt; keeper.load(alloc)?.len() == 2);
    keeper.commit(&[entry(alloc, 2, b"ab")?])?;
    let again = over(alloc, &keeper.into_keeper().load(alloc)?)?;
    assert!(rt; again.is_whole() && again.round() == 8);
    Ok(())
}

/// One flipped bit in any byte of any entry.
#[test]
fn flipped_bit(rt: HostRuntime) -> Result<(), Fail> {
    let alloc = rt.alloc();
    for at in 0..KEPT.len() {
        let (key, bytes) = KEPT[at];
        for index in 0..bytes.len() {
            for bit in 0..8u32 {
                let mut entries = kept(alloc)?;
                let byte = entries[at].bytes[index];
                entries[at].bytes[index] = byte ^ (1u8 << bit);
                assert!(rt; !over(alloc, &entries)?.is_whole(), "{key} {index} {bit}");
            }
        }
    }
    Ok(())
}

/// One entry less, one with another key, one with a byte more, and one entry more.
#[test]
fn other_entries(rt: HostRuntime) -> Result<(), Fail> {
    let alloc = rt.alloc();
    for at in 0..KEPT.len() {
        let mut fewer = kept(alloc)?;
        drop(fewer.remove(at));
        assert!(rt; !over(alloc, &fewer)?.is_whole(), "{at}");
        let mut moved = kept(alloc)?;
        moved[at].key += 0x10;
        assert!(rt; !over(alloc, &moved)?.is_whole(), "{at}");
        let mut longer = kept(alloc)?;
        longer[at].bytes.push(0)?;
        assert!(rt; !over(alloc, &longer)?.is_whole(), "{at}");
    }
    let mut more = kept(alloc)?;
    more.push(entry(alloc, 0x2000, &[])?)?;
    assert!(rt; !over(alloc, &more)?.is_whole());
    Ok(())
}
