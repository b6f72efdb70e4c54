//! The state of an adapter as bytes, and the adapter that starts from it.

use crate::texts::check_texts;
use cip_ledger::{DoubtfulCommand, Ledger};
use enip_adapter::{Adapter, Shares};
use enip_server::NO_IDLE_TIMEOUT;
use kept_adapter::{AdapterStart, LedgerStart, StartFault};
use saved_adapter::{RestoreFault, generation, save, start};
use saved_state::{StateFault, WriteFault};
use std::alloc::Global;
use std::test::Fail;
use test_fixtures::adapter::{LIMITS, LISTEN, config};

/// The size of a buffer for a state.
const ROOM: usize = 4096;

const COMMAND: DoubtfulCommand = DoubtfulCommand {
    originator: 7,
    number: 3,
};

/// The demo device with a ledger, which is in this life if its ledger starts empty.
fn start_in(alloc: Global, life: u64) -> Result<AdapterStart, Fail> {
    Ok(AdapterStart {
        objects: config(alloc)?,
        ledger: Some(LedgerStart {
            originators: 2,
            life,
        }),
        queue: None,
        begins_life: false,
        reset: false,
        listen: LISTEN,
        limits: LIMITS,
        shares: Shares::NONE,
        idle_timeout: NO_IDLE_TIMEOUT,
    })
}

fn started(alloc: Global, start_from: &AdapterStart, state: &[u8]) -> Result<Adapter, Fail> {
    match start(alloc, start_from, state) {
        Ok(adapter) => Ok(adapter),
        Err(_) => Err(Fail::from("the adapter starts")),
    }
}

fn life_of(adapter: &Adapter) -> u64 {
    adapter.ledger().map_or(0, |ledger: &Ledger| ledger.life())
}

#[test]
fn an_adapter_starts_from_its_state(rt: HostRuntime) -> Result<(), Fail> {
    let alloc = rt.alloc();
    let mut adapter = started(alloc, &start_in(alloc, 9)?, &[])?;
    assert_eq!(rt; generation(&adapter, None, &[]), Ok(1));
    let mut buffer = [0; ROOM];
    assert!(rt; adapter.write_data(100, 0, &[7, 8, 9, 10]));
    let size = save(&adapter, None, 1, &mut buffer).map_err(|_| Fail::from("it fits"))?;
    assert_eq!(rt;
        save(&adapter, None, 1, &mut [0; 36]),
        Err(WriteFault::Full)
    );
    let state = &buffer[..size];
    assert_eq!(rt; generation(&adapter, None, state), Ok(1));
    let again = started(alloc, &start_in(alloc, 10)?, state)?;
    assert_eq!(rt; life_of(&again), 9);
    assert_eq!(rt; generation(&again, None, state), Ok(1));
    assert_eq!(rt; generation(&again, Some(COMMAND), state), Ok(2));
    let data = again
        .objects()
        .attribute(4, 100, 3)
        .ok_or("assembly 100 has data")?;
    assert_eq!(rt; data.as_slice(), [7, 8, 9, 10].as_slice());
    assert!(rt; adapter.write_data(100, 0, &[1]));
    assert_eq!(rt; generation(&adapter, None, state), Ok(2));
    Ok(())
}

#[test]
fn a_command_is_saved_in_doubt(rt: HostRuntime) -> Result<(), Fail> {
    let alloc = rt.alloc();
    let adapter = started(alloc, &start_in(alloc, 9)?, &[])?;
    let mut buffer = [0; ROOM];
    let size = save(&adapter, Some(COMMAND), 5, &mut buffer).map_err(|_| Fail::from("it fits"))?;
    assert!(rt;
        adapter
            .ledger()
            .is_some_and(|ledger: &Ledger| ledger.slot_count() == 0)
    );
    let mut again = started(alloc, &start_in(alloc, 10)?, &buffer[..size])?;
    assert!(rt;
        again
            .ledger()
            .is_some_and(|ledger: &Ledger| ledger.in_doubt(0) == Some(COMMAND))
    );
    assert!(rt; again.settle(COMMAND.originator, COMMAND.number, &[0xb2, 0, 0, 0]));
    assert_eq!(rt; generation(&again, None, &buffer[..size]), Ok(6));
    // A greater number takes the same slot, and a smaller one changes nothing.
    let later = DoubtfulCommand {
        originator: 7,
        number: 4,
    };
    let earlier = DoubtfulCommand {
        originator: 7,
        number: 2,
    };
    let mut other = [0; ROOM];
    let size = save(&again, Some(later), 6, &mut other).map_err(|_| Fail::from("it fits"))?;
    assert_eq!(rt; generation(&again, Some(earlier), &other[..size]), Ok(7));
    let last = started(alloc, &start_in(alloc, 10)?, &other[..size])?;
    assert!(rt;
        last.ledger()
            .is_some_and(|ledger: &Ledger| ledger.slot_count() == 1)
    );
    assert!(rt;
        last.ledger()
            .is_some_and(|ledger: &Ledger| ledger.in_doubt(0) == Some(later))
    );
    Ok(())
}

#[test]
fn other_states_are_refused(rt: HostRuntime) -> Result<(), Fail> {
    let alloc = rt.alloc();
    let adapter = started(alloc, &start_in(alloc, 9)?, &[])?;
    let mut buffer = [0; ROOM];
    let size = save(&adapter, None, 1, &mut buffer).map_err(|_| Fail::from("it fits"))?;
    let mut other = start_in(alloc, 10)?;
    assert_eq!(rt;
        start(alloc, &other, &buffer[..size + 1]).err(),
        Some(RestoreFault::Malformed(StateFault::TooLong))
    );
    assert_eq!(rt;
        generation(&adapter, None, &buffer[..size - 1]),
        Err(StateFault::Cut)
    );
    other.objects.serial = 1;
    assert_eq!(rt;
        start(alloc, &other, &buffer[..size]).err(),
        Some(RestoreFault::OtherDevice)
    );
    Ok(())
}

#[test]
fn texts_of_states_that_are_refused(rt: HostRuntime) -> Result<(), Fail> {
    const ORDER: &str = "the assemblies or the objects are not configured in rising order";
    let rows = [
        (RestoreFault::Memory, "out of memory"),
        (
            RestoreFault::Malformed(StateFault::Checksum),
            "the checksum of the saved state is wrong",
        ),
        (
            RestoreFault::OtherDevice,
            "the saved state is that of another device",
        ),
        (RestoreFault::Order, ORDER),
    ];
    check_texts(&rt, rt.alloc(), &rows)?;
    let rows = [
        (StartFault::Memory, "out of memory"),
        (StartFault::OtherDevice, "what is kept is of another device"),
        (StartFault::Order, ORDER),
    ];
    check_texts(&rt, rt.alloc(), &rows)
}
