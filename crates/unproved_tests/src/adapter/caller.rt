//! The example in the documentation of `enip_adapter`, and what it writes. `tests/rules` compares the two texts.

use enip_adapter::Adapter;
use std::alloc::{AllocError, Global};
use std::test::Fail;
use test_fixtures::adapter::{ADD, ADDED, LONG, OPEN, REFUSED, REGISTER, REGISTERED, new_adapter};

/// Serves one peer. Its bytes come in pieces of any size, each with a time. The answers are appended to `written`.
fn serve_pieces(
    adapter: &mut Adapter,
    pieces: &[(u64, &[u8])],
    written: &mut Vec<u8>,
) -> Result<(), AllocError> {
    let Ok(peer) = adapter.begin() else {
        return Ok(());
    };
    for (moment, piece) in pieces {
        let mut rest = *piece;
        while !rest.is_empty() {
            let fed = adapter.feed(*moment, &peer, rest);
            if let Some(answer) = fed.answer {
                written.extend_from_slice(answer)?;
            }
            if fed.close {
                break;
            }
            rest = &rest[fed.taken..];
        }
    }
    adapter.end(peer);
    Ok(())
}

/// The texts, joined.
fn joined(alloc: Global, texts: &[&[u8]]) -> Result<Vec<u8>, Fail> {
    let mut bytes = Vec::new(alloc);
    for text in texts {
        bytes.extend_from_slice(text)?;
    }
    Ok(bytes)
}

#[test]
fn its_answers_are_written(rt: HostRuntime) -> Result<(), Fail> {
    let alloc = rt.alloc();
    let mut adapter = new_adapter(alloc)?;
    let opened = joined(alloc, &[&REGISTER[20..], OPEN])?;
    let pieces = [
        (0, &REGISTER[..20]),
        (1, opened.as_slice()),
        (2, ADD),
        (3, LONG),
        (4, ADD),
    ];
    let mut written = Vec::new(alloc);
    serve_pieces(&mut adapter, &pieces, &mut written)?;
    assert_eq!(rt; &written[..28], REGISTERED);
    // between them is the answer to the opening, 70 bytes
    assert_eq!(rt;
        &written[98..],
        joined(alloc, &[ADDED, REFUSED])?.as_slice()
    );
    assert_eq!(rt; adapter.free(), new_adapter(alloc)?.free());
    Ok(())
}
