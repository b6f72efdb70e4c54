//! Dates at the ends of their range, icons, device types, and the text of an EDS with bytes that no configuration has.

use cip_values::Date;
use enip_config::Configuration;
use enip_eds::{
    EdsSource, Icon, date_at, date_in, device_type_name, eds_text, is_icon, profile_text,
};
use std::test::Fail;

/// A device with an assembly.
const DEVICE: &[u8] =
    b"vendor = 1\ndevice_type = 43\nproduct_code = 7\nmajor = 2\nminor = 5\nserial = 42\nname = \"Demo\"\n\
    [[assembly]]\ninstance = 100\nmembers = [1, 3]\n";

/// The head of an .ico file with one image, and the entry of the image.
const ICON: [u8; 22] = [
    0, 0, 1, 0, 1, 0, 16, 16, 0, 0, 1, 0, 4, 0, 0, 0, 0, 0, 22, 0, 0, 0,
];

fn date(year: u16, month: u8, day: u8) -> Option<Date> {
    Some(Date { year, month, day })
}

#[test]
fn dates(rt: HostRuntime) -> Result<(), Fail> {
    assert!(rt; date_at(0).is_none());
    assert!(rt; date_at(63_071_999).is_none());
    assert!(rt; date_at(63_072_000) == date(1972, 1, 1));
    assert!(rt; date_at(951_782_399) == date(2000, 2, 28));
    assert!(rt; date_at(951_782_400) == date(2000, 2, 29));
    assert!(rt; date_at(951_868_800) == date(2000, 3, 1));
    assert!(rt; date_at(5_725_382_399) == date(2151, 6, 6));
    assert!(rt; date_at(5_725_382_400).is_none());
    assert!(rt; date_at(u64::MAX).is_none());
    assert!(rt; date_in(b"11-29-2026") == date(2026, 11, 29));
    assert!(rt; date_in(b"02-29-2000") == date(2000, 2, 29));
    assert!(rt; date_in(b"12-31-9999") == date(9999, 12, 31));
    for text in [
        "",
        "11-29-202",
        "11-29-20266",
        "02-29-2001",
        "11/29-2026",
        "11-29/2026",
    ] {
        assert!(rt; date_in(text.as_bytes()).is_none(), "{text}");
    }
    Ok(())
}

#[test]
fn icons_and_device_types(rt: HostRuntime) -> Result<(), Fail> {
    assert!(rt; is_icon(&ICON));
    assert!(rt; !is_icon(&ICON[..21]));
    assert!(rt; !is_icon(b""));
    for (index, byte) in [(0usize, 1u8), (1, 1), (2, 2), (3, 1), (4, 0)] {
        let mut changed = ICON;
        changed[index] = byte;
        assert!(rt; !is_icon(&changed), "{index}");
    }
    assert!(rt; device_type_name(0x2b) == Some("Generic Device (keyable)"));
    assert!(rt; device_type_name(1).is_none());
    Ok(())
}

/// An icon whose name has each kind of byte, and the members of an assembly with a Param and without.
#[test]
fn texts(rt: HostRuntime) -> Result<(), Fail> {
    let configuration = Configuration::from_bytes(rt.alloc(), DEVICE)?;
    let source = EdsSource {
        configuration: &configuration,
        date: Date {
            year: 2026,
            month: 1,
            day: 2,
        },
        icon: Some(Icon {
            name: b"a\"\\\x7f\xff\n",
            bytes: b"hello",
        }),
    };
    let text = eds_text(rt.alloc(), &source)?;
    for part in [
        "        CreateDate = 01-02-2026;\n",
        "        Icon = \"a\\\"\\\\\\x7f\\xff\\x0a\";\n        IconContents = \"aGVsbG8=\";\n",
        "                8,Param1,\n                24,;\n",
    ] {
        assert!(rt; text.as_str().contains(part), "{part}");
    }
    let text = profile_text(rt.alloc(), &configuration.objects, configuration.reset)?;
    assert!(rt;
        text.as_str()
            .ends_with("required of every EtherNet/IP device\n")
    );
    Ok(())
}
