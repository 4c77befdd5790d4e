//! What configurations say of ports, and what is told of those that are refused.

use std::alloc::Global;
use std::test::Fail;
use tape_config::{Config, ConfigFault, Port, PortFields};

/// A port with name checking and no filemarks.
fn plain(offset: u16, capacity: u64, first: u32, last: u32) -> PortFields {
    PortFields {
        offset,
        capacity,
        filemark: 0,
        first,
        last,
        name_check: true,
    }
}

/// Whether a configuration says this of a port.
fn says(alloc: Global, text: &[u8], offset: u16, port: Option<PortFields>) -> bool {
    match Config::parse(alloc, text) {
        Ok(config) => fields_at(&config, offset) == port,
        Err(_) => false,
    }
}

/// A port's fields, by way of a port that is made of them.
fn fields_at(config: &Config, offset: u16) -> Option<PortFields> {
    let port = config.port(offset)?;
    Some(Port::new(port.fields()).fields())
}

fn is_refused(alloc: Global, text: &[u8], wanted: ConfigFault) -> bool {
    match Config::parse(alloc, text) {
        Ok(_) => false,
        Err(fault) => fault == wanted,
    }
}

#[test]
fn ports(rt: HostRuntime) {
    let gib2 = 2_147_483_648;
    let table: [(&[u8], u16, Option<PortFields>); 16] = [
        (b"".as_slice(), 0, None),
        (b"slots:0-3 0".as_slice(), 0, Some(plain(0, gib2, 0, 3))),
        (b"slots:0-3 0".as_slice(), 1, None),
        (
            b"128k 0 slots:0-3 0\n".as_slice(),
            0,
            Some(plain(0, 131072, 0, 3)),
        ),
        (
            b"98303 0 slots:0-3 0".as_slice(),
            0,
            Some(plain(0, 98303, 0, 3)),
        ),
        (b"slots:0-0 0\r\n".as_slice(), 0, Some(plain(0, gib2, 0, 0))),
        (
            b"\n \t\n# slots:0-0 0\nslots:7-65535 58510\n".as_slice(),
            58510,
            Some(plain(58510, gib2, 7, 65535)),
        ),
        (
            b"\t1M  0 slots:1-1\t3 ".as_slice(),
            3,
            Some(plain(3, 1_048_576, 1, 1)),
        ),
        (
            b"2g 0k slots:1-1 3".as_slice(),
            3,
            Some(plain(3, gib2, 1, 1)),
        ),
        (
            b"3G 0 slots:1-1 3".as_slice(),
            3,
            Some(plain(3, 3_221_225_472, 1, 1)),
        ),
        (
            b"4g 0 slots:1-1 3".as_slice(),
            3,
            Some(plain(3, 4_000_000_000, 1, 1)),
        ),
        (
            b"1t 0 slots:1-1 3".as_slice(),
            3,
            Some(plain(3, 4_000_000_000, 1, 1)),
        ),
        (
            b"999999999T 0 slots:1-1 3".as_slice(),
            3,
            Some(plain(3, 4_000_000_000, 1, 1)),
        ),
        (
            b"0g 000000000 slots:1-1 3".as_slice(),
            3,
            Some(plain(3, gib2, 1, 1)),
        ),
        (
            b"999999999 0 slots:1-1 3".as_slice(),
            3,
            Some(plain(3, 999_999_999, 1, 1)),
        ),
        (
            b"name_check no 1\nslots:0-0 0\nslots:1-1 2".as_slice(),
            2,
            Some(plain(2, gib2, 1, 1)),
        ),
    ];
    for (text, offset, port) in table {
        assert!(rt; says(rt.alloc(), text, offset, port), "{text:?}");
    }
}

#[test]
fn filemarks_and_name_checks(rt: HostRuntime) -> Result<(), Fail> {
    let text =
        b"name_check no 0\nNAME_Check YES 0\n8k 5g slots:0-3 0\n0 16 slots:4-4 1\nName_Check NO 1\n";
    let config = Config::parse(rt.alloc(), text)?;
    let zero = PortFields {
        filemark: 4_000_000_000,
        ..plain(0, 8192, 0, 3)
    };
    assert_eq!(rt; fields_at(&config, 0), Some(zero));
    let one = PortFields {
        filemark: 16,
        name_check: false,
        ..plain(1, 2_147_483_648, 4, 4)
    };
    assert_eq!(rt; fields_at(&config, 1), Some(one));
    Ok(())
}

#[test]
fn ports_and_slots_twice(rt: HostRuntime) {
    let table: [(&[u8], ConfigFault); 9] = [
        (
            b"slots:0-1 0\nslots:1-2 1\n".as_slice(),
            ConfigFault::SlotTwice { line: 2 },
        ),
        (
            b"slots:5-6 0\n\nslots:0-9 1\n".as_slice(),
            ConfigFault::SlotTwice { line: 3 },
        ),
        (
            b"slots:0-9 0\nslots:5-6 1\n".as_slice(),
            ConfigFault::SlotTwice { line: 2 },
        ),
        (
            b"slots:0-1 0\nslots:2-3 0\n".as_slice(),
            ConfigFault::PortTwice { line: 2 },
        ),
        (
            b"slots:0-1 0\nslots:1-2 0\n".as_slice(),
            ConfigFault::PortTwice { line: 2 },
        ),
        (
            b"slots:0-1 0\nslots:1-2 0 x\n".as_slice(),
            ConfigFault::BadLine { line: 2 },
        ),
        (
            b"slots:0-1 0\nslots:1-2 1\nx\n".as_slice(),
            ConfigFault::SlotTwice { line: 2 },
        ),
        (
            b"slots:0-3 0\r".as_slice(),
            ConfigFault::BadLine { line: 1 },
        ),
        (
            b"slots:0-3 0\r\r\n".as_slice(),
            ConfigFault::BadLine { line: 1 },
        ),
    ];
    for (text, fault) in table {
        assert!(rt; is_refused(rt.alloc(), text, fault), "{text:?}");
    }
    assert!(rt;
        says(
            rt.alloc(),
            b"slots:2-3 1\nname_check yes 1\nslots:0-1 0",
            0,
            Some(plain(0, 2_147_483_648, 0, 1))
        )
    );
}

#[test]
fn the_last_line_may_lack_its_end(rt: HostRuntime) -> Result<(), Fail> {
    for (text, cell) in [
        (b"".as_slice(), b"".as_slice()),
        (b"slots:0-0 0\ncell 0".as_slice(), b"0".as_slice()),
        (b"cell cell".as_slice(), b"cell".as_slice()),
    ] {
        let config = Config::parse(rt.alloc(), text)?;
        assert_eq!(rt; config.cell(), cell);
    }
    Ok(())
}
