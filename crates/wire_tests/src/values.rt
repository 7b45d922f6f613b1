//! Texts of addresses and prefixes, and the values of paths.

use bgp_types::*;
use std::alloc::Global;
use std::test::Fail;

/// Texts that write prefixes, each with its address and length and with how it is printed: bits past the
/// length are cleared.
const PREFIXES: [(&str, (u32, u8), &str); 5] = [
    ("0.0.0.0/0", (0, 0), "0.0.0.0/0"),
    ("10.1.2.3/8", (0x0A00_0000, 8), "10.0.0.0/8"),
    ("255.255.255.255/1", (0x8000_0000, 1), "128.0.0.0/1"),
    ("192.0.2.1/31", (0xC000_0200, 31), "192.0.2.0/31"),
    ("192.0.2.1/32", (0xC000_0201, 32), "192.0.2.1/32"),
];

/// Texts that write no prefix: no sign, no leading zero, no part that is missing or too great.
const NO_PREFIXES: [&str; 9] = [
    "",
    "10.0.0.0",
    "10.0.0.0/",
    "10.0.0.0/33",
    "10.0.0.0/08",
    "10.0.0.0/+8",
    "10.0.0.01/8",
    "10.0.0.256/8",
    "10.0.0/8",
];

#[test]
fn texts_of_prefixes(rt: HostRuntime) -> Result<(), Fail> {
    for (text, value, printed) in PREFIXES {
        let prefix = read_prefix(text).ok_or("a prefix")?;
        assert_eq!(rt; (prefix.address(), prefix.len()), value, "{text}");
        let again = format!(in rt.alloc(); "{prefix}")?;
        assert_eq!(rt; again.as_str(), printed);
    }
    for text in NO_PREFIXES {
        assert_eq!(rt; read_prefix(text), None, "{text}");
    }
    Ok(())
}

/// The address of a text, by its four decimals; none if one is missing, too great or has a leading zero. It is printed
/// as it was written.
#[test]
fn texts_of_addresses(rt: HostRuntime) -> Result<(), Fail> {
    for (text, address, host) in [
        ("0.0.0.0", Some(0u32), false),
        ("0.0.0.1", Some(1), true),
        ("223.255.255.255", Some(0xDFFF_FFFF), true),
        ("224.0.0.0", Some(0xE000_0000), false),
        ("10.255.0", None, false),
        ("10.0.0.0.0", None, false),
        ("10.0.0.256", None, false),
        ("10.0.0.01", None, false),
        (" 10.0.0.1", None, false),
    ] {
        assert_eq!(rt; read_address(text), address, "{text}");
        if let Some(address) = address {
            let printed = format!(in rt.alloc(); "{}", Address(address))?;
            assert_eq!(rt; printed.as_str(), text);
            assert_eq!(rt; is_host(address), host, "{text}");
        }
    }
    Ok(())
}

/// Returns the path of the set 7, 8 and the sequence 65001, 70000 (RFC 4271, section 9.1.2.2: a set counts as one AS).
fn path(alloc: Global) -> Result<AsPath, NoMemory> {
    let set = PathPart::Set(AsList::from_slice(alloc, &[7, 8])?);
    let sequence = PathPart::Sequence(AsList::from_slice(alloc, &[65001, 70000])?);
    let mut path = AsPath::one(alloc, set)?;
    path.push(sequence)?;
    Ok(path)
}

#[test]
fn values_of_a_path(rt: HostRuntime) -> Result<(), Fail> {
    let alloc = rt.alloc();
    let two = path(alloc)?;
    assert_eq!(rt; path_len(&two), 3);
    assert_eq!(rt; neighbour(&two, 65000), 65000);
    for (as_number, holds) in [(7, true), (70000, true), (65000, false)] {
        assert_eq!(rt; holds_as(&two, as_number), holds);
    }
    let sequence = PathPart::Sequence(AsList::from_slice(alloc, &[65001])?);
    assert_eq!(rt; neighbour(&AsPath::one(alloc, sequence)?, 65000), 65001);
    assert!(rt; two.copy()? == two);
    Ok(())
}
