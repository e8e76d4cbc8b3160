//! Headers as the document has them, and as they come in pieces.

use acq_proxy::{Header, LONGEST_HEADER, header_at};
use std::net::{IpAddr, Ipv4Addr, Ipv6Addr, SocketAddr};

/// The document's own line, in front of a request (2.1).
const LINE: &[u8] = b"PROXY TCP4 192.168.0.1 192.168.0.11 56324 443\r\nGET / HTTP/1.1\r\n";

/// A block with the same addresses, and one over IPv6 with a field behind the addresses (2.2).
const BLOCK: &[u8] =
    b"\r\n\r\n\0\r\nQUIT\n\x21\x11\0\x0c\xc0\xa8\0\x01\xc0\xa8\0\x0b\xdc\x04\x01\xbbGET";

const BLOCK_6: &[u8] = b"\r\n\r\n\0\r\nQUIT\n\x21\x21\0\x28\
    \x20\x01\x0d\xb8\0\0\0\0\0\0\0\0\0\0\0\x01\
    \x20\x01\x0d\xb8\0\0\0\0\0\0\0\0\0\0\0\x02\
    \xdc\x04\x01\xbb\x04\0\x01\0\0\x10";

/// The proxy's own connection, with addresses that say nothing.
const OWN: &[u8] =
    b"\r\n\r\n\0\r\nQUIT\n\x20\x11\0\x0c\xc0\xa8\0\x01\xc0\xa8\0\x0b\xdc\x04\x01\xbb";

fn four() -> Option<SocketAddr> {
    let ip = IpAddr::V4(Ipv4Addr::new(192, 168, 0, 1));
    Some(SocketAddr::new(ip, 56324))
}

fn six() -> Option<SocketAddr> {
    let ip = IpAddr::V6(Ipv6Addr::new(0x2001, 0xdb8, 0, 0, 0, 0, 0, 1));
    Some(SocketAddr::new(ip, 56324))
}

#[test]
fn whole_headers(rt: HostRuntime) {
    let cases: [(&[u8], usize, Option<SocketAddr>); 9] = [
        (LINE, 47, four()),
        (BLOCK, 28, four()),
        (BLOCK_6, 56, six()),
        (OWN, 28, None),
        (
            b"PROXY TCP6 2001:db8::1 2001:db8::2 56324 443\r\n",
            46,
            six(),
        ),
        (b"PROXY UNKNOWN\r\n", 15, None),
        (b"PROXY UNKNOWN ffff::1 ffff::2 65535 65535\r\n\0", 43, None),
        (b"\r\n\r\n\0\r\nQUIT\n\x20\0\0\0", 16, None),
        (b"\r\n\r\n\0\r\nQUIT\n\x21\0\0\x02xx", 18, None),
    ];
    for (bytes, length, peer) in cases {
        let whole = Header::Whole {
            bytes: length,
            peer,
        };
        assert_eq!(rt; header_at(bytes), whole);
        assert_eq!(rt; header_at(&bytes[..length]), whole);
        for part in 0..length {
            assert_eq!(rt; header_at(&bytes[..part]), Header::Partial);
        }
    }
}

#[test]
fn no_headers(rt: HostRuntime) {
    let cases: [&[u8]; 20] = [
        b"\0\x430800822000000000",
        b"GET / HTTP/1.1\r\n",
        b"proxy TCP4 192.168.0.1 192.168.0.11 56324 443\r\n",
        b"PROXY TCP4 192.168.0.1 192.168.0.11 56324\r\n",
        b"PROXY TCP4 192.168.0.1 192.168.0.11 56324 443 \r\n",
        b"PROXY TCP4 192.168.0.01 192.168.0.11 56324 443\r\n",
        b"PROXY TCP4 192.168.0.1 192.168.0.11 056324 443\r\n",
        b"PROXY TCP4 192.168.0.1 192.168.0.11 65536 443\r\n",
        b"PROXY TCP4 192.168.0.1 192.168.0.11 56324 +443\r\n",
        b"PROXY TCP4 2001:db8::1 2001:db8::2 56324 443\r\n",
        b"PROXY TCP6 192.168.0.1 192.168.0.11 56324 443\r\n",
        b"PROXY UDP4 192.168.0.1 192.168.0.11 56324 443\r\n",
        b"PROXY  TCP4 192.168.0.1 192.168.0.11 56324 443\r\n",
        b"\r\n\r\n\0\r\nQUIT\n\x11\x11\0\x0c",
        b"\r\n\r\n\0\r\nQUIT\n\x22\x11\0\x0c",
        b"\r\n\r\n\0\r\nQUIT\n\x21\x41\0\x0c",
        b"\r\n\r\n\0\r\nQUIT\n\x21\x13\0\x0c",
        b"\r\n\r\n\0\r\nQUIT\n\x21\x11\0\x0b",
        b"\r\n\r\n\0\r\nQUIT\n\x21\x21\0\x23",
        b"\r\n\r\n\0\r\nQUIT\n\x21\x11\x02\x09",
    ];
    for bytes in cases {
        assert_eq!(rt; header_at(bytes), Header::Missing);
    }
}

/// A line ends within 107 bytes, or it is none; one end of two bytes may stand in two pieces.
#[test]
fn long_lines(rt: HostRuntime) {
    let mut line = [b'x'; LONGEST_HEADER];
    line[..13].copy_from_slice(b"PROXY UNKNOWN");
    line[50] = b'\n';
    line[60] = b'\r';
    assert_eq!(rt; header_at(&line[..106]), Header::Partial);
    assert_eq!(rt; header_at(&line[..107]), Header::Missing);
    line[105] = b'\r';
    line[106] = b'\n';
    let whole = Header::Whole {
        bytes: 107,
        peer: None,
    };
    assert_eq!(rt; header_at(&line), whole);
}
