//! Headers of version 2: a block of bytes (The PROXY protocol, 2.2).

ghost use Rattle.std.specs.Prelude.{◌≡◌, ◌≤◌, ◌+◌, ◌*◌, length, slice_index, slice_range, true};
ghost use Rattle.acq_proxy.specs.Blocks.{IsBlockFront, NamesInBlock, is_family, is_valid};
ghost use Rattle.acq_proxy.specs.Blocks.{block_length};
ghost use Rattle.std.specs.Net.Addr.{ipv4_octets, ipv6_segments, segments_of};
ghost use Rattle.std.specs.Net.Socket.{v4_ip, v4_port, v6_ip, v6_port};

use crate::header::Header;
use crate::reading::LONGEST_HEADER;
use std::net::{Ipv4Addr, Ipv6Addr, SocketAddr, SocketAddrV4, SocketAddrV6};

/// How a block begins.
pub(crate) const SIGNATURE: [u8; 12] = *b"\r\n\r\n\0\r\nQUIT\n";

/// The bytes in front of the addresses.
const FIXED: usize = 16;

/// Version 2: the proxy speaks for itself, or hands on a connection.
const LOCAL: u8 = 0x20;

const HANDED_ON: u8 = 0x21;

/// TCP over IPv4 and over IPv6, and how many bytes a block has at least with their addresses.
const TCP_4: u8 = 0x11;

const LEAST_4: usize = 28;

const TCP_6: u8 = 0x21;

const LEAST_6: usize = 52;

/// What stands at the front of bytes that begin as the signature does.
pub(crate) fn block_at(bytes: &[u8]) -> Header
    ensures { IsBlockFront bytes.now result }
{
    if bytes.len() < FIXED {
        return Header::Partial;
    }
    if !is_valid(bytes) {
        return Header::Missing;
    }
    let length = length_of(bytes);
    if bytes.len() < length {
        return Header::Partial;
    }
    Header::Whole {
        bytes: length,
        peer: peer_in(bytes),
    }
}

/// How many bytes a block has in all.
fn length_of(block: &[u8]) -> usize
    requires { 16 ≤ length block.now }
    ensures { result ≡ block_length block.now }
{
    FIXED + 256 * usize::from(block[14]) + usize::from(block[15])
}

/// Whether it may be taken, by what stands in front of its addresses.
fn is_valid(block: &[u8]) -> bool
    requires { 16 ≤ length block.now }
    ensures { result ≡ is_valid block.now }
{
    let length = length_of(block);
    if length > LONGEST_HEADER {
        false
    } else if block[12] == HANDED_ON {
        is_family(block[13], length)
    } else {
        block[12] == LOCAL
    }
}

/// Whether this is a family with its protocol, whose addresses find room in so many bytes.
fn is_family(family: u8, size: usize) -> bool
    ensures { result ≡ is_family family size }
{
    let least = match family {
        TCP_4 => LEAST_4,
        TCP_6 => LEAST_6,
        _ => FIXED,
    };
    family <= 0x3f && family % 16 <= 2 && least <= size
}

/// Who is behind the proxy, if a block of that length says it.
fn peer_in(block: &[u8]) -> Option<SocketAddr>
    requires valid { is_valid block.now ≡ true }
    requires whole { block_length block.now ≤ length block.now }
    ensures { NamesInBlock block.now result }
{
    if block[12] != HANDED_ON {
        None
    } else if block[13] == TCP_4 {
        Some(SocketAddr::V4(source_4(block)))
    } else if block[13] == TCP_6 {
        Some(SocketAddr::V6(source_6(block)))
    } else {
        None
    }
}

/// The source of a connection over IPv4: an address, and behind the destination's its port.
fn source_4(block: &[u8]) -> SocketAddrV4
    requires { 28 ≤ length block.now }
    ensures address { ipv4_octets (v4_ip result) ≡ slice_range block.now 16 20 }
    ensures port { v4_port result ≡ 256 * slice_index block.now 24 + slice_index block.now 25 }
{
    let mut octets = [0; 4];
    octets.copy_from_slice(&block[16..20]);
    let port = 256 * u16::from(block[24]) + u16::from(block[25]);
    SocketAddrV4::new(Ipv4Addr::from_octets(octets), port)
}

/// And over IPv6.
fn source_6(block: &[u8]) -> SocketAddrV6
    requires { 52 ≤ length block.now }
    ensures address { ipv6_segments (v6_ip result) ≡ segments_of (slice_range block.now 16 32) }
    ensures port { v6_port result ≡ 256 * slice_index block.now 48 + slice_index block.now 49 }
{
    let mut octets = [0; 16];
    octets.copy_from_slice(&block[16..32]);
    let port = 256 * u16::from(block[48]) + u16::from(block[49]);
    SocketAddrV6::new(Ipv6Addr::from_octets(octets), port, 0, 0)
}
