//! Headers of version 1: a line of text (The PROXY protocol, 2.1).

ghost use Rattle.std.specs.Prelude.{◌≡◌, ◌≤◌, ◌++◌, ◌∷◌, IfNone, IfSome, codes, length, take, true};
ghost use Rattle.std.specs.Net.Grammar.{IsIpText};
ghost use Rattle.std.specs.Net.Socket.{socket_ip, socket_port};
ghost use Rattle.acq_proxy.specs.Lines.{HasNoLineEnd, IsLineEnd, IsLineFront, IsPortWord};
ghost use Rattle.acq_proxy.specs.Lines.{NamesPeer, family_of, space};

use crate::header::Header;
use std::net::{IpAddr, SocketAddr};
use std::str;

/// How a line begins.
pub(crate) const MARK: [u8; 6] = *b"PROXY ";

/// Its first word.
const PROXY: [u8; 5] = *b"PROXY";

/// How one begins that names nobody.
const UNKNOWN: [u8; 13] = *b"PROXY UNKNOWN";

/// The most bytes of a line with its end.
const LONGEST_LINE: usize = 107;

/// The most digits of a port.
const MOST_DIGITS: usize = 5;

/// What stands at the front of bytes that begin as a line does.
pub(crate) fn line_at(bytes: &[u8]) -> Header
    ensures { IsLineFront bytes.now result }
{
    match line_end(bytes) {
        Some(end) => front_of(bytes, end),
        None if bytes.len() < LONGEST_LINE => Header::Partial,
        None => Header::Missing,
    }
}

/// What a line is that ends there.
fn front_of(bytes: &[u8], end: usize) -> Header
    requires { IsLineEnd bytes.now end }
    ensures { IsLineFront bytes.now result }
{
    let line = &bytes[..end];
    if names_nobody(line) {
        return Header::Whole {
            bytes: end + 2,
            peer: None,
        };
    }
    match peer_in(line) {
        Some(peer) => Header::Whole {
            bytes: end + 2,
            peer: Some(peer),
        },
        None => Header::Missing,
    }
}

/// Whether the line says that it names nobody.
fn names_nobody(line: &[u8]) -> bool
    ensures { result ≡ true → take 13 line.now ≡ codes "PROXY UNKNOWN" }
{
    line.len() >= UNKNOWN.len() && &line[..UNKNOWN.len()] == UNKNOWN.as_slice()
}

/// Where the line's CR and LF stand, if they do. One of them alone ends no line.
fn line_end(bytes: &[u8]) -> Option<usize>
    ensures some { IfSome result (λ end. IsLineEnd bytes.now end) }
    ensures none { IfNone result (HasNoLineEnd bytes.now) }
{
    let most = bytes.len().min(LONGEST_LINE);
    for end in 1..most {
        if bytes[end - 1] == b'\r' && bytes[end] == b'\n' {
            return Some(end - 1);
        }
    }
    None
}

/// Who is behind the proxy, if the line says it.
fn peer_in(line: &[u8]) -> Option<SocketAddr>
    ensures { IfSome result (λ peer. NamesPeer line.now peer) }
{
    let (family, words) = word_in(words_in(line)?)?;
    let (source, words) = word_in(words)?;
    let (destination, ports) = word_in(words)?;
    let (port, other_port) = word_in(ports)?;
    let ip = address_in(family, source)?;
    address_in(family, destination)?;
    port_in(other_port)?;
    Some(SocketAddr::new(ip, port_in(port)?))
}

/// What stands behind the line's first word, if that is the one.
fn words_in(line: &[u8]) -> Option<&[u8]>
    ensures { IfSome result (λ words. line.now ≡ codes "PROXY" ++ space ∷ words.now) }
{
    let (first, words) = word_in(line)?;
    if first == PROXY.as_slice() {
        Some(words)
    } else {
        None
    }
}

/// The first word of a text, and what stands behind the space that ends it.
fn word_in(text: &[u8]) -> Option<(&[u8], &[u8])>
    ensures { IfSome result (λ words. text.now ≡ words.0.now ++ space ∷ words.1.now) }
{
    for at in 0..text.len() {
        if text[at] == b' ' {
            return Some((&text[..at], &text[at + 1..]));
        }
    }
    None
}

/// The address that a word spells, if it is one of this family.
fn address_in(family: &[u8], word: &[u8]) -> Option<IpAddr>
    ensures family { IfSome result (λ ip. family.now ≡ family_of ip) }
    ensures spelled { IfSome result (λ ip. IsIpText word.now ip) }
{
    let ip = IpAddr::parse_ascii(word).ok()?;
    let wanted = match ip {
        IpAddr::V4(_) => b"TCP4",
        IpAddr::V6(_) => b"TCP6",
    };
    if family == wanted.as_slice() {
        Some(ip)
    } else {
        None
    }
}

/// The port that a word spells.
fn port_in(word: &[u8]) -> Option<u16>
    ensures { IfSome result (λ port. IsPortWord word.now port) }
{
    if word.is_empty() || word.len() > MOST_DIGITS || word[0] == b'+' {
        return None;
    }
    if word[0] == b'0' && word.len() > 1 {
        return None;
    }
    str::from_utf8(word).ok()?.parse::<u16>().ok()
}
