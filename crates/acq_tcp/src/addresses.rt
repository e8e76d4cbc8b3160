//! How many connections each address has.

use std::alloc::Global;
use std::net::{IpAddr, SocketAddr};

/// How many connections each address has, where that is bounded.
#[derive(Drop)]
pub(crate) struct Addresses {
    /// How many it may have.
    most: Option<usize>,
    /// Those that have some.
    counts: Vec<AddressCount>,
}

/// How many connections an address has: one at least.
#[derive(Clone, Copy)]
struct AddressCount {
    address: IpAddr,
    connections: usize,
}

impl Addresses {
    /// None has any, and so many each may have.
    pub(crate) fn new(alloc: Global, most: Option<usize>) -> Addresses {
        Addresses {
            most,
            counts: Vec::new(alloc),
        }
    }

    /// Whether one more may come from there.
    pub(crate) fn admits(&self, peer: SocketAddr) -> bool {
        let Some(most) = self.most else {
            return true;
        };
        for count in self.counts.iter() {
            if count.address == peer.ip() {
                return count.connections < most;
            }
        }
        true
    }

    /// One came from there. Where there is no memory to count it, it isn't counted.
    pub(crate) fn came(&mut self, peer: SocketAddr) {
        if self.most.is_none() {
            return;
        }
        for count in self.counts.iter_mut() {
            if count.address == peer.ip() {
                count.connections = count.connections.saturating_add(1);
                return;
            }
        }
        let _ = self.counts.push(AddressCount {
            address: peer.ip(),
            connections: 1,
        });
    }

    /// One of those went.
    pub(crate) fn went(&mut self, peer: SocketAddr) {
        let mut last = None;
        for (at, count) in self.counts.iter_mut().enumerate() {
            if count.address == peer.ip() {
                count.connections = count.connections.saturating_sub(1);
                if count.connections == 0 {
                    last = Some(at);
                }
                break;
            }
        }
        if let Some(at) = last {
            if at < self.counts.len() {
                self.counts.swap_remove(at);
            }
        }
    }
}
