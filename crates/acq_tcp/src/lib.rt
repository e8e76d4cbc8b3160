//! Connections to a host over TCP: [`TcpConnections`] come one after the other, each waiting for
//! its bytes; the connections of a [`TcpServer`] are served at once, none of them waiting, in the
//! rounds of the crate `acq_rounds`. How long one may be silent, and take for a frame, is bounded
//! in both; where all places of a server are taken, those that sold nothing make room first, and
//! each of its connections may begin with the header of a proxy. Beside them control connections
//! may come over a Unix socket. What it serves it counts, and tells a [`HostLog`].
#![tactic(auto)]

mod addresses;
mod arrivals;
mod book_files;
mod connection_name;
mod control_server;
mod control_stream;
mod control_time;
mod ending;
mod first_bytes;
mod first_seen;
mod frame_clock;
mod frame_head;
mod frame_place;
mod gateway_server;
mod had;
mod held_reply;
mod host_log;
mod journal;
mod line_rate;
mod line_word;
mod listening;
mod log_line;
mod log_target;
mod log_time;
mod look;
mod newcomer;
mod newcomers;
mod open_control;
mod open_gateway;
mod open_places;
mod others;
mod parted;
mod parting;
mod patient_stream;
mod places;
mod refusal;
mod round_time;
mod serving_counts;
mod sockets;
mod standing;
mod tcp_connections;
mod tcp_server;
mod terminal_talk;
mod time_limits;
mod timed_issuer;

pub use host_log::HostLog;
pub use log_target::LogTarget;
pub use sockets::Sockets;
pub use tcp_connections::TcpConnections;
pub use tcp_server::TcpServer;
