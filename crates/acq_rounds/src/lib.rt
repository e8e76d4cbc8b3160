//! Many connections to one host, in rounds, without sockets.
//!
//! [`Rounds`] holds the connections that are open, each a [`Place`]: a line whose reads and writes
//! don't wait, and what is said over it, a [`Talk`]. Connections come and go at a [`Gate`]. In a
//! round each connection reads; of each whose next [`Turn`] is ready the host takes it, all of them
//! in one group ([`take_together`]); and only behind the group is anything held to be written. A
//! turn is a message, or the answer of an issuer that answers later to what a message asked; until
//! it is there, the connection takes no further message, and the others go on. What a whole run
//! leaves stands in `specs/Runs.antt`.
#![tactic(auto)]

mod gate;
mod past;
mod place;
mod rounds;
mod said;
mod serving;
mod stage;
mod taking;
mod talk;
mod turn;

pub use gate::Gate;
pub use past::{Last, Past};
pub use place::Place;
pub use rounds::Rounds;
pub use said::{Said, Settled};
pub use serving::serve;
pub use stage::Stage;
pub use taking::take_together;
pub use talk::Talk;
pub use turn::Turn;
