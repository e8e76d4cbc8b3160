//! Where bytes come from and where they go: sources and sinks, and frames on a link.
#![tactic(auto)]

mod call;
mod deframe_fault;
mod deframer;
mod failed;
mod frame_sending;
mod frames;
mod front;
pub mod hex_frames;
mod input_fault;
pub mod laws;
mod memory_sink;
mod read_source;
mod sink;
mod slice_source;
mod source;
mod transcript;
mod transfer;
mod write_sink;

pub use call::Call;
pub use deframe_fault::DeframeFault;
pub use deframer::Deframer;
pub use failed::Failed;
pub use frame_sending::send_frame;
pub use frames::{LONGEST_FRAME, LONGEST_MESSAGE, frame_at};
pub use front::Front;
pub use input_fault::InputFault;
pub use memory_sink::MemorySink;
pub use read_source::ReadSource;
pub use sink::Sink;
pub use slice_source::SliceSource;
pub use source::Source;
pub use transcript::Transcript;
pub use transfer::{read_to_end, write_out};
pub use write_sink::WriteSink;
