// The frames of Serial ATA: a reader and a writer for each kind; the parts that several share, the lengths of the kinds, the writer that refuses, and the cut of several frames. Every public function is total and has no `requires`.
#![tactic(auto)]

mod cutting;
mod emitting;
mod kinds;
mod log_pages;
mod reading;
mod shapes;
mod shared;
mod sizes;
mod writing;

pub use cutting::{Frames, frames_of};
pub use emitting::emit;
pub use kinds::FrameKind;
pub use log_pages::LogPage;
pub use reading::read_frame;
pub use shapes::{DevReg, DmaSetup, Frame, HostReg, PioSetup, SetBits};
pub use shared::{
    Registers, Task, byte_of, flag, flags, halves, payload_of, sectors_of, srst, tag_of,
};
pub use sizes::{
    DATA_FRAME_LIMIT, DATA_HEAD, DATA_HEAD_SIZE, PAYLOAD_LIMIT, fixed_size, is_payload_size,
};
pub use writing::{
    write_activate, write_bist, write_bits, write_data, write_device, write_host, write_pio,
    write_setup,
};
