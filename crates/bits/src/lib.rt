// Bits, little-endian numbers and copies: no word of Serial ATA. Every public function is total and has no `requires`.
#![tactic(auto)]

mod copying;
mod little;
mod mask;
mod parts;

pub use copying::lay;
pub use little::{le, le16, le32};
pub use mask::{bit, with_bit};
pub use parts::part;
