// The statuses and the error that replies show.

/// Ready.
pub(crate) const READY: u8 = 0x40;

/// Ready, with an error.
pub(crate) const READY_ERROR: u8 = 0x41;

/// The error register of the signature: the device is well.
pub(crate) const WELL: u8 = 0x01;

/// Ready, with data to be moved.
pub(crate) const READY_DATA: u8 = 0x48;
