// What a page of IDENTIFY DEVICE tells, of any device. What it does not tell has no value, and is no 0.
ghost use Rattle.std.specs.Prelude.{◌≡◌, ◌<◌};
ghost use Rattle.identity.specs.Read.{word_in, queue_told, capacity_told, IdentityGiven};

use pages::{PAGE_SIZE, byte_sum};
use refusals::Refusal;

/// What a page of IDENTIFY DEVICE tells.
#[derive(Clone, Copy, Debug, PartialEq, Eq)]
pub struct Identified {
    /// how many commands can be outstanding, 1 to 32, where it tells of native queuing
    pub queue: Option<u8>,
    /// sectors that can be addressed, where it tells of 48-bit addresses
    pub capacity: Option<u64>,
}

// The word that tells the queue depth less one.
const DEPTH: usize = 75;

// The word that tells what the device has of Serial ATA.
const CAPABILITIES: usize = 76;

// The word that tells of 48-bit addresses.
const COMMAND_SETS: usize = 83;

// The first of the four words that tell the capacity.
const CAPACITY: usize = 100;

// Where the byte stands that says that the last byte is a sum.
const SIGNATURE_AT: usize = PAGE_SIZE - 2;

// That byte.
const SIGNATURE: u8 = 0xA5;

// A word of the page.
fn word_in(page: &[u8; PAGE_SIZE], index: usize) -> u16
    requires { index < 256 }
    ensures { result ≡ word_in page.now index }
{
    bits::le16(page, 2 * index)
}

// Word 76 is that of a Serial ATA device unless it is 0000h or FFFFh, and its bit 8 says that there is native queuing.
fn queue_told(page: &[u8; PAGE_SIZE]) -> Option<u8>
    ensures { result ≡ queue_told page.now }
{
    let capabilities = word_in(page, CAPABILITIES);
    if capabilities == 0 || capabilities == 0xffff || !bits::bit(u32::from(capabilities), 8) {
        return None;
    }
    Some((word_in(page, DEPTH) & 31) as u8 + 1)
}

// Word 83 counts where its bits 15:14 are 01b, and its bit 10 says that there are 48-bit addresses.
fn capacity_told(page: &[u8; PAGE_SIZE]) -> Option<u64>
    ensures { result ≡ capacity_told page.now }
{
    let commands = word_in(page, COMMAND_SETS);
    if commands >> 14 != 1 || !bits::bit(u32::from(commands), 10) {
        return None;
    }
    Some(bits::le(page, 2 * CAPACITY, 8))
}

/// Reads a page of IDENTIFY DEVICE: what it tells; `PageLength` where it is not 512 bytes long, else `PageSum` where its
/// sum is wrong or A5h is missing.
#[tactic(auto, unfolding(crate::specs::Read::read_identity, refusals::specs::First::first_of))]
pub fn read_identity(page: &[u8]) -> Result<Identified, Refusal>
    ensures { IdentityGiven page.now result }
{
    let page: &[u8; PAGE_SIZE] = page.try_into().map_err(|_| Refusal::PageLength)?;
    if byte_sum(page) != 0 || page[SIGNATURE_AT] != SIGNATURE {
        return Err(Refusal::PageSum);
    }
    Ok(Identified {
        queue: queue_told(page),
        capacity: capacity_told(page),
    })
}
