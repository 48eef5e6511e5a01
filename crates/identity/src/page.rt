// The page made by value, for the writer that refuses.
ghost use Rattle.std.specs.Prelude.{◌≡◌};
ghost use Rattle.identity.specs.Page.{identity_page};

use crate::words::Identity;
use pages::PAGE_SIZE;

// Word by word from zeros, and the sum byte last.
pub(crate) fn page_bytes(identity: Identity) -> [u8; PAGE_SIZE]
    ensures { result ≡ identity_page identity }
{
    let mut page = [0u8; PAGE_SIZE];
    for index in 0..PAGE_SIZE / 2 {
        bits::lay(&mut page[2 * index..], &identity.word_bytes(index));
    }
    pages::seal(&mut page);
    page
}
