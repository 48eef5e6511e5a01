// The page that stands behind an hour.
ghost use Rattle.std.specs.Prelude.{◌≡◌, ℕ, List, IfOk};
ghost use Rattle.hex.specs.Hex.{decode_of};
ghost use Rattle.hourly_run.specs.Kept.{page_told};
ghost use Rattle.hourly_run.specs.Pages.{shelved, in_hex, MayRead, MayOpen, MayGive};

use crate::saying::failure;
use hex::FromHexError;
use page_text::Shelf;
use pages::PAGE_SIZE;
use std::alloc::{AllocError, Global};
use std::io::Read;
use std::str;

/// So many bytes of a file are read: one more than a page has, so that a file that is longer shows.
const READ_LIMIT: u64 = PAGE_SIZE as u64 + 1;

fn page_in_hex(alloc: Global, digits: &[u8]) -> Result<Result<Vec<u8>, Vec<u8>>, AllocError>
    ensures { IfOk result (λ page. page_told page ≡ in_hex (decode_of digits.now)) }
{
    match hex::decode(alloc, digits) {
        Ok(page) => Ok(Ok(page)),
        Err(FromHexError::OutOfMemory) => Err(AllocError),
        Err(_) => Ok(Err(Vec::from_slice(alloc, b"the page is not in hex")?)),
    }
}

// Where a read fails, what that keeps from us may be the rest of the page. So may memory that runs out for it.
fn page_from<R: Read + Drop>(
    alloc: Global,
    reader: R,
) -> Result<Result<Vec<u8>, Vec<u8>>, AllocError>
    ensures { IfOk result (λ page. MayRead (Some (R.remaining reader)) (page_told page)) }
{
    let mut page = Vec::new(alloc);
    match reader.take(READ_LIMIT).read_to_end(&mut page) {
        Ok(_) => Ok(Ok(page)),
        Err(error) => Ok(Err(failure(alloc, b"read failed: ", error)?)),
    }
}

fn page_in_file<S: Shelf>(
    alloc: Global,
    shelf: &S,
    name: &str,
) -> Result<Result<Vec<u8>, Vec<u8>>, AllocError>
    ensures { IfOk result (λ page. MayOpen (S.holds shelf.now name.now) (page_told page)) }
{
    match shelf.open(name) {
        Ok(file) => page_from(alloc, file),
        Err(error) => Ok(Err(failure(alloc, b"not opened: ", error)?)),
    }
}

/// The page behind an hour: in the file of that name, or in hex where no file is named; or why there is none, in words.
pub(crate) fn page_of<S: Shelf>(
    alloc: Global,
    shelf: Option<&S>,
    behind: &[u8],
) -> Result<Result<Vec<u8>, Vec<u8>>, AllocError>
    ensures { IfOk result (λ page. MayGive (shelved S.holds shelf.entry) behind.now (page_told page)) }
{
    let Some(shelf) = shelf else {
        return page_in_hex(alloc, behind);
    };
    match str::from_utf8(behind) {
        Ok(name) => page_in_file(alloc, shelf, name),
        Err(_) => Ok(Err(Vec::from_slice(alloc, b"the name is no text")?)),
    }
}
