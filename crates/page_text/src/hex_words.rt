// A page that was told in words: each tells its high byte first, and the page holds the low one first.
ghost use Rattle.std.specs.Prelude.{◌≡◌};
ghost use Rattle.page_text.specs.HexWords.{swapped_bytes};

use pages::PAGE_SIZE;

#[tactic(auto, using(crate::proofs::Swapping::swap_more, crate::proofs::Swapping::swap_all))]
pub(crate) fn swap_words(mut page: [u8; PAGE_SIZE]) -> [u8; PAGE_SIZE]
    ensures { result ≡ swapped_bytes page }
{
    for word in 0..PAGE_SIZE / 2 {
        page.swap(2 * word, 2 * word + 1);
    }
    page
}
