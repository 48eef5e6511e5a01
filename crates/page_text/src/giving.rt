// A whole text in front of a buffer.
ghost use Rattle.page_text.specs.Given.{WholeTextGiven};

/// The text, or as much of its front as has room: its length, or 0 where it is cut.
pub(crate) fn give_whole(out: &mut [u8], text: &[u8]) -> usize
    ensures { WholeTextGiven text.now out.old result out.new }
{
    let room = text.len().min(out.len());
    out[..room].copy_from_slice(&text[..room]);
    if room < text.len() { 0 } else { room }
}
