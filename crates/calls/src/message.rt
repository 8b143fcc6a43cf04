// Messages in the lent area.
ghost use Rattle.std.specs.Prelude.{◌≡◌};
ghost use Rattle.calls.specs.Messages.{message_in};

use numbers::MESSAGE_WORDS;

// The message of `words` words at `index` of the area, as sixteen words. Words past the area and past the message are zero.
pub fn message_in(area: &[u32], index: u32, words: u8) -> [u32; MESSAGE_WORDS]
    ensures { result ≡ message_in area.now index words }
{
    let start = area.len().min(index as usize);
    let count = (words as usize).min(MESSAGE_WORDS).min(area.len() - start);
    let mut message = [0; MESSAGE_WORDS];
    message[..count].copy_from_slice(&area[start..start + count]);
    message
}
