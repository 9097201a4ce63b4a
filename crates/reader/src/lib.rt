// The next frame in the reader's state: alone, of a recording, or after others.
#![tactic(auto)]

ghost use Rattle.std.specs.Prelude.{◌≡◌};
ghost use Rattle.format.specs.Next.{read_next};
ghost use Rattle.frame.specs.Answer.{frame_numbers};

use format::Due;
use frame::Frame;
use questions::Refusal;

// Reads the frame at the front of a slice in a state: one frame alone, or the next frame of a recording.
pub fn read_next(frame: &[u8], alone: bool, due: Due) -> Result<Frame, Refusal>
    ensures { frame_numbers result ≡ read_next due alone frame.now }
{
    if frame.len() < frame::BODY {
        return Err(Refusal::TooShort);
    }
    let Some(word) = bits::gather(&frame[..frame::BODY]) else {
        return Err(Refusal::NotBits);
    };
    frame::read_frame(frame, alone, word, due)
}
