// Reading a message.
ghost use Rattle.std.specs.Prelude.{◌≡◌, take};
ghost use Rattle.questions.specs.Questions.{asked};
ghost use Rattle.bits.specs.Bits.{bits};
ghost use Rattle.format.specs.Frame.{min_frame};
ghost use Rattle.format.specs.Questions.{message_in, question20, message_questions};
ghost use Rattle.format.specs.Next.{refused, entry};
ghost use Rattle.frame.specs.Answer.{frame_numbers};

use crate::{Frame, Told};
use calendar::Date;
use format::Due;
use questions::Refusal;

// Question 20: the last minute of a month needs the month's leap state.
fn is_known(leap: u8, minute: u32) -> bool
    ensures { result ≡ question20 (Due.Minute minute leap) }
{
    leap < crate::LEAP_UNKNOWN || !Date::is_last_of_month(minute)
}

// Questions 20, 11, 13 and 14, of a message whose first 59 bits are read, in the place of the counted minute.
fn read_counted(
    frame: &[u8],
    alone: bool,
    word: u64,
    minute: u32,
    leap: u8,
) -> Result<Frame, Refusal>
    requires { take min_frame frame.now ≡ bits min_frame word }
    ensures { frame_numbers result
        ≡ asked refused
        (message_questions (Due.Minute minute leap) alone frame.now (message_in (Due.Minute minute leap) frame.now))
        (entry (message_in (Due.Minute minute leap) frame.now)) }
{
    if !is_known(leap, minute) {
        return Err(Refusal::UnknownLength);
    }
    if Date::MINUTES <= minute {
        return Err(Refusal::BadMinute);
    }
    let length = crate::seconds_for(leap, minute);
    if !crate::ends_right(frame, alone, length) {
        return Err(Refusal::BadLength);
    }
    if layout::echo_bit(word) != u64::from(minute % 2) {
        return Err(Refusal::OutOfOrder);
    }
    let notice = layout::notice_bit(word);
    let payload = layout::message_data(word);
    let told = Told {
        minute,
        length,
        notice,
        payload,
    };
    Ok(Frame::Message(told))
}

// Questions 19, 20, 11, 13 and 14, of a message whose first 59 bits are read.
pub fn read(frame: &[u8], alone: bool, word: u64, due: Due) -> Result<Frame, Refusal>
    requires { take min_frame frame.now ≡ bits min_frame word }
    ensures { frame_numbers result
        ≡ asked refused (message_questions due alone frame.now (message_in due frame.now)) (entry (message_in due frame.now)) }
{
    match due {
        Due::Any => Err(Refusal::FirstMessage),
        Due::Minute(minute, leap) => read_counted(frame, alone, word, minute, leap),
    }
}
