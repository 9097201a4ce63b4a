// The calls of IRIG 200 format B (document 02, 9).
ghost use Rattle.std.specs.Prelude.{◌≡◌, length};
ghost use Rattle.messages.specs.Bytes.{schedule_of};
ghost use Rattle.irig_rules.specs.Reading.{read_irig};
ghost use Rattle.irig_rules.specs.Writing.{write_irig, elements_written};
ghost use Rattle.irig.specs.Answer.{write_numbers, read_numbers};
ghost use Rattle.wwvb.specs.Replies.{plan_of, reply_numbers};
ghost use Rattle.wwvb.specs.IrigB.{elements_reply, irig_reply};

use irig::Seconds;
use messages::Schedule;
use plan::Plan;
use questions::Refusal;

// The refusal or 0, and the number of elements; refused, that number is 0.
#[repr(C)]
#[derive(Clone, Copy)]
pub struct IrigWriteReply {
    pub refusal: usize,
    pub elements: usize,
}

// The refusal or 0, the day of the year and the second of the day; refused, both are 0.
#[repr(C)]
#[derive(Clone, Copy)]
pub struct IrigReply {
    pub refusal: u32,
    pub day_of_year: u32,
    pub second_of_day: u32,
}

impl From<Result<usize, Refusal>> for IrigWriteReply {
    ghost from_gives = { λ answer reply. elements_reply reply ≡ reply_numbers 1 (write_numbers answer) };

    #[tactic(auto, using(crate::proofs::Refused::not_zero), unfolding(crate::specs::Replies::reply_numbers))]
    fn from(answer: Result<usize, Refusal>) -> IrigWriteReply {
        match answer {
            Ok(elements) => IrigWriteReply {
                refusal: 0,
                elements,
            },
            Err(refusal) => IrigWriteReply {
                refusal: u32::from(refusal) as usize,
                elements: 0,
            },
        }
    }
}

impl From<Result<Seconds, Refusal>> for IrigReply {
    ghost from_gives = { λ answer reply. irig_reply reply ≡ reply_numbers 2 (read_numbers answer) };

    #[tactic(auto, using(crate::proofs::Refused::not_zero), unfolding(crate::specs::Replies::reply_numbers))]
    fn from(answer: Result<Seconds, Refusal>) -> IrigReply {
        match answer {
            Ok(seconds) => IrigReply {
                refusal: 0,
                day_of_year: seconds.day,
                second_of_day: seconds.second,
            },
            Err(refusal) => IrigReply {
                refusal: u32::from(refusal),
                day_of_year: 0,
                second_of_day: 0,
            },
        }
    }
}

// Writes a second of IRIG B by the plan of the six numbers and the messages.
#[unsafe(no_mangle)]
pub extern "C" fn wwvb_write_irig(
    kind: u32,
    spring: u32,
    autumn: u32,
    leap_month: u32,
    leap_sign: i32,
    notice: u32,
    messages: &[u8],
    minute: u32,
    second: u32,
    out: &mut [u8],
) -> IrigWriteReply
    ensures { (elements_reply result
        ≡ reply_numbers 1
        (write_irig (schedule_of (plan_of kind spring autumn leap_month leap_sign notice) messages.now) minute second (length out.old)))
        × (out.new
        ≡ elements_written (schedule_of (plan_of kind spring autumn leap_month leap_sign notice) messages.now) minute second out.old) }
{
    let schedule = Schedule {
        plan: Plan {
            kind,
            spring,
            autumn,
            leap_month,
            leap_sign,
            notice,
        },
        messages,
    };
    IrigWriteReply::from(irig::write_second(schedule, minute, second, out))
}

// Reads a second of IRIG B.
#[unsafe(no_mangle)]
pub extern "C" fn wwvb_read_irig(elements: &[u8]) -> IrigReply
    ensures { irig_reply result ≡ reply_numbers 2 (read_irig elements.now) }
{
    IrigReply::from(irig::read_second(elements))
}
