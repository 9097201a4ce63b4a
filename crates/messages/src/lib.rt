// Messages as bytes: ten for each, its minute and its data.
#![tactic(auto)]

ghost use Rattle.std.specs.Prelude.{◌≡◌, ◌+◌, ◌*◌, ◌/◌, ◌%◌, ◌≤◌, ◌<◌, length};
ghost use Rattle.messages.specs.Message.{legal_messages, legal_schedule};
ghost use Rattle.messages.specs.Bytes.{message_size, big_endian, message_at, messages_in, schedule_of};
ghost use Rattle.messages.specs.Walk.{remaining, next_minute, all_from};

use calendar::Date;
use plan::Plan;

// A plan with the bytes of its messages.
#[derive(Clone, Copy)]
pub struct Schedule<'a> {
    pub plan: Plan,
    pub messages: &'a [u8],
}

impl Schedule<'_> {
    // Question 1.
    #[tactic(auto, unfolding(crate::specs::Message::legal_schedule))]
    #[inline(always)]
    pub fn is_legal(self) -> bool
        ensures { result ≡ legal_schedule (schedule_of self.entry.plan self.entry.messages.now) }
    {
        self.plan.is_legal() && is_legal(self.messages)
    }
}

// The bytes of a message.
const SIZE: usize = 10;

// The messages that a plan may have.
const LIMIT: usize = 4;

// The end of a message's data: 2 to the 42.
const DATA_END: u64 = 0x400_0000_0000;

// The minute of message k.
fn minute_at(bytes: &[u8], k: usize) -> u32
    requires { k * message_size + message_size ≤ length bytes.now }
    ensures { result ≡ (message_at bytes.now k).minute }
{
    let b = &bytes[k * SIZE..];
    u32::from_be_bytes([b[0], b[1], b[2], b[3]])
}

// The data of message k.
pub fn payload_at(bytes: &[u8], k: usize) -> u64
    requires { k * message_size + message_size ≤ length bytes.now }
    ensures { result ≡ (message_at bytes.now k).payload }
{
    let b = &bytes[k * SIZE + 4..];
    u64::from_be_bytes([0, 0, b[0], b[1], b[2], b[3], b[4], b[5]])
}

// Question 1 of the messages. Most plans have none.
pub fn is_legal(bytes: &[u8]) -> bool
    ensures { result ≡ legal_messages (messages_in bytes.now) }
{
    if bytes.is_empty() {
        return true;
    }
    if bytes.len() % SIZE != 0 {
        return false;
    }
    let count = bytes.len() / SIZE;
    if LIMIT < count {
        return false;
    }
    let mut from = 0;
    for k in 0..count {
        let minute = minute_at(bytes, k);
        if minute < from || Date::MINUTES <= minute || DATA_END <= payload_at(bytes, k) {
            return false;
        }
        from = minute + 1;
    }
    true
}

// The minute of message k, or the end of the range where there is none.
pub fn next_minute(bytes: &[u8], k: usize) -> u32
    requires { (length bytes.now % message_size ≡ 0) × (k ≤ length bytes.now / message_size) }
    ensures { result ≡ next_minute (all_from bytes.now k) }
{
    if k * SIZE < bytes.len() {
        minute_at(bytes, k)
    } else {
        Date::MINUTES
    }
}

// The first message from a minute on.
pub fn first_from(bytes: &[u8], minute: u32) -> usize
    requires { length bytes.now % message_size ≡ 0 }
    ensures { (result ≤ length bytes.now / message_size) × (all_from bytes.now result ≡ remaining minute (messages_in bytes.now)) }
{
    let count = bytes.len() / SIZE;
    for k in 0..count {
        if minute <= minute_at(bytes, k) {
            return k;
        }
    }
    count
}
