// Where the fields stand in bits 0 to 58 of a frame, taken as one number.
#![tactic(auto)]

ghost use Rattle.std.specs.Prelude.{◌≡◌, ◌%◌, ◌^◌, ◌<◌, eqb, get_or};
ghost use Rattle.bits.specs.Bits.{bits, number, pick};
ghost use Rattle.format.specs.Frame.{min_frame, word_in, state_in};
ghost use Rattle.format.specs.Message.{message_body, data_in};
ghost use Rattle.format.specs.Sending.{time_part, day_part};

// The synchronization word, bits 0 to 12.
pub const SYNC: u64 = 0b0011101101000;

// That of a message.
pub const MESSAGE_SYNC: u64 = 0b1101000111010;

// Bits 0 to 46 of a frame, as a number, from its time word and echo.
pub fn time_part(time: u64, echo: u64) -> u64
    requires { («time» < 2 ^ 31) × (echo < 2) }
    ensures { result ≡ number (time_part (bits 31 «time») echo) }
{
    let a = (SYNC * 64 + time / 0x200_0000) * 2 + echo;
    let b = a * 512 + time / 0x1_0000 % 512;
    let c = b * 1024 + time / 128 % 512;
    c * 256 + time % 128
}

// Bits 47 to 58 of a frame, as a number, from its state word, notice and next-change word.
pub fn day_part(state: u64, notice: u64, next: u64) -> u64
    requires { (state < 32) × (notice < 2) × (next < 64) }
    ensures { result ≡ number (day_part (bits 5 state) notice (bits 6 next)) }
{
    ((state / 8 * 2 + notice) * 8 + state % 8) * 64 + next
}

// Bits 0 to 58 of a message, as a number, from its data, echo and notice.
pub fn message_part(payload: u64, echo: u64, notice: u64) -> u64
    requires { (payload < 2 ^ 42) × (echo < 2) × (notice < 2) }
    ensures { result ≡ number (message_body (bits 42 payload) echo notice) }
{
    let a = (MESSAGE_SYNC * 64 + payload / 0x10_0000_0000) * 2 + echo;
    let b = a * 512 + payload / 0x800_0000 % 512;
    let c = b * 1024 + payload / 0x4_0000 % 512;
    let d = c * 1024 + payload / 512 % 512;
    (d * 2 + notice) * 512 + payload % 512
}

// The time word in the bits 0 to 58 of a frame.
pub fn time_word(word: u64) -> u32
    ensures { result ≡ number (word_in (bits min_frame word)) }
{
    let high = (word >> 40) % 64 * 512 + (word >> 30) % 512;
    let low = (word >> 20) % 512 * 128 + (word >> 12) % 128;
    (high * 0x1_0000 + low) as u32
}

pub fn state_bits(word: u64) -> u8
    ensures { result ≡ number (state_in (bits min_frame word)) }
{
    ((word >> 10) % 4 * 8 + (word >> 6) % 8) as u8
}

// The data in the bits 0 to 58 of a message.
pub fn message_data(word: u64) -> u64
    ensures { result ≡ number (data_in (bits min_frame word)) }
{
    let a = (word >> 40) % 64 * 512 + (word >> 30) % 512;
    let b = a * 512 + (word >> 20) % 512;
    let c = b * 512 + (word >> 10) % 512;
    c * 512 + word % 512
}

// The echo in the bits 0 to 58 of a frame.
pub fn echo_bit(word: u64) -> u64
    ensures { result ≡ get_or (bits min_frame word) 19 0 }
{
    (word >> 39) % 2
}

// The notice in a frame.
pub fn notice_bit(word: u64) -> u8
    ensures { result ≡ get_or (bits min_frame word) 49 0 }
{
    ((word >> 9) % 2) as u8
}

// 1 where the echo in a frame equals the minute's time[0].
pub fn echo_right(word: u64, minute: u32) -> u8
    ensures { result ≡ pick (eqb (get_or (bits min_frame word) 19 0) («minute» % 2)) 1 0 }
{
    u8::from(echo_bit(word) == u64::from(minute % 2))
}
