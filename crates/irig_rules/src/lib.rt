// IRIG 200 format B: definitions and theorems, no code. The struct is a record of the definitions.
#![tactic(auto)]

// The time of a second as its elements show it: the day of the year, which is counted from 1, hour, minute and second.
#[derive(Clone, Copy)]
pub struct Clock {
    pub day: u32,
    pub hour: u32,
    pub minute: u32,
    pub second: u32,
}
