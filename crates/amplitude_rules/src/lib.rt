// The amplitude code: definitions and theorems, no code. The structs are records of the definitions.
#![tactic(auto)]

// The numbers in the fields of a minute; the day of the year is counted from 1, the year from 2000.
#[derive(Clone, Copy)]
pub struct Fields {
    pub minute: u32,
    pub hour: u32,
    pub day: u32,
    pub sign: u32,
    pub tenths: u32,
    pub year: u32,
    pub leap: u32,
    pub warning: u32,
    pub daylight: u32,
}

// The values of a minute: its number, UT1 as a sign and tenths, leap warning, daylight state and length.
#[derive(Clone, Copy)]
pub struct Values {
    pub minute: u32,
    pub sign: i32,
    pub tenths: u32,
    pub warning: u32,
    pub daylight: u32,
    pub seconds: u32,
}

// UT1 of a minute: its sign, 1 or -1, and tenths of a second.
#[derive(Clone, Copy)]
pub struct Ut1 {
    pub sign: i32,
    pub tenths: u32,
}
