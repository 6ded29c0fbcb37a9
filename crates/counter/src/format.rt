// The format of a counter file and its limits, each under the name that specs/Format.antt gives it.

// The bytes of a record, and where each field stands in it.
pub const RECORD_BYTES: usize = 8;

pub const FROM_BYTE: usize = 0;

pub const TO_BYTE: usize = 1;

pub const SHIFT_BYTE: usize = 2;

pub const ZERO_BYTE: usize = 3;

pub const WEIGHT_BYTE: usize = 4;

// The greatest d, and the records and the bytes of the longest file.
pub const MOST_SHIFT: usize = 2;

pub const MOST_RECORDS: usize = 192;

pub const MOST_BYTES: usize = 1536;
