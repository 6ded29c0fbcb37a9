// The format of a model file and its limits, each under the name that specs/Format.antt gives it; and what weights count, under the name of
// specs/Units.antt of crate ppda.

// The bytes of a record, and where each field stands in it.
pub const RECORD_BYTES: usize = 10;

pub const STATE_BYTE: usize = 0;

pub const SYMBOL_BYTE: usize = 1;

pub const TARGET_BYTE: usize = 2;

pub const PUSHES_BYTE: usize = 3;

pub const TOP_BYTE: usize = 4;

pub const UNDER_BYTE: usize = 5;

pub const WEIGHT_BYTE: usize = 6;

// The base of the number by which records are compared, of which each byte is a digit.
pub const KEY_BASE: u64 = 256;

// The bytes of the longest file.
pub const MOST_BYTES: usize = 10240;

// How many states and symbols there may be, how many symbols a rule may push, and how many rows and entries that makes.
pub const MOST_STATES: usize = 8;

pub const MOST_SYMBOLS: usize = 16;

pub const MOST_PUSHES: usize = 2;

pub const MOST_ROWS: usize = 128;

pub const MOST_ENTRIES: usize = 1024;

// What a weight counts: the weights of a row sum to this.
pub const WEIGHT_UNIT: u64 = 65536;
