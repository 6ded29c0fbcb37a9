// The format of a delivery file, each number under the name that specs/Format.antt gives it; and the units and ranges of its values, under the
// names of specs/Units.antt of crate ppda. Of the bytes of the longest file no definition speaks: a buffer that holds any accepted file needs them.

use model::format::{MOST_ENTRIES, MOST_ROWS};

// The bytes of a record, and where each field stands in it.
pub const RECORD_BYTES: usize = 8;

pub const KIND_BYTE: usize = 0;

pub const STATE_BYTE: usize = 1;

pub const SYMBOL_BYTE: usize = 2;

pub const EXIT_BYTE: usize = 3;

pub const VALUE_BYTE: usize = 4;

// The kinds of records.
pub const UPPER_KIND: usize = 85;

pub const LOWER_KIND: usize = 76;

pub const MEAN_KIND: usize = 82;

// The records and the bytes of the longest file.
pub const MOST_RECORDS: usize = MOST_ENTRIES + MOST_ENTRIES + MOST_ROWS;

pub const MOST_BYTES: usize = RECORD_BYTES * MOST_RECORDS;

// What uppers and lowers count, and the greatest of them.
pub const CHANCE_UNIT: u64 = 1048576;

pub const MOST_CHANCE: u64 = 2097152;

// What mean steps count, and the least and the greatest of them.
pub const STEP_UNIT: u64 = 256;

pub const LEAST_MEAN: u64 = 256;

pub const MOST_MEAN: u64 = 4194304;

// How many units of a sum a filed number counts.
pub const SUM_UNIT: u64 = 68719476736;
