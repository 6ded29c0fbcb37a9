// A delivery file: its format, its records and its shapes.
#![tactic(auto)]

pub mod format; // format.rt: the format's numbers, units and ranges
pub mod record; // record.rt: one record's numbers
pub mod shape; // shape.rt: the four shapes, and which of them a file has
