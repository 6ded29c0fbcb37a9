// Parts of files: a record, a walker over a file's records, and the offending record.
#![tactic(auto)]

pub mod offending; // offending.rt: the record that a refusal names
pub mod record; // record.rt: a record as a part of its file
pub mod walker; // walker.rt: a file with the number of its next record
