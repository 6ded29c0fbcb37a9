// A model file: its format, its records, its sizes and the order of rows and entries; and model W.
#![tactic(auto)]

pub mod format; // format.rt: the format's numbers and the limits
pub mod record; // record.rt: one record's numbers
pub mod sizes; // sizes.rt: records, states and symbols; the order of rows and entries

ghost use Rattle.std.specs.Prelude.{◌≡◌};
ghost use Rattle.model.specs.W.{w_file};

// Model W of document 01: four records.
const W: [u8; 40] = [
    // p Z q L Y X, and the weight 32,768
    0, 0, 0, 0, 0, 0, 0, 128, 0, 0,
    // weight 16,384
    0, 0, 0, 2, 0, 0, 0, 64, 0, 0,
    // weight 16,384
    0, 0, 1, 0, 0, 0, 0, 64, 0, 0,
    // weight 65,536
    1, 0, 1, 0, 0, 0, 0, 0, 1, 0,
];

// The constant table of model W.
pub fn w() -> [u8; 40]
    ensures { result ≡ w_file }
{
    W
}
