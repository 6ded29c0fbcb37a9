// The self-test on the constant table of model W.

ghost use Rattle.std.specs.Prelude.{◌≡◌};
ghost use Rattle.report.specs.SelfTest.{test_filed, passed};

use register::{Filed, Register};

// What filing W gives, and what filing W without its last byte does.
#[derive(Clone, Copy)]
pub struct Filings {
    pub whole: Filed,
    pub cut: Filed,
}

// Files each of the two in an empty register.
pub fn file_w() -> Filings
    ensures { result ≡ test_filed }
{
    let w = model::w();
    let whole = Register::empty().file_model(&w);
    let cut = Register::empty().file_model(&w[..39]);
    Filings { whole, cut }
}

// Whether W was accepted, and W without its last byte was not.
pub fn passed(filings: Filings) -> bool
    ensures { result ≡ passed filings }
{
    filings.whole.outcome.is_ok() && filings.cut.outcome.is_err()
}
