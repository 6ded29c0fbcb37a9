// The calls for C hosts, which include/bounds.h declares: those of crate bounds, exported.
#![tactic(auto)]

ghost use Rattle.std.specs.Prelude.{◌≡◌};
ghost use Rattle.wellformed.specs.Verdict.{model_verdict};
ghost use Rattle.verdict.specs.Verdict.{verdict};
ghost use Rattle.bounds.specs.Codes.{code_of, shortfall_of};

// Checks a model.
#[unsafe(no_mangle)]
pub extern "C" fn bounds_check_model(model: &[u8]) -> u32
    ensures { result ≡ code_of (model_verdict model.now) }
{
    bounds::bounds_check_model(model)
}

// Checks a delivery with its model, which is tested first.
#[unsafe(no_mangle)]
pub extern "C" fn bounds_check_delivery(model: &[u8], delivery: &[u8]) -> u32
    ensures { result ≡ code_of (verdict model.now delivery.now) }
{
    bounds::bounds_check_delivery(model, delivery)
}

// The shortfall of the same check: 0 when accepted.
#[unsafe(no_mangle)]
pub extern "C" fn bounds_delivery_shortfall(model: &[u8], delivery: &[u8]) -> i64
    ensures { result ≡ shortfall_of (verdict model.now delivery.now) }
{
    bounds::bounds_delivery_shortfall(model, delivery)
}
