//! Places of faults, and the first of them.
ghost use Rattle.std.specs.Prelude.{◌≡◌};
ghost use Rattle.pg_rules.specs.Places as spec;

/// The sooner of two places.
pub fn sooner(a: Option<u32>, b: Option<u32>) -> Option<u32>
    ensures { result ≡ spec.sooner a b }
{
    match (a, b) {
        (None, _) => b,
        (Some(_), None) => a,
        (Some(x), Some(y)) => Some(if x <= y { x } else { y }),
    }
}

/// A place, where there is a fault.
pub fn place_if(fault: bool, at: u32) -> Option<u32>
    ensures { result ≡ spec.least (spec.place_if fault at) }
{
    if fault { Some(at) } else { None }
}
