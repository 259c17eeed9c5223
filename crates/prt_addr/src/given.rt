ghost use Rattle.std.specs.Prelude.{◌≡◌};
ghost use Rattle.prt_addr.specs.Given.{agrees, agrees_there};

/// Checks whether the value is the one that is given, if one is.
pub fn agrees<T: PartialEq>(given: &Option<T>, value: &T) -> bool
    ensures { result ≡ agrees T.eq given.now value.now }
{
    match given {
        Some(given) => given == value,
        None => true,
    }
}

/// Checks whether the value is there and is the one that is given, if one is.
pub fn agrees_there<T: PartialEq>(given: &Option<T>, value: &Option<T>) -> bool
    ensures { result ≡ agrees_there T.eq given.now value.now }
{
    match (given, value) {
        (Some(given), Some(value)) => given == value,
        (Some(_), None) => false,
        (None, _) => true,
    }
}
