//! What is in one cell, written.

ghost use Rattle.std.specs.Prelude.{◌≡◌, ◌<◌, ◌^◌, IfSome, true};
ghost use Rattle.sqlite.specs.Values.{bound_value};
ghost use Rattle.sqlite_value.specs.Value.{owned};
ghost use Rattle.prt_route.specs.Name.{is_name};
ghost use Rattle.prt_rows.specs.Cell.{IsNumber, IsOptionalAddr, IsOptionalName, flag, number, optional_addr, optional_name, optional_number};

use prt_addr::Addr;
use prt_route::Dev;
use sqlite::types::ValueRef;

/// Builds the cell of a number.
pub(crate) fn number(n: u32) -> ValueRef<'static>
    ensures value { bound_value (owned result) ≡ number n }
    ensures number { IsNumber n }
{
    ValueRef::Int(i64::from(n))
}

/// Builds the cell of a number below 2^63.
pub(crate) fn large_number(n: u64) -> ValueRef<'static>
    requires { n < 2 ^ 63 }
    ensures { bound_value (owned result) ≡ number n }
{
    ValueRef::Int(n as i64)
}

/// Builds the cell of a number that may be absent: -1 if it is.
pub(crate) fn optional_number(n: Option<u32>) -> ValueRef<'static>
    ensures value { bound_value (owned result) ≡ optional_number n }
    ensures number { IfSome n IsNumber }
{
    match n {
        Some(n) => ValueRef::Int(i64::from(n)),
        None => ValueRef::Int(-1),
    }
}

/// Builds the cell of an address that may be absent: -1 if it is.
pub(crate) fn optional_addr(addr: Option<Addr>) -> ValueRef<'static>
    ensures value { bound_value (owned result) ≡ optional_addr addr }
    ensures addr { IsOptionalAddr addr }
{
    optional_number(addr.map(|addr| addr.0))
}

/// Recalls that the bytes of a `Dev` are a name, which its type keeps. One that is passed as a value shows it, one
/// behind a reference doesn't.
fn recall_name(dev: Dev)
    ensures { is_name dev ≡ true }
{}

/// Builds the cell of a name that may be absent: the empty text if it is, which is no name.
pub(crate) fn optional_name(dev: &Option<Dev>) -> ValueRef<'_>
    ensures value { bound_value (owned result) ≡ optional_name dev.now }
    ensures name { IsOptionalName dev.now }
{
    match dev {
        Some(name) => {
            recall_name(*name);
            ValueRef::Text(name.as_bytes())
        }
        None => ValueRef::Text(&[]),
    }
}

/// Builds the cell of a flag: 1 if it is set, and 0 if it is not.
pub(crate) fn flag(is_set: bool) -> ValueRef<'static>
    ensures { bound_value (owned result) ≡ flag is_set }
{
    number(u32::from(is_set))
}
