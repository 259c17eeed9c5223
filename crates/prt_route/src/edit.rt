use crate::{Route, RouteKey, Selector};

/// A change of the list of routes.
#[derive(Clone, Copy)]
pub enum RouteEdit {
    /// Put this route in its place in the order of listings, without the one that has its key.
    Put(Route),
    /// Remove the route with this key.
    Remove(RouteKey),
    /// Remove all routes that the selector takes.
    Flush(Selector),
}
