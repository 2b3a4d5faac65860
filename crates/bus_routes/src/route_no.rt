//! What a route goes by.

/// What a route goes by.
#[derive(Clone, Copy, Debug, PartialEq, Eq)]
pub struct RouteNo {
    /// Its message id.
    pub id: u16,
    /// Its place among the routes, in order of making.
    pub place: u32,
}
