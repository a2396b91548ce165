//! The type of who lends.

/// Who decides on a request.
#[derive(Clone, Copy, Debug, PartialEq, Eq)]
pub enum Lending {
    /// The banker, who keeps the loans safe (Dijkstra, EWD123; Habermann, CACM 12(7), 1969).
    ByBanker,
    /// The cash alone: what it suffices for is granted.
    ByCash,
}
