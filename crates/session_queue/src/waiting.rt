use rpc_peer::Id;

/// A request that waits.
#[derive(Drop)]
pub struct Waiting<T> {
    pub id: Id,
    /// The ordinal of its message among the frames of the input, from 1.
    pub number: u64,
    /// What it asks for.
    pub call: T,
    /// It is to be cancelled.
    pub cancelled: bool,
}
