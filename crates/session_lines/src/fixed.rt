//! The frames that most sessions begin and end with.

/// The request that opens a session, with id 1.
pub const INITIALIZE: &[u8] =
    b"Content-Length: 180\r\n\r\n{\"jsonrpc\":\"2.0\",\"id\":1,\"method\":\"build/initialize\",\"params\":{\"displayName\":\"t\",\"version\":\"1\",\"bspVersion\":\"2.2.0\",\"rootUri\":\"file:///w\",\"capabilities\":{\"languageIds\":[\"oberon\"]}}}";

/// A shutdown with id 2.
pub const SHUTDOWN: &[u8] =
    b"Content-Length: 50\r\n\r\n{\"jsonrpc\":\"2.0\",\"id\":2,\"method\":\"build/shutdown\"}";

/// The notification that ends a session.
pub const EXIT: &[u8] =
    b"Content-Length: 39\r\n\r\n{\"jsonrpc\":\"2.0\",\"method\":\"build/exit\"}";

/// The answer to `INITIALIZE`.
pub const INITIALIZED: &[u8] =
    b"Content-Length: 327\r\n\r\n{\"id\":1,\"jsonrpc\":\"2.0\",\"result\":{\"bspVersion\":\"2.2.0\",\"capabilities\":{\"buildTargetChangedProvider\":true,\"canReload\":true,\"compileProvider\":{\"languageIds\":[\"oberon\"]},\"inverseSourcesProvider\":true,\"runProvider\":{\"languageIds\":[\"oberon\"]},\"testProvider\":{\"languageIds\":[\"oberon\"]}},\"displayName\":\"oberon-bsp\",\"version\":\"1.0.0\"}}";

/// The answer to `SHUTDOWN`.
pub const CLOSED: &[u8] =
    b"Content-Length: 38\r\n\r\n{\"id\":2,\"jsonrpc\":\"2.0\",\"result\":null}";
