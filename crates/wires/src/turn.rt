//! A connection whose turn it is.

use std::net::TcpStream;
use std::time::Duration;

/// By which port a connection came.
#[derive(Clone, Copy, Debug, PartialEq, Eq)]
pub enum Port {
    /// That of registrars and of the public.
    Public,
    /// The operator's.
    Office,
}

/// A connection whose turn it is.
#[derive(Drop)]
pub struct Turn {
    pub port: Port,
    pub stream: TcpStream,
    /// How long it waited.
    pub waited: Duration,
}
