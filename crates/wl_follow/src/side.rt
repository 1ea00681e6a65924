//! The two sides of a connection, and why what one sends is read no further.

ghost use Rattle.std.specs.Prelude.{◌≡◌};
ghost use Rattle.wl_follow.specs.Sides.{fault_name, other_side, side_name};

/// Where something comes from, or goes to.
#[derive(Clone, Copy, Debug, PartialEq, Eq)]
pub enum Side {
    /// The client.
    Client,
    /// The server.
    Server,
}

impl Side {
    /// The word for it.
    pub fn name(self) -> &'static str
        ensures { result.now ≡ side_name self }
    {
        match self {
            Side::Client => "client",
            Side::Server => "server",
        }
    }

    /// The other side.
    pub fn other(self) -> Side
        ensures { result ≡ other_side self }
    {
        match self {
            Side::Client => Side::Server,
            Side::Server => Side::Client,
        }
    }
}

/// Why what a side sends is read no further.
#[derive(Clone, Copy, Debug, PartialEq, Eq)]
pub enum Fault {
    /// It is no message: the object, the request or the event is unknown, or the arguments cannot be read.
    Malformed,
    /// The number of a new object is not free.
    NewId,
    /// It binds an interface that the table lacks.
    UnknownInterface,
    /// A message waits for a descriptor, and the buffer is full.
    MissingDescriptor,
}

impl Fault {
    /// The word for it in a log.
    pub fn name(self) -> &'static str
        ensures { result.now ≡ fault_name self }
    {
        match self {
            Fault::Malformed => "malformed",
            Fault::NewId => "new-id",
            Fault::UnknownInterface => "unknown-interface",
            Fault::MissingDescriptor => "missing-descriptor",
        }
    }
}
