//! Servers whose handlers make calls.

mod room;
mod server;
