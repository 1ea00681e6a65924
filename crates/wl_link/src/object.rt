//! An object of a session.

use wl_wire::InterfaceId;

/// An object, without its number.
#[derive(Debug, Drop)]
pub struct Object<Data> {
    /// The interface of the object.
    pub interface: InterfaceId,
    /// The version at which the object was made.
    pub version: u32,
    /// What else the session keeps of the object.
    pub value: Data,
}
