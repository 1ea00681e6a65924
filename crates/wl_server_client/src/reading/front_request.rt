//! The request at the front of the incoming buffer, before its arguments are read.

ghost use Rattle.std.specs.Prelude.{◌≡◌, IfSome, MatchOption, MatchResult, None, Some};
ghost use Rattle.wl_wire.specs.Table.{IsAcceptedTable, message_row};
ghost use Rattle.wl_link.specs.Store.{held};
ghost use Rattle.wl_link.specs.declared.object.Object.{Object as ObjectOf};
ghost use Rattle.wl_server_client.specs.declared.objects.Kept.{Kept as KeptOf};
ghost use Rattle.wl_server_client.specs.Reading.{row_in};
ghost use Rattle.wl_server_client.specs.Inside.ReadingLoop.{IsFront, IsSenderOf, NotTaken};
ghost use Rattle.wl_server_client.specs.Inside.Responses.{addressed_by};
ghost use Rattle.wl_server_client.specs.Violations.{violation};

use crate::objects::Kept;
use crate::reading::violation::{MessageFault, Violation};
use wl_link::{BufferedSocket, ObjectMap};
use wl_wire::{InterfaceId, MessageDesc, MessageParseError, Protocol};

/// The serial, the interface and the version of the object that a request was sent to.
#[derive(Clone, Copy)]
pub struct Sender {
    /// The serial of the object.
    pub serial: u64,
    /// Its interface.
    pub interface: InterfaceId,
    /// Its version.
    pub version: u32,
}

/// The request at the front of the incoming buffer. It is found before the arguments are read, and handed on.
#[derive(Drop)]
pub struct FrontRequest<'p> {
    /// The number of the object that it was sent to.
    pub number: u32,
    /// Its opcode.
    pub opcode: u16,
    /// What its sender is.
    pub sender: Sender,
    /// Its description in the table.
    pub desc: &'p MessageDesc,
}

impl FrontRequest<'_> {
    /// The violation of the protocol that the request is, by what is wrong with it.
    pub fn violation(&self, fault: MessageFault) -> Violation
        ensures { result ≡ violation (addressed_by self.now) fault }
    {
        Violation {
            sender_id: self.number,
            interface: self.sender.interface,
            opcode: self.opcode,
            fault,
        }
    }
}

/// The request with this opcode of the object that has the number.
pub fn find_request<'p, U: Drop>(
    protocol: &'p Protocol,
    objects: &ObjectMap<Kept<U>>,
    number: u32,
    opcode: u16,
) -> Option<FrontRequest<'p>>
    ensures row { MatchOption result (row_in protocol.now (held objects.now.store number) opcode ≡ None)
        (λ r. Some (message_row r.desc.now) ≡ row_in protocol.now (held objects.now.store number) opcode) }
    ensures sender { IfSome result (λ r. (x : ObjectOf (KeptOf U)) → held objects.now.store number ≡ Some x → IsSenderOf r.sender x) }
    ensures header { IfSome result (λ r. (r.number ≡ number) × (r.opcode ≡ opcode)) }
    ensures accepted { IfSome result (λ _. IsAcceptedTable protocol.now) }
{
    let object = objects.find(number)?;
    let interface = protocol.get(object.interface)?;
    let desc = interface.requests.get(opcode as usize)?;
    Some(FrontRequest {
        number,
        opcode,
        sender: Sender {
            serial: object.value.serial,
            interface: object.interface,
            version: object.version,
        },
        desc,
    })
}

/// The request at the front, once its header is there. The error is `MissingData` if that lacks bytes, and `Malformed` if no
/// object has the number in the header, or the object's interface has no such request.
pub fn front_request<'p, T: Drop, U: Drop>(
    protocol: &'p Protocol,
    objects: &ObjectMap<Kept<U>>,
    socket: &BufferedSocket<T>,
) -> Result<FrontRequest<'p>, MessageParseError>
    ensures { MatchResult result (λ r. IsFront protocol.now objects.now.store socket.now r)
        (λ e. NotTaken protocol.now objects.now.store socket.now e) }
{
    let Some((number, opcode)) = socket.next_header() else {
        return Err(MessageParseError::MissingData);
    };
    match find_request(protocol, objects, number, opcode) {
        Some(request) => Ok(request),
        None => Err(MessageParseError::Malformed),
    }
}
