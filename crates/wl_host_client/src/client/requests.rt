//! Requests.

ghost use Rattle.std.specs.Prelude.{◌≡◌, []};
ghost use Rattle.wl_flat.specs.Arguments.{descriptors_given};
ghost use Rattle.wl_host_client.specs.Client.{ConservesClient, Sends, child_asked_by, data_given_by, given_with};

use super::Client;
use super::notes::take_notes;
use wl_flat::arguments::read_arguments;
use wl_flat::flat::{FlatArgument, FlatObjectId, FlatRequest};
use wl_flat::status::Status;
use wl_wire::InterfaceId;

/// The interface and version that the host asks for the object that the request makes.
fn child_of(request: &FlatRequest) -> Option<(InterfaceId, u32)>
    ensures { result ≡ child_asked_by request.now }
{
    if request.has_child == 0 {
        return None;
    }
    let interface = InterfaceId(request.child_interface as usize);
    Some((interface, request.child_version))
}

/// The data for the object that the request makes.
fn data_of(request: &FlatRequest) -> Option<u64>
    ensures { result ≡ data_given_by request.now }
{
    if request.has_data == 0 {
        return None;
    }
    Some(request.data)
}

impl Client {
    /// Checks the request, and appends it to what waits to be sent. Returns the id of the object that it makes, or the null
    /// id. If the request ends its sender, and that has data, `next_note` tells of it.
    ///
    /// Strings and arrays are ranges of `bytes`. A new id among the arguments is null: the session chooses the number. The
    /// statuses are those of `wl_client::RequestError`, and before them
    ///
    /// - `InvalidInput` if the opcode is above 65535, the kind of an argument is unknown, a range is not within the bytes, or
    ///   a string has a zero byte;
    /// - `OutOfMemory` if there is no memory.
    ///
    /// Then the descriptors among the arguments are still the host's.
    pub fn send_request(
        &mut self,
        request: &FlatRequest,
        arguments: &[FlatArgument],
        bytes: &[u8],
    ) -> Result<FlatObjectId, Status>
        ensures call { Sends self.old request.now arguments.now bytes.now result self.new }
        ensures descriptors { ConservesClient self.old (given_with result (descriptors_given arguments.now)) [] self.new }
    {
        let Ok(opcode) = u16::try_from(request.opcode) else {
            return Err(Status::InvalidInput);
        };
        if self.notes.reserve(1).is_err() {
            return Err(Status::OutOfMemory);
        }
        self.request.sender_id = request.sender.proxy();
        self.request.opcode = opcode;
        let count = read_arguments(
            &mut self.request.args,
            arguments,
            bytes,
            &mut self.departures,
        )?;
        let answer = self
            .core
            .send_request_lent(&self.request, data_of(request), child_of(request));
        match answer {
            Ok(id) => {
                take_notes(&mut self.core, &mut self.notes);
                Ok(FlatObjectId::of_proxy(id))
            }
            Err(error) => {
                self.departures.take_back(count);
                Err(Status::from(error))
            }
        }
    }
}
