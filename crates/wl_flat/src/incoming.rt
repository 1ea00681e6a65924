//! What arrives, with the descriptors of its tokens. Both sessions share this.

ghost use Rattle.wl_flat.specs.Arrivals.{Arrives};

use crate::descriptors::DescriptorQueue;
use crate::status::Status;
use wl_link::{MAX_FDS_OUT, Mailbox};
use wl_wire::Token;

/// Puts the bytes and the descriptors in that the host received.
///
/// The status is `InvalidInput` if descriptors come without a byte, `TooManyDescriptors` if more than 28 would wait until a call
/// reads, and `OutOfMemory`. Then nothing is changed.
pub fn take_in(
    mailbox: &mut Mailbox,
    queue: &mut DescriptorQueue,
    bytes: &[u8],
    descriptors: &[i32],
) -> Status
    ensures { Arrives mailbox.old queue.old bytes.now descriptors.now result mailbox.new queue.new }
{
    // They would be read only with the next byte, which may never come.
    if bytes.is_empty() && !descriptors.is_empty() {
        return Status::InvalidInput;
    }
    let mut tokens = [Token(0); MAX_FDS_OUT];
    let Some(tokens) = tokens.get_mut(..descriptors.len()) else {
        return Status::TooManyDescriptors;
    };
    queue.next_tokens(tokens);
    if queue.put_in(descriptors).is_err() {
        return Status::OutOfMemory;
    }
    match mailbox.arrive(bytes, tokens) {
        Ok(()) => Status::Ok,
        Err(error) => {
            queue.take_back(descriptors.len());
            Status::from(error)
        }
    }
}
