//! What is to be sent, with the descriptors of its tokens. Both sessions share this.

ghost use Rattle.std.specs.Prelude.{◌≡◌, ◌==◌, ◌<◌, ◌≤◌, ◌^◌, length, map};
ghost use Rattle.wl_flat.specs.Flat.{over_front};
ghost use Rattle.wl_flat.specs.Inside.Sending.{ShowsNext};
ghost use Rattle.wl_flat.specs.Sending.{all_taken_out, copied, descriptors_of, mailbox_after, queue_after, shown};

use crate::descriptors::DescriptorQueue;
use crate::flat::Counts;
use crate::status::Status;
use wl_link::Mailbox;
use wl_wire::Token;

/// The number that is no descriptor. It stands for a token that names none, which a session never gives.
const NO_DESCRIPTOR: i32 = -1;

/// Takes the descriptors of the tokens out.
pub fn take_all_out(queue: &mut DescriptorQueue, tokens: &[Token])
    ensures { queue.new ≡ all_taken_out queue.old tokens.now }
{
    for token in tokens {
        queue.take_out(*token);
    }
}

/// Copies the bytes to the first places. There is room for them.
pub fn copy_bytes(from: &[u8], to: &mut [u8])
    requires { length from.now ≤ length to.old }
    ensures { to.new ≡ over_front from.now to.old }
{
    to[..from.len()].copy_from_slice(from);
}

/// The number of the token's descriptor, if it is held behind those that were taken: so many, and then the token of the first
/// one is `front`. It is then taken too.
fn next_shown(queue: &DescriptorQueue, token: Token, front: &mut u32, taken: &mut usize) -> i32
    requires taken { taken.old ≤ length queue.now.held }
    requires few { length queue.now.held < 2 ^ 32 }
    ensures { ShowsNext queue.now token front.old taken.old result front.new taken.new }
{
    let token = token.0.cast_unsigned();
    let place = *taken + token.wrapping_sub(*front) as usize;
    match queue.held_at(place) {
        Some(descriptor) => {
            *taken = place + 1;
            *front = token.wrapping_add(1);
            descriptor
        }
        None => NO_DESCRIPTOR,
    }
}

/// Copies the descriptors of the tokens to the first places, as they come out if they are taken out one after another. There
/// is room for them.
pub fn copy_descriptors(queue: &DescriptorQueue, tokens: &[Token], to: &mut [i32])
    requires { length tokens.now ≤ length to.old }
    ensures { to.new ≡ over_front (map shown (descriptors_of queue.now tokens.now)) to.old }
{
    let mut front = queue.front();
    let mut taken = 0usize;
    for (index, token) in tokens.iter().enumerate() {
        to[index] = next_shown(queue, *token, &mut front, &mut taken);
    }
}

/// Copies what is to be sent: as many bytes as fit, and all descriptors, which go with the first byte. The counts say how
/// many these are; both are 0 if no byte is copied.
///
/// The status is `TooSmall` if there is no room for the descriptors. Then the counts say how many of them there are.
pub fn copy_out(
    mailbox: &Mailbox,
    queue: &DescriptorQueue,
    bytes: &mut [u8],
    descriptors: &mut [i32],
    counts: &mut Counts,
) -> Status
    ensures status { result ≡ (copied mailbox.now.waiting queue.now bytes.old descriptors.old).status }
    ensures bytes { bytes.new ≡ (copied mailbox.now.waiting queue.now bytes.old descriptors.old).bytes }
    ensures descriptors { descriptors.new ≡ (copied mailbox.now.waiting queue.now bytes.old descriptors.old).descriptors }
    ensures counts { counts.new ≡ (copied mailbox.now.waiting queue.now bytes.old descriptors.old).counts }
{
    let waiting = mailbox.bytes();
    let count = waiting.len().min(bytes.len());
    if count == 0 {
        *counts = Counts::new(0, 0);
        return Status::Ok;
    }
    let tokens = mailbox.tokens();
    *counts = Counts::new(count, tokens.len());
    if tokens.len() > descriptors.len() {
        return Status::TooSmall;
    }
    copy_descriptors(queue, tokens, descriptors);
    copy_bytes(&waiting[..count], bytes);
    Status::Ok
}

/// So many of the bytes were sent, or all if there are fewer. If that is a byte at least, the descriptors were sent too.
/// Returns whether no byte is left.
pub fn take_off(mailbox: &mut Mailbox, queue: &mut DescriptorQueue, count: u32) -> bool
    ensures empty { result ≡ (length mailbox.new.waiting.bytes == 0) }
    ensures mailbox { mailbox.new ≡ mailbox_after count mailbox.old }
    ensures queue { queue.new ≡ queue_after count mailbox.old queue.old }
{
    let count = mailbox.bytes().len().min(count as usize);
    if count > 0 {
        take_all_out(queue, mailbox.tokens());
        mailbox.sent(count);
    }
    mailbox.bytes().is_empty()
}
