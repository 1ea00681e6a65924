//! How much waits in a session. Both sessions share this.

ghost use Rattle.std.specs.Prelude.{◌≡◌, ◌+◌, ◌∷◌, [], length};
ghost use Rattle.wl_flat.specs.Sending.{counts_of};
ghost use Rattle.wl_flat.specs.Waiting.{counts_in};
ghost use Rattle.wl_link.specs.Exchange.{Queue};

use crate::flat::{Counts, Waiting};
use wl_link::Mailbox;

/// So many bytes and descriptors in one place, and so many in another.
fn sums(bytes: usize, more_bytes: usize, descriptors: usize, more_descriptors: usize) -> Counts
    ensures { result ≡ counts_of (bytes + more_bytes) (descriptors + more_descriptors) }
{
    Counts::new(
        bytes.saturating_add(more_bytes),
        descriptors.saturating_add(more_descriptors),
    )
}

/// What waits in a core, in the order in which that counts it, and in its mailbox.
pub fn waiting_on(in_core: [usize; 4], mailbox: &Mailbox) -> Waiting
    ensures { (incoming outgoing : Queue) →
        in_core ≡ length incoming.bytes ∷ length incoming.tokens ∷ length outgoing.bytes ∷ length outgoing.tokens ∷ [] →
        result ≡ record { received = counts_in incoming mailbox.now.arrived; to_send = counts_in outgoing mailbox.now.waiting } }
{
    let [bytes_in, tokens_in, bytes_out, tokens_out] = in_core;
    Waiting {
        received: sums(
            bytes_in,
            mailbox.bytes_left(),
            tokens_in,
            mailbox.tokens_left().len(),
        ),
        to_send: sums(
            bytes_out,
            mailbox.bytes().len(),
            tokens_out,
            mailbox.tokens().len(),
        ),
    }
}
