//! Packets that wait for the host.
ghost use Rattle.std.specs.Prelude.{◌≡◌, ◌==◌, [], length};
ghost use Rattle.actors.specs.Actors.{IsGiven};

use codec::Datagram;
use ids::Listed;
use std::alloc::Global;
use std::marker::Model;

/// Packets that wait. Contracts see them in their order.
#[derive(Drop)]
pub struct Outbox {
    // The first one, where it was looked at and still waits.
    first: Option<Datagram>,
    // The others, the next one last: so it leaves in no time.
    turned: Vec<Datagram>,
}

impl Model for Outbox {
    ghost use Rattle.std.specs.Prelude.{List};
    ghost use Rattle.codec.specs.Table.{PacketOf};
    ghost use Rattle.actors.specs.Actors.{waiting};

    ghost Value = { List PacketOf };

    ghost view = { λ o. waiting o.first o.turned.items };
}

impl Outbox {
    /// None waits.
    pub fn new(alloc: Global) -> Outbox
        ensures { result ≡ [] }
    {
        Outbox {
            first: None,
            turned: Vec::new(alloc),
        }
    }

    /// These wait, and no others.
    pub fn keep(&mut self, sent: Listed<Datagram>)
        ensures { self.new ≡ sent }
    {
        self.first = None;
        self.turned = sent.into_vec();
        self.turned.reverse();
    }

    /// Whether none waits.
    pub fn is_empty(&self) -> bool
        ensures { result ≡ (length self.now == 0) }
    {
        self.first.is_none() && self.turned.is_empty()
    }

    /// Copies the first one to the beginning of a buffer that is long enough, and it waits no
    /// longer. How many bytes it has; 0 where none waits.
    pub fn give(&mut self, buffer: &mut [u8]) -> usize
        ensures { IsGiven result buffer.old buffer.new self.old self.new }
    {
        if self.first.is_none() {
            self.first = self.turned.pop();
        }
        let Some(packet) = &self.first else {
            return 0;
        };
        let bytes = packet.as_bytes();
        let count = bytes.len();
        if count <= buffer.len() {
            buffer[..count].copy_from_slice(bytes);
            self.first = None;
        }
        count
    }
}
