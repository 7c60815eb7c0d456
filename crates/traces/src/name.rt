//! Names of packets.
ghost use Rattle.std.specs.Prelude.{◌≡◌, IfOk, Some, is_some, true};
ghost use Rattle.std.specs.Str.{bytes_eq};
ghost use Rattle.event_script.specs.Back.{plain};
ghost use Rattle.event_script.specs.Words.{words};
ghost use Rattle.traces.specs.Names.{name_behind, name_of, named, names_in, sent_in, taken_in};

use event_script::Pieces;
use hex::encode_to_slice;
use sha2::{Digest, Sha256};
use std::alloc::{AllocError, Global};
use std::marker::Model;

/// How many digits a name has.
const DIGITS: usize = 32;

/// The name of a packet: the first 128 bits of the SHA-256 of its bytes (FIPS 180-4), as 32 digits.
/// Packets of the same bytes are the same to everybody, and have the same name. Contracts see the
/// digits.
#[derive(Clone, Copy, Debug)]
pub struct PacketName {
    digits: [u8; DIGITS],
}

impl Model for PacketName {
    ghost use Rattle.std.specs.Prelude.{◌≡◌, ℕ, List, true};
    ghost use Rattle.event_script.specs.Back.{plain};

    ghost Value = { List ℕ };

    ghost view = { λ n. n.digits };

    ghost invariant = { λ n. plain n.digits ≡ true };

    ghost inverse = { λ l. record { digits = l } };
}

/// A name's digits as numbers.
#[derive(Clone, Copy, PartialEq, Eq, PartialOrd, Ord)]
pub(crate) struct NameKey(u128, u128);

impl PacketName {
    /// The name that a word is, if it is one.
    pub fn read(word: &[u8]) -> Option<PacketName>
        ensures { result ≡ named word.now }
    {
        if !is_plain(word) {
            return None;
        }
        match <[u8; DIGITS]>::try_from(word) {
            Ok(digits) => Some(PacketName { digits }),
            Err(_) => None,
        }
    }

    /// Whether it is the name of a packet of these bytes.
    pub fn names(&self, packet: &[u8]) -> bool
        ensures { result ≡ bytes_eq self.now (name_of packet.now) }
    {
        let digest: [u8; 32] = Sha256::digest(packet);
        let mut digits = [0u8; DIGITS];
        let _ = encode_to_slice(&digest[..16], &mut digits);
        self.digits.as_slice() == digits.as_slice()
    }

    /// Whether it is the other one.
    pub fn is(&self, other: &PacketName) -> bool
        ensures { result ≡ bytes_eq self.now other.now }
    {
        self.digits.as_slice() == other.digits.as_slice()
    }

    /// A key by which it is found.
    pub(crate) fn key(&self) -> NameKey {
        let (mut first, mut last) = ([0u8; 16], [0u8; 16]);
        first.copy_from_slice(&self.digits[..16]);
        last.copy_from_slice(&self.digits[16..]);
        NameKey(u128::from_be_bytes(first), u128::from_be_bytes(last))
    }

    /// The digits.
    pub fn digits(&self) -> &[u8]
        ensures same { result.now ≡ self.now }
        ensures named { named self.now ≡ Some self.now }
        ensures plain { plain result.now ≡ true }
    {
        self.digits.as_slice()
    }
}

/// Whether no byte is a space, a control or beyond ASCII.
pub(crate) fn is_plain(word: &[u8]) -> bool
    ensures { result ≡ plain word.now }
{
    word.iter().all(|b| *b > 32 && *b < 128)
}

/// The name in a line whose first words are a number sign and this one.
#[tactic(auto, unfolding(crate::specs::Names::name_behind))]
fn name_behind_word(verb: &[u8], line: &[u8]) -> Option<PacketName>
    ensures { result ≡ name_behind verb.now (words line.now) }
{
    let mut words = Pieces::of(b' ', line);
    let sign = words.next()?;
    let own = words.next()?;
    let name = words.next()?;
    if sign == b"#".as_slice() && own == verb {
        PacketName::read(name)
    } else {
        None
    }
}

/// The name of the packet that a line tells as sent.
pub(crate) fn sent_name(line: &[u8]) -> Option<PacketName>
    ensures { result ≡ sent_in line.now }
{
    name_behind_word(b"sent", line)
}

/// Whether a line tells that a packet was sent.
pub fn tells_packet(line: &[u8]) -> bool
    ensures { result ≡ is_some (sent_in line.now) }
{
    sent_name(line).is_some()
}

/// The name of the packet that a line tells as one that came.
pub(crate) fn taken_name(line: &[u8]) -> Option<PacketName>
    ensures { result ≡ taken_in line.now }
{
    name_behind_word(b"take", line)
}

/// The names of the packets that the lines of a text tell as sent, one after another. Refused only
/// when out of memory.
pub fn names_in(alloc: Global, text: &[u8]) -> Result<Vec<PacketName>, AllocError>
    ensures { IfOk result (λ names. names.items ≡ names_in text.now) }
{
    let mut names = Vec::new(alloc);
    let mut left = Pieces::of(b'\n', text);
    while let Some(line) = left.next() {
        if let Some(name) = sent_name(line) {
            names.push(name)?;
        }
    }
    Ok(names)
}
