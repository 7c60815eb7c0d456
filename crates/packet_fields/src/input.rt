ghost use Rattle.std.specs.Prelude.{◌≡◌, ◌≤◌, drop, length, nat_eq, take};
ghost use Rattle.packet_fields.specs.Format.{Reads, number};
ghost use Rattle.packet_fields.specs.Fields as field;

use crate::fault::Fault;
use byteorder::{BigEndian, ByteOrder};
use std::alloc::Global;
use std::marker::Model;

/// What is left of the bytes that are read. Contracts see it as their list.
#[derive(Drop)]
pub struct Input<'a> {
    rest: &'a [u8],
    alloc: Global,
}

impl<'a> Model for Input<'a> {
    ghost use Rattle.std.specs.Prelude.{ℕ, List};

    ghost Value = { List ℕ };

    ghost view = { λ i. i.rest.now };
}

impl<'a> Input<'a> {
    /// All of the bytes. What is read from them takes its memory from `alloc`.
    pub fn new(alloc: Global, bytes: &'a [u8]) -> Input<'a>
        ensures { result ≡ bytes.now }
    {
        Input { rest: bytes, alloc }
    }

    /// Where memory comes from.
    pub(crate) fn alloc(&self) -> Global {
        self.alloc
    }

    /// Whether nothing is left.
    pub fn is_empty(&self) -> bool
        ensures { result ≡ nat_eq (length self.now) 0 }
    {
        self.rest.is_empty()
    }

    /// How many bytes are left.
    pub(crate) fn len(&self) -> usize
        ensures { result ≡ length self.now }
    {
        self.rest.len()
    }

    /// The bytes that come next: so many, or all that are left.
    pub(crate) fn front(&self, count: usize) -> &'a [u8]
        ensures { result.now ≡ take count self.now }
    {
        self.rest.split_at(count.min(self.rest.len())).0
    }

    /// Passes over so many bytes, which are left.
    pub(crate) fn pass(&mut self, count: usize)
        requires { count ≤ length self.old }
        ensures { self.new ≡ drop count self.old }
    {
        self.rest = self.rest.split_at(count).1;
    }

    /// The next byte.
    pub fn byte(&mut self) -> Result<u8, Fault>
        ensures { Reads (λ x. (x, self.new)) result ((number 1).read self.old) }
    {
        if self.rest.is_empty() {
            return Err(Fault::Short);
        }
        let value = self.rest[0];
        self.rest = &self.rest[1..];
        Ok(value)
    }

    /// A number of two bytes.
    pub fn u16(&mut self) -> Result<u16, Fault>
        ensures { Reads (λ x. (x, self.new)) result ((number 2).read self.old) }
    {
        if self.rest.len() < 2 {
            return Err(Fault::Short);
        }
        let value = BigEndian::read_u16(self.rest);
        self.rest = &self.rest[2..];
        Ok(value)
    }

    /// A number of four bytes.
    pub fn u32(&mut self) -> Result<u32, Fault>
        ensures { Reads (λ x. (x, self.new)) result ((number 4).read self.old) }
    {
        if self.rest.len() < 4 {
            return Err(Fault::Short);
        }
        let value = BigEndian::read_u32(self.rest);
        self.rest = &self.rest[4..];
        Ok(value)
    }

    /// A number of eight bytes.
    pub fn u64(&mut self) -> Result<u64, Fault>
        ensures { Reads (λ x. (x, self.new)) result ((number 8).read self.old) }
    {
        if self.rest.len() < 8 {
            return Err(Fault::Short);
        }
        let value = BigEndian::read_u64(self.rest);
        self.rest = &self.rest[8..];
        Ok(value)
    }

    /// A signed number of eight bytes.
    #[tactic(auto, unfolding(crate::specs::Fields::signed))]
    pub fn signed(&mut self) -> Result<i64, Fault>
        ensures { Reads (λ x. (x, self.new)) result (field.signed.read self.old) }
    {
        if self.rest.len() < 8 {
            return Err(Fault::Short);
        }
        let value = BigEndian::read_i64(self.rest);
        self.rest = &self.rest[8..];
        Ok(value)
    }
}
