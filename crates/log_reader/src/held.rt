//! Bytes that were read and are to be given line by line.

ghost use Rattle.std.specs.Prelude.{◌≡◌, ℕ, ◌+◌, ◌<◌, ◌≤◌, List, [], ◌++◌, length, drop, take, slice_index, vec_len, IfOk, IfSome, IfNone, OnErr, IsErrOf};
ghost use Rattle.std.specs.Io.KnownBytes.{Consumes, IsAtEnd, Keeps};
ghost use Rattle.report_specs.specs.Lines.{HasNoFeed};
ghost use Rattle.mon_io.specs.Faults.{Rose};
ghost use Rattle.log_reader.specs.Gains.{Gains};

use crate::ReadFault;
use mon_io::{Failed, Source};
use std::alloc::Global;
use std::marker::Model;

/// Bytes of which those at the front are given step by step. It is seen as the bytes that are left.
#[derive(Drop)]
pub(crate) struct HeldBytes {
    bytes: Vec<u8>,
    // The bytes before it were given.
    start: usize,
    // No line feed stands from `start` up to it.
    searched: usize,
}

impl Model for HeldBytes {
    ghost use Rattle.std.specs.Prelude.{ℕ, List, ◌-◌, ◌≤◌, length, drop, take};
    ghost use Rattle.report_specs.specs.Lines.{HasNoFeed};

    ghost Value = { List ℕ };

    ghost view = { λ h. drop h.start h.bytes.items };

    ghost invariant = { λ h. (h.start ≤ h.searched) × (h.searched ≤ length h.bytes.items) × HasNoFeed (take (h.searched - h.start) (drop h.start h.bytes.items)) };
}

/// Drops bytes at the front.
fn drop_front(bytes: &mut Vec<u8>, count: usize)
    requires { count ≤ vec_len bytes.old }
    ensures { bytes.new.items ≡ drop count bytes.old.items }
{
    let left = bytes.len() - count;
    bytes.rotate_left(count);
    bytes.truncate(left);
}

fn bytes_from(bytes: &[u8], at: usize) -> &[u8]
    requires { at ≤ length bytes.now }
    ensures { result.now ≡ drop at bytes.now }
{
    &bytes[at..]
}

/// Where the first line feed stands.
pub fn first_feed(bytes: &[u8]) -> Option<usize>
    ensures none { IfNone result (HasNoFeed bytes.now) }
    ensures some { IfSome result (λ at. (at < length bytes.now) × (slice_index bytes.now at ≡ 10) × HasNoFeed (take at bytes.now)) }
{
    memchr::memchr(b'\n', bytes)
}

/// The same, where none is among the first bytes.
fn feed_after(bytes: &[u8], searched: usize) -> Option<usize>
    requires place { searched ≤ length bytes.now }
    requires before { HasNoFeed (take searched bytes.now) }
    ensures none { IfNone result (HasNoFeed bytes.now) }
    ensures some { IfSome result (λ at. (at < length bytes.now) × (slice_index bytes.now at ≡ 10) × HasNoFeed (take at bytes.now)) }
{
    let at = first_feed(bytes_from(bytes, searched))?;
    Some(searched + at)
}

/// Gets at most this many bytes, to the front of the chunk.
fn read_some<L: Source>(source: &mut L, chunk: &mut [u8], size: usize) -> Result<usize, Failed>
    requires { size ≤ length chunk.old }
    ensures size { length chunk.new ≡ length chunk.old }
    ensures bound { IfOk result (λ n. n ≤ size) }
    ensures got { IfOk result (λ n. Consumes (L.told source.old) (L.told source.new) (take n chunk.new)) }
    ensures end { IfOk result (λ n. n ≡ 0 → 0 < size → IsAtEnd (L.told source.new)) }
    ensures nothing { OnErr result (Keeps (L.told source.old) (L.told source.new)) }
    ensures later { L.faults source.old ≤ L.faults source.new }
    ensures cause { OnErr result (Rose (L.faults source.old) (L.faults source.new)) }
{
    source.read(&mut chunk[..size])
}

impl HeldBytes {
    /// No byte yet.
    pub(crate) fn new(alloc: Global) -> HeldBytes
        ensures { result ≡ [] }
    {
        HeldBytes {
            bytes: Vec::new(alloc),
            start: 0,
            searched: 0,
        }
    }

    /// The bytes that are left.
    pub(crate) fn bytes(&self) -> &[u8]
        ensures { result.now ≡ self.now }
    {
        bytes_from(&self.bytes, self.start)
    }

    /// Where the first line feed stands.
    pub(crate) fn feed(&self) -> Option<usize>
        ensures none { IfNone result (HasNoFeed self.now) }
        ensures some { IfSome result (λ at. (at < length self.now) × (slice_index self.now at ≡ 10) × HasNoFeed (take at self.now)) }
    {
        feed_after(self.bytes(), self.searched - self.start)
    }

    /// The same, and remembers how far it looked.
    pub(crate) fn find_feed(&mut self) -> Option<usize>
        ensures none { IfNone result (HasNoFeed self.old) }
        ensures some { IfSome result (λ at. (at < length self.old) × (slice_index self.old at ≡ 10) × HasNoFeed (take at self.old)) }
        ensures same { self.new ≡ self.old }
    {
        let found = self.feed();
        if found.is_none() {
            self.searched = self.bytes.len();
        }
        found
    }

    /// Drops the bytes that were given.
    fn drop_given(&mut self)
        ensures { self.new ≡ self.old }
    {
        drop_front(&mut self.bytes, self.start);
        self.searched -= self.start;
        self.start = 0;
    }

    /// Adds at most this many bytes of a source, and says how many. No byte that is read is lost for want of memory.
    pub(crate) fn gain<L: Source>(
        &mut self,
        source: &mut L,
        chunk: &mut [u8],
        size: usize,
    ) -> Result<usize, ReadFault>
        requires { size ≤ length chunk.old }
        ensures chunk { length chunk.new ≡ length chunk.old }
        ensures bound { IfOk result (λ n. n ≤ size) }
        ensures gains { IfOk result (λ n. Gains (L.told source.old) (L.told source.new) self.old self.new n) }
        ensures end { IfOk result (λ n. n ≡ 0 → 0 < size → IsAtEnd (L.told source.new)) }
        ensures stays { OnErr result (self.new ≡ self.old) }
        ensures nothing { OnErr result (Keeps (L.told source.old) (L.told source.new)) }
        ensures later { L.faults source.old ≤ L.faults source.new }
        ensures cause { IsErrOf result ReadFault.Failed → Rose (L.faults source.old) (L.faults source.new) }
        ensures no_limit { IsErrOf result ReadFault.Limit → ⊥ }
    {
        self.drop_given();
        if self.bytes.reserve(size).is_err() {
            return Err(ReadFault::Memory);
        }
        match read_some(source, chunk, size) {
            Err(_) => Err(ReadFault::Failed),
            Ok(n) => {
                if self.bytes.extend_from_slice(&chunk[..n]).is_err() {
                    return Err(ReadFault::Memory);
                }
                Ok(n)
            }
        }
    }

    /// Gives bytes at the front.
    pub(crate) fn step(&mut self, count: usize)
        requires { count ≤ length self.old }
        ensures { self.new ≡ drop count self.old }
    {
        self.start += count;
        self.searched = self.start;
    }

    /// Gives all bytes.
    pub(crate) fn clear(&mut self)
        ensures { self.new ≡ [] }
    {
        self.bytes.clear();
        self.start = 0;
        self.searched = 0;
    }
}
