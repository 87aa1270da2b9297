// A reader of lines.
ghost use Rattle.std.specs.Prelude.{◌≡◌, ◌≢◌, ◌⊎◌, ◌↔◌, ℕ, ◌+◌, ◌<◌, ◌≤◌, List, [], length, drop, take, slice_index, vec_len, Contains, true, false, IsTrue, IfOk, IfErr, IfSome, IfNone, OnOk, OnErr, IsErrOf};
ghost use Rattle.report_specs.specs.Lines.{HasNoFeed, without_return, unmarked};
ghost use Rattle.mon_io.specs.Faults.{Rose};
ghost use Rattle.log_reader.specs.Reading.{Reading, IsOf, Moves, GivesFrom, GivesNext, FailsNext, Shows, KeepsSource, Fills, Finds, Lacks, HoldsNoFeed, surely_long, emptied};

use crate::Line;
use crate::held::HeldBytes;
use crate::line::{shown, unmarked, without_return};
use mon_io::Source;
use std::alloc::{AllocError, Global};
use std::marker::Model;

/// A read asks for so many bytes.
const CHUNK: usize = 65_536;

/// A line of so many bytes is too long, whatever is dropped at its ends: a mark of three bytes and a carriage return.
const SURELY_LONG: usize = 4101;

/// Why no line is given.
#[derive(Clone, Copy, Debug, PartialEq, Eq)]
pub enum ReadFault {
    Failed,
    Limit,
    Memory,
}

/// Reads lines from a source, and at most a number of bytes.
///
/// The bytes of a line that is already too long are dropped, so that what is held is bounded.
#[derive(Drop)]
pub struct LineReader {
    held: HeldBytes,
    // How many bytes of the line at hand were dropped before those held.
    dropped: u64,
    // What a read fills.
    chunk: Vec<u8>,
    given: u64,
    taken: u64,
    most: u64,
    has_ended: bool,
}

impl Model for LineReader {
    ghost use Rattle.std.specs.Prelude.{◌≡◌, ◌⊎◌, ℕ, ◌+◌, ◌≤◌, length};
    ghost use Rattle.log_reader.specs.Reading.{Stored, surely_long};

    ghost Value = { Stored };

    ghost view = { λ r. record { reading = record { held = r.held; given = r.given; taken = r.taken; most = r.most; has_ended = r.has_ended }; dropped = r.dropped } };

    ghost invariant = { λ r. (r.given + r.dropped + length r.held ≤ r.taken) × (r.taken ≤ r.most) × (length r.chunk.items ≡ 65536) × ((r.dropped ≡ 0) ⊎ (surely_long ≤ r.dropped)) };
}

impl LineReader {
    ghost use Rattle.std.specs.Prelude.{false};

    /// A reader that may get `most` bytes, and has none yet.
    pub fn new(alloc: Global, most: u64) -> Result<LineReader, AllocError>
        ensures { IfOk result (λ r. r ≡ record { reading = record { held = []; given = 0; taken = 0; most = most; has_ended = false }; dropped = 0 }) }
    {
        Ok(LineReader {
            held: HeldBytes::new(alloc),
            dropped: 0,
            chunk: vec![in alloc; 0u8; CHUNK]?,
            given: 0,
            taken: 0,
            most,
            has_ended: false,
        })
    }

    /// Whether a whole line can be given with no read.
    pub fn has_line(&self) -> bool
        ensures held { IsTrue result ↔ Contains self.now.reading.held 10 }

        // A line takes a byte at least.
        ensures within { self.now.reading.given ≤ self.now.reading.most }
    {
        let _ = &self.most;
        self.feed().is_some()
    }

    /// Where the first line feed stands among the bytes held.
    fn feed(&self) -> Option<usize>
        ensures none { IfNone result (HasNoFeed self.now.reading.held) }
        ensures some { IfSome result (λ at. (at < length self.now.reading.held) × (slice_index self.now.reading.held at ≡ 10) × HasNoFeed (take at self.now.reading.held)) }
    {
        self.held.feed()
    }

    /// There is a reading that it stands for.
    fn stands(&self)
        ensures { (r : Reading) × IsOf self.now r }
    {
        let _ = &self.dropped;
    }

    /// Whether the source gave its end.
    fn is_over(&self) -> bool
        ensures { result ≡ self.now.reading.has_ended }
    {
        self.has_ended
    }

    /// Whether as many bytes were got as may be.
    fn is_full(&self) -> bool
        ensures full { result ≡ true → self.now.reading.taken ≡ self.now.reading.most }
        ensures room { result ≡ false → self.now.reading.taken < self.now.reading.most }
    {
        self.taken == self.most
    }

    /// The same, and remembers how far it looked.
    fn find_feed(&mut self) -> Option<usize>
        ensures none { IfNone result (HasNoFeed self.old.reading.held) }
        ensures some { IfSome result (λ at. (at < length self.old.reading.held) × (slice_index self.old.reading.held at ≡ 10) × HasNoFeed (take at self.old.reading.held)) }
        ensures same { self.new ≡ self.old }
    {
        self.held.find_feed()
    }

    /// Whether the bytes held and dropped are too many for a line.
    fn is_surely_long(&self) -> bool
        ensures { result ≡ true → (0 < self.now.dropped) ⊎ (surely_long ≤ length self.now.reading.held) }
    {
        self.dropped > 0 || self.held.bytes().len() >= SURELY_LONG
    }

    /// Drops the bytes held.
    fn drop_held(&mut self)
        requires { (0 < self.old.dropped) ⊎ (surely_long ≤ length self.old.reading.held) }
        ensures reading { self.new.reading ≡ emptied self.old.reading }
        ensures dropped { self.new.dropped ≡ self.old.dropped + length self.old.reading.held }
    {
        self.dropped += self.held.bytes().len() as u64;
        self.held.clear();
    }

    /// Drops the bytes held, where they belong to a line that is too long.
    fn drop_long(&mut self)
        requires { HasNoFeed self.old.reading.held }
        ensures drops { Moves (λ r s. s ≡ r) self.old self.new }
        ensures no_feed { HasNoFeed self.new.reading.held }
        ensures keeps { KeepsSource self.old.reading self.new.reading }
    {
        if self.is_surely_long() {
            self.drop_held();
        }
    }

    /// Gets more bytes.
    fn fill<L: Source>(&mut self, source: &mut L) -> Result<(), ReadFault>
        requires begun { self.old.reading.has_ended ≡ false }
        requires room { self.old.reading.taken < self.old.reading.most }
        ensures fills { Fills (L.told source.old) (L.told source.new) self.old.reading self.new.reading }
        ensures dropped { self.new.dropped ≡ self.old.dropped }
        ensures moves { OnOk result ((self.old.reading.taken < self.new.reading.taken) ⊎ (self.new.reading.has_ended ≡ true)) }
        ensures stays { OnErr result (self.new ≡ self.old) }
        ensures later { L.faults source.old ≤ L.faults source.new }
        ensures cause { IsErrOf result ReadFault.Failed → Rose (L.faults source.old) (L.faults source.new) }
        ensures no_limit { IsErrOf result ReadFault.Limit → ⊥ }
    {
        let room = self.most - self.taken;
        let size = if room < CHUNK as u64 {
            room as usize
        } else {
            CHUNK
        };
        let count = self.held.gain(source, &mut self.chunk, size)?;
        if count == 0 {
            self.has_ended = true;
        }
        self.taken += count as u64;
        Ok(())
    }

    /// The line before the first line feed, which stands at this place.
    fn line_before(&self, alloc: Global, at: usize) -> Result<Line, AllocError>
        requires place { at < length self.now.reading.held }
        requires first { HasNoFeed (take at self.now.reading.held) }
        ensures short { IfOk result (λ line. self.now.dropped ≡ 0 → Shows line (self.now.reading.given + 1) (without_return (unmarked self.now.reading.given (take at self.now.reading.held)))) }
        ensures long { IfOk result (λ line. 0 < self.now.dropped → line ≡ Line.Long (self.now.reading.given + 1)) }
        ensures no_feed { IfOk result HoldsNoFeed }
    {
        let most = self.most;
        prove!(self.given < most);
        let number = self.given + 1;
        if self.dropped > 0 {
            return Ok(Line::Long { number });
        }
        let text = without_return(unmarked(&self.held.bytes()[..at], self.given));
        shown(alloc, number, text)
    }

    /// Steps over a line and the line feed at this place.
    fn step_over(&mut self, at: usize)
        requires place { at < length self.old.reading.held }
        ensures held { self.new.reading.held ≡ drop (at + 1) self.old.reading.held }
        ensures given { self.new.reading.given ≡ self.old.reading.given + 1 }
        ensures dropped { self.new.dropped ≡ 0 }
        ensures keeps { KeepsSource self.old.reading self.new.reading }
    {
        self.held.step(at + 1);
        self.dropped = 0;
        self.given += 1;
    }

    /// Gives the line before the first line feed.
    fn take_line(&mut self, alloc: Global, at: usize) -> Result<Line, AllocError>
        requires place { at < length self.old.reading.held }
        requires feed { slice_index self.old.reading.held at ≡ 10 }
        requires first { HasNoFeed (take at self.old.reading.held) }
        ensures gives { IfOk result (λ line. Moves (λ r s. GivesFrom r s line) self.old self.new) }
        ensures no_feed { IfOk result HoldsNoFeed }
        ensures stays { OnErr result (self.new ≡ self.old) }
    {
        let line = self.line_before(alloc, at)?;
        self.step_over(at);
        Ok(line)
    }

    /// Whether a byte of the last line is there.
    fn has_last(&self) -> bool
        ensures some { result ≡ true → self.now.dropped ≡ 0 → unmarked self.now.reading.given self.now.reading.held ≢ [] }
        ensures none { result ≡ false → (self.now.dropped ≡ 0) × (unmarked self.now.reading.given self.now.reading.held ≡ []) }
        ensures byte { result ≡ true → 0 < length self.now.reading.held + self.now.dropped }
    {
        self.dropped > 0 || !unmarked(self.held.bytes(), self.given).is_empty()
    }

    /// The last line.
    fn last_line(&self, alloc: Global) -> Result<Line, AllocError>
        requires byte { 0 < length self.now.reading.held + self.now.dropped }
        requires first { HasNoFeed self.now.reading.held }
        ensures short { IfOk result (λ line. self.now.dropped ≡ 0 → Shows line (self.now.reading.given + 1) (unmarked self.now.reading.given self.now.reading.held)) }
        ensures long { IfOk result (λ line. 0 < self.now.dropped → line ≡ Line.Long (self.now.reading.given + 1)) }
        ensures no_feed { IfOk result HoldsNoFeed }
    {
        let most = self.most;
        prove!(self.given < most);
        let number = self.given + 1;
        if self.dropped > 0 {
            return Ok(Line::Long { number });
        }
        let text = unmarked(self.held.bytes(), self.given);
        shown(alloc, number, text)
    }

    /// Steps over the last line.
    fn step_out(&mut self)
        requires byte { 0 < length self.old.reading.held + self.old.dropped }
        ensures held { self.new.reading.held ≡ [] }
        ensures given { self.new.reading.given ≡ self.old.reading.given + 1 }
        ensures dropped { self.new.dropped ≡ 0 }
        ensures keeps { KeepsSource self.old.reading self.new.reading }
    {
        let number = self.given + 1;
        self.held.clear();
        self.dropped = 0;
        self.given = number;
    }

    /// Gives the last line, or the end.
    fn take_last(&mut self, alloc: Global) -> Result<Line, AllocError>
        requires over { self.old.reading.has_ended ≡ true }
        requires first { HasNoFeed self.old.reading.held }
        ensures gives { IfOk result (λ line. Moves (λ r s. GivesFrom r s line) self.old self.new) }
        ensures no_feed { IfOk result HoldsNoFeed }
        ensures stays { OnErr result (self.new ≡ self.old) }
    {
        if !self.has_last() {
            return Ok(Line::End);
        }
        let line = self.last_line(alloc)?;
        self.step_out();
        Ok(line)
    }

    /// Gets bytes until a line feed or the end is there.
    fn fill_to_feed<L: Source>(&mut self, source: &mut L) -> Result<Option<usize>, ReadFault>
        ensures fills { Moves (λ r s. Fills (L.told source.old) (L.told source.new) r s) self.old self.new }
        ensures finds { IfOk result (Finds self.new.reading) }
        ensures lacks { IfErr result (Lacks self.new.reading) }
        ensures later { L.faults source.old ≤ L.faults source.new }
        ensures cause { IsErrOf result ReadFault.Failed → Rose (L.faults source.old) (L.faults source.new) }
    {
        loop {
            if let Some(at) = self.find_feed() {
                return Ok(Some(at));
            }
            if self.is_over() {
                return Ok(None);
            }
            if self.is_full() {
                return Err(ReadFault::Limit);
            }
            self.drop_long();
            self.fill(source)?;
        }
    }

    /// The next line of the bytes got before and then those of the source. After an error none of the bytes got so far is lost.
    pub fn next_line<L: Source>(&mut self, alloc: Global, source: &mut L) -> Result<Line, ReadFault>
        ensures stands { (r : Reading) × IsOf self.old r }
        ensures gives { IfOk result (λ line. Moves (GivesNext (L.told source.old) (L.told source.new) line) self.old self.new) }
        ensures no_feed { IfOk result HoldsNoFeed }
        ensures fails { IfErr result (λ fault. Moves (FailsNext (L.told source.old) (L.told source.new) fault) self.old self.new) }
        ensures later { L.faults source.old ≤ L.faults source.new }
        ensures cause { IsErrOf result ReadFault.Failed → Rose (L.faults source.old) (L.faults source.new) }
    {
        self.stands();
        let found = match self.fill_to_feed(source) {
            Ok(found) => found,
            Err(fault) => return Err(fault),
        };
        let line = match found {
            Some(at) => self.take_line(alloc, at),
            None => self.take_last(alloc),
        };
        match line {
            Ok(line) => Ok(line),
            Err(_) => Err(ReadFault::Memory),
        }
    }
}
