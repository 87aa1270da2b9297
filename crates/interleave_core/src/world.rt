//! A world of sessions that share one memo.

ghost use Rattle.std.specs.Prelude.{◌≡◌, ◌<◌, ◌≤◌, ◌^◌, ℕ, All, List, [], ◌∷◌, ◌++◌, map, length, Err, IfOk, IfSome, IfErr, OnOk, OnErr};
ghost use Rattle.number_specs.specs.LogNumbers.{IsLogNumber};
ghost use Rattle.run_specs.specs.Worlds as worlds;
ghost use Rattle.run_specs.specs.Sessions.{IsMonitorSession};
ghost use Rattle.run_specs.specs.Worlds.{IsWorld, IsAllowed, Told};
ghost use Rattle.interleave_core.specs.Events.{event_of, events_of, HasLogNumbers, told_to};
ghost use Rattle.interleave_core.specs.Played.{IsTaken, HasPlayed, HasStopped};
ghost use Rattle.interleave_core.specs.Replies.{TellsLawfully};
ghost use Rattle.interleave_core.specs.Seats.{ShowsItsPhase, at_rest};
ghost use Rattle.interleave_core.specs.Views.{new_world, AreCounts};
ghost use Rattle.std.specs.Vec.{vec_len, vec_capacity};

use crate::events::Event;
use crate::faults::{PlayFault, StepFault};
use crate::lookups::{found, missed, put_into};
use crate::seats::Seat;
use lha_model::Sample;
use live_session::{GapRelation, Session, Verdict};
use std::alloc::{AllocError, Global};
use std::marker::Model;
use succ_memo::{MemoState, Ticket, Totals};

/// Sessions that share a memo without a bound.
///
/// A contract sees the world of the definitions, and the counts of the memo. A world that is done with is given to
/// `end`: it cannot be dropped, since it may hold tickets.
pub struct World {
    memo: MemoState<GapRelation>,
    seats: Vec<Seat>,
    tickets: Vec<Ticket>,
    room: Vec<Session>,
}

impl Model for World {
    ghost use Rattle.std.specs.Vec.{vec_len, vec_capacity};
    ghost use Rattle.interleave_core.specs.Views.{CountedWorld, counted_world, IsKept};

    ghost Value = { CountedWorld };

    ghost view = { λ w. counted_world w.memo w.seats.items };

    ghost invariant = { λ w. IsKept w.memo w.seats.items (vec_len w.tickets) w.room.items (vec_capacity w.room) };
}

/// The sessions, each in a seat of its own.
fn seats_of(alloc: Global, sessions: Vec<Session>) -> Result<Vec<Seat>, AllocError>
    requires { All ShowsItsPhase sessions.items }
    ensures seats { IfOk result (λ seats. seats.items ≡ sessions.items) }
    ensures kept { OnOk result (All IsMonitorSession sessions.items) }
{
    let mut seats = Vec::new(alloc);
    for session in sessions {
        seats.push(Seat::new(session))?;
    }
    Ok(seats)
}

impl World {
    /// A world of these sessions, with an empty memo. Each of them is idle, or has begun a sample and wants an entry for it.
    ///
    /// # Errors
    ///
    /// Want of memory. The sessions are dropped then.
    pub fn new(alloc: Global, sessions: Vec<Session>) -> Result<World, AllocError>
        requires few { length sessions.items < 2 ^ 32 }
        requires shown { All ShowsItsPhase sessions.items }
        ensures world { IfOk result (λ w. w ≡ new_world sessions.items) }
        ensures kept { IfOk result (λ w. IsWorld w.world) }
    {
        let room = Vec::with_capacity(alloc, sessions.len())?;
        let seats = seats_of(alloc, sessions)?;
        Ok(World {
            memo: MemoState::new(),
            seats,
            tickets: Vec::new(alloc),
            room,
        })
    }

    /// How often the memo was asked, had an entry, was put to, and got a ticket back.
    pub fn totals(&self) -> Totals
        ensures counts { result ≡ self.now.totals }
        ensures kept { IsWorld self.now.world }
    {
        self.memo.totals()
    }

    /// What a world keeps is known once this is called.
    fn known(&self)
        ensures world { IsWorld self.now.world }
        ensures counts { AreCounts self.now.totals }
    {
        let _ = &self.memo;
    }

    fn begin(&mut self, alloc: Global, session: u32, sample: &Sample) -> Result<(), StepFault>
        requires numbers { IsLogNumber sample.now.time × All (λ cell. IfSome cell IsLogNumber) sample.now.cells }
        ensures ok { OnOk result (IsTaken self.old self.new (worlds.Begin session sample.now) []) }
        ensures err { OnErr result (self.new ≡ self.old) }
        ensures not_allowed { result ≡ Err StepFault.NotAllowed → IsAllowed self.old.world (worlds.Begin session sample.now) → ⊥ }
    {
        let Some(seat) = self.seats.get_mut(session as usize) else {
            return Err(StepFault::NotAllowed);
        };
        seat.begin(alloc, sample)?;
        Ok(())
    }

    fn look_hit(&mut self, session: u32) -> Result<(), StepFault>
        ensures ok { OnOk result (IsTaken self.old self.new (worlds.LookHit session) []) }
        ensures err { OnErr result (self.new ≡ self.old) }
        ensures not_allowed { result ≡ Err StepFault.NotAllowed → IsAllowed self.old.world (worlds.LookHit session) → ⊥ }
    {
        let Some(seat) = self.seats.get_mut(session as usize) else {
            return Err(StepFault::NotAllowed);
        };
        let Some(key) = seat.want() else {
            return Err(StepFault::NotAllowed);
        };
        let entry = found(&mut self.memo, key)?;
        seat.give(entry);
        Ok(())
    }

    fn look_miss(&mut self, session: u32) -> Result<(), StepFault>
        ensures ok { OnOk result (IsTaken self.old self.new (worlds.LookMiss session) []) }
        ensures err { OnErr result (self.new ≡ self.old) }
        ensures not_allowed { result ≡ Err StepFault.NotAllowed → IsAllowed self.old.world (worlds.LookMiss session) → ⊥ }
    {
        let Some(seat) = self.seats.get_mut(session as usize) else {
            return Err(StepFault::NotAllowed);
        };
        let Some(key) = seat.want() else {
            return Err(StepFault::NotAllowed);
        };
        self.tickets.reserve(1)?;
        let ticket = missed(&mut self.memo, key)?;
        self.tickets.push_reserved(ticket);
        seat.miss();
        Ok(())
    }

    fn fill(&mut self, alloc: Global, session: u32) -> Result<(), StepFault>
        ensures ok { OnOk result (IsTaken self.old self.new (worlds.Fill session) []) }
        ensures err { OnErr result (self.new ≡ self.old) }
        ensures not_allowed { result ≡ Err StepFault.NotAllowed → IsAllowed self.old.world (worlds.Fill session) → ⊥ }
    {
        let Some(seat) = self.seats.get_mut(session as usize) else {
            return Err(StepFault::NotAllowed);
        };
        seat.fill(alloc)?;
        Ok(())
    }

    fn put(&mut self, alloc: Global, session: u32) -> Result<(), StepFault>
        ensures ok { OnOk result (IsTaken self.old self.new (worlds.Put session) []) }
        ensures err { OnErr result (self.new ≡ self.old) }
        ensures not_allowed { result ≡ Err StepFault.NotAllowed → IsAllowed self.old.world (worlds.Put session) → ⊥ }
    {
        let Some(seat) = self.seats.get_mut(session as usize) else {
            return Err(StepFault::NotAllowed);
        };
        let Some(made) = seat.made() else {
            return Err(StepFault::NotAllowed);
        };
        put_into(&mut self.memo, &mut self.tickets, alloc, made)?;
        seat.give_made();
        Ok(())
    }

    fn finish(&mut self, session: u32) -> Result<Verdict, StepFault>
        ensures ok { IfOk result (λ v. IsTaken self.old self.new (worlds.Finish session) (record { session = session; verdict = v } ∷ [])) }
        ensures err { OnErr result (self.new ≡ self.old) }
        ensures not_allowed { OnErr result (IsAllowed self.old.world (worlds.Finish session) → ⊥) }
    {
        let Some(seat) = self.seats.get_mut(session as usize) else {
            return Err(StepFault::NotAllowed);
        };
        let Some(verdict) = seat.finish() else {
            return Err(StepFault::NotAllowed);
        };
        Ok(verdict)
    }

    /// Takes one step, and notes the verdict that it tells. After an error nothing has happened.
    fn step(
        &mut self,
        alloc: Global,
        event: &Event,
        told: &mut Vec<(u32, Verdict)>,
    ) -> Result<(), StepFault>
        requires { HasLogNumbers event.now }
        ensures ok { OnOk result ((now : List Told) × IsTaken self.old self.new (event_of event.now) now × (map told_to told.new.items ≡ map told_to told.old.items ++ now)) }
        ensures err { OnErr result (self.new ≡ self.old) }
        ensures not_allowed { result ≡ Err StepFault.NotAllowed → IsAllowed self.old.world (event_of event.now) → ⊥ }
    {
        told.reserve(1)?;
        match event {
            Event::Begin { session, sample } => self.begin(alloc, *session, sample),
            Event::LookHit { session } => self.look_hit(*session),
            Event::LookMiss { session } => self.look_miss(*session),
            Event::Fill { session } => self.fill(alloc, *session),
            Event::Put { session } => self.put(alloc, *session),
            Event::Finish { session } => {
                let verdict = self.finish(*session)?;
                told.push_reserved((*session, verdict));
                Ok(())
            }
        }
    }

    /// Plays the events, one after the other, and answers the verdicts that they tell, in order.
    ///
    /// # Errors
    ///
    /// The first event that is not allowed, or want of memory. The events before it have happened, and it has not.
    pub fn play(
        &mut self,
        alloc: Global,
        events: &[Event],
    ) -> Result<Vec<(u32, Verdict)>, PlayFault>
        requires few { length events.now < 2 ^ 32 }
        requires numbers { All HasLogNumbers events.now }
        ensures ok { IfOk result (λ told. HasPlayed self.old self.new (events_of events.now) (map told_to told.items)) }
        ensures lawful { IfOk result (λ told. TellsLawfully self.old.world (map told_to told.items) self.new.world) }
        ensures err { IfErr result (HasStopped self.old self.new (events_of events.now)) }
        ensures kept { IsWorld self.new.world }
    {
        self.known();
        let mut told = Vec::new(alloc);
        let mut place = 0;
        for event in events {
            match self.step(alloc, event, &mut told) {
                Ok(()) => {
                    self.known();
                    place += 1;
                }
                Err(StepFault::NotAllowed) => return Err(PlayFault::NotEnabled { place }),
                Err(StepFault::Memory) => return Err(PlayFault::Memory),
            }
        }
        Ok(told)
    }

    /// Gives up the tickets that are still held, takes each sample back that is not finished, and hands the sessions back
    /// in order. Takes no memory.
    pub fn end(self) -> Vec<Session>
        ensures { result.items ≡ map at_rest self.world.sessions }
    {
        let World {
            mut memo,
            seats,
            tickets,
            room,
        } = self;
        give_up_all(&mut memo, tickets);
        ended(seats, room)
    }
}

/// Gives up each ticket.
fn give_up_all(memo: &mut MemoState<GapRelation>, mut tickets: Vec<Ticket>) {
    while let Some(ticket) = tickets.pop() {
        memo.give_up(ticket);
    }
    tickets.destroy_empty();
}

/// The sessions, with no sample begun, where there is room for them.
fn ended(seats: Vec<Seat>, mut room: Vec<Session>) -> Vec<Session>
    requires empty { room.items ≡ [] }
    requires room_for_all { vec_len seats ≤ vec_capacity room }
    ensures { result.items ≡ map at_rest seats.items }
{
    for seat in seats {
        room.push_reserved(seat.end());
    }
    room
}
