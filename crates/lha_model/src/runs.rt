// The records of runs. What a contract sees of a run is the list of its gaps' parts.

ghost use Rattle.std.specs.Prelude.{◌≡◌};
ghost use Rattle.std.specs.declared.alloc.Global.{Global as Heap};

use std::alloc::Global;
use std::marker::Model;

/// A leg: how long it lasts and where it ends.
#[derive(Debug, Drop)]
pub struct Leg {
    stay: i128,
    at_end: Vec<i128>,
}

impl Model for Leg {
    ghost use Rattle.run_specs.specs.Runs as runs;

    ghost Value = { runs.Leg };

    ghost view = { λ l. record { length_of = l.stay; at_end = l.at_end.items } };
}

impl Leg {
    /// A leg of this length to these values, all over the denominator of its gap. Takes no memory.
    pub fn new(stay: i128, at_end: Vec<i128>) -> Leg
        ensures { result ≡ record { length_of = stay; at_end = at_end.items } }
    {
        Leg { stay, at_end }
    }

    /// How long it lasts, over the denominator of its gap.
    pub fn stay(&self) -> i128
        ensures { result ≡ self.now.length_of }
    {
        self.stay
    }

    /// The values where it ends, over the denominator of its gap.
    pub fn at_end(&self) -> &[i128]
        ensures { result.now ≡ self.now.at_end }
    {
        self.at_end.as_slice()
    }

    /// The allocator of its values. There is but one allocator.
    pub fn allocator(&self) -> Global
        ensures { (other : Heap) → result ≡ other }
    {
        *self.at_end.allocator()
    }
}

/// A leg, and the jump after it.
#[derive(Debug, Drop)]
pub struct Move {
    leg: Leg,
    trans: u8,
    after: Vec<i128>,
}

impl Model for Move {
    ghost use Rattle.run_specs.specs.Runs as runs;

    ghost Value = { runs.Move };

    ghost view = { λ m. record { leg = m.leg; transition = m.trans; after = m.after.items } };
}

impl Move {
    /// A move of this leg, this transition and the values after the jump. Takes no memory.
    pub fn new(leg: Leg, trans: u8, after: Vec<i128>) -> Move
        ensures { result ≡ record { leg = leg; transition = trans; after = after.items } }
    {
        Move { leg, trans, after }
    }

    /// The leg before the jump.
    pub fn leg(&self) -> &Leg
        ensures { result.now ≡ self.now.leg }
    {
        &self.leg
    }

    /// The number of the transition.
    pub fn trans(&self) -> u8
        ensures { result ≡ self.now.transition }
    {
        self.trans
    }

    /// The values after the jump, over the denominator of its gap.
    pub fn after(&self) -> &[i128]
        ensures { result.now ≡ self.now.after }
    {
        self.after.as_slice()
    }
}

/// The part of a run in one gap: moves, and then a last leg.
#[derive(Debug, Drop)]
pub struct GapRun {
    den: i128,
    start: Vec<i128>,
    start_loc: u8,
    moves: Vec<Move>,
    last: Leg,
}

impl Model for GapRun {
    ghost use Rattle.run_specs.specs.Runs as runs;

    ghost Value = { runs.GapRun };

    ghost view = { λ g. record { den = g.den; start_loc = g.start_loc; start = g.start.items; moves = g.moves.items; last = g.last } };
}

impl GapRun {
    /// The part of a run that starts at these values in this location, all numbers over `den`.
    /// Takes no memory.
    pub fn new(den: i128, start: Vec<i128>, start_loc: u8, moves: Vec<Move>, last: Leg) -> GapRun
        ensures { result ≡ record { den = den; start_loc = start_loc; start = start.items; moves = moves.items; last = last } }
    {
        GapRun {
            den,
            start,
            start_loc,
            moves,
            last,
        }
    }

    /// The denominator of all its numbers.
    pub fn den(&self) -> i128
        ensures { result ≡ self.now.den }
    {
        self.den
    }

    /// The values where it starts.
    pub fn start(&self) -> &[i128]
        ensures { result.now ≡ self.now.start }
    {
        self.start.as_slice()
    }

    /// The number of the location where it starts.
    pub fn start_loc(&self) -> u8
        ensures { result ≡ self.now.start_loc }
    {
        self.start_loc
    }

    /// Its moves, in order.
    pub fn moves(&self) -> &[Move]
        ensures { result.now ≡ self.now.moves }
    {
        self.moves.as_slice()
    }

    /// Its last leg, after which no jump comes.
    pub fn last(&self) -> &Leg
        ensures { result.now ≡ self.now.last }
    {
        &self.last
    }
}

/// A run: a part for each gap.
#[derive(Debug, Drop)]
pub struct Run {
    gaps: Vec<GapRun>,
}

impl Model for Run {
    ghost use Rattle.std.specs.Prelude.{List};
    ghost use Rattle.run_specs.specs.Runs as runs;

    ghost Value = { List runs.GapRun };

    ghost view = { λ r. r.gaps.items };
}

impl Run {
    /// A run of these parts. Takes no memory.
    pub fn new(gaps: Vec<GapRun>) -> Run
        ensures { result ≡ gaps.items }
    {
        Run { gaps }
    }

    /// Its parts, in order.
    pub fn gaps(&self) -> &[GapRun]
        ensures { result.now ≡ self.now }
    {
        self.gaps.as_slice()
    }
}
