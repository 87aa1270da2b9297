//! The locations and transitions of automata.

ghost use Rattle.std.specs.Prelude.{◌≡◌, option_map};

use crate::names::Name;
use crate::sequences::Sequence;
use lin_row::Row;
use std::marker::Model;

/// Where a run stays.
#[derive(Debug, PartialEq, Eq, Hash, Drop)]
pub struct Loc {
    name: Name,
    unsafe_loc: bool,
    init: Option<Sequence<Row>>,
    inv: Sequence<Row>,
    flow: Sequence<Row>,
}

impl Model for Loc {
    ghost use Rattle.run_specs.specs.Automaton.{Location};

    ghost Value = { Location };

    ghost view = { λ l. record { name = l.name; is_unsafe = l.unsafe_loc; init = l.init; invariant = l.inv; slopes = l.flow } };

    ghost inverse = { λ l. record { name = l.name; unsafe_loc = l.is_unsafe; init = l.init; inv = l.invariant; flow = l.slopes } };
}

impl Loc {
    /// A location of these fields. Takes no memory.
    pub fn new(
        name: Name,
        unsafe_loc: bool,
        init: Option<Vec<Row>>,
        inv: Vec<Row>,
        flow: Vec<Row>,
    ) -> Loc
        ensures { result ≡ record { name = name; is_unsafe = unsafe_loc; init = option_map (λ rows. rows.items) init; invariant = inv.items; slopes = flow.items } }
    {
        Loc {
            name,
            unsafe_loc,
            init: init.map(|items| Sequence { items }),
            inv: Sequence { items: inv },
            flow: Sequence { items: flow },
        }
    }

    /// Its name.
    pub fn name(&self) -> &Name
        ensures { result.now ≡ self.now.name }
    {
        &self.name
    }

    /// Whether it is an alarm that a run stays here.
    pub fn unsafe_loc(&self) -> bool
        ensures { result ≡ self.now.is_unsafe }
    {
        self.unsafe_loc
    }

    /// The rows of the points where a run may start, over the values; `None` where no run starts here.
    pub fn init(&self) -> Option<&[Row]>
        ensures { option_map (λ rows. rows.now) result ≡ self.now.init }
    {
        match &self.init {
            None => None,
            Some(rows) => Some(rows.as_slice()),
        }
    }

    /// The rows of the points where a run may stay, over the values.
    pub fn inv(&self) -> &[Row]
        ensures { result.now ≡ self.now.invariant }
    {
        self.inv.as_slice()
    }

    /// The rows of its legs, over the slope of each variable and then the duration.
    pub fn flow(&self) -> &[Row]
        ensures { result.now ≡ self.now.slopes }
    {
        self.flow.as_slice()
    }
}

/// How a run jumps.
#[derive(Debug, PartialEq, Eq, Hash, Drop)]
pub struct Trans {
    label: Name,
    from: u8,
    to: u8,
    rel: Sequence<Row>,
}

impl Model for Trans {
    ghost use Rattle.run_specs.specs.Automaton.{Transition};

    ghost Value = { Transition };

    ghost view = { λ e. record { label = e.label; source = e.from; target = e.to; relation = e.rel } };

    ghost inverse = { λ e. record { label = e.label; from = e.source; to = e.target; rel = e.relation } };
}

impl Trans {
    /// A transition of these fields. Takes no memory.
    pub fn new(label: Name, from: u8, to: u8, rel: Vec<Row>) -> Trans
        ensures { result ≡ record { label = label; source = from; target = to; relation = rel.items } }
    {
        Trans {
            label,
            from,
            to,
            rel: Sequence { items: rel },
        }
    }

    /// Its label, which other transitions may have too.
    pub fn label(&self) -> &Name
        ensures { result.now ≡ self.now.label }
    {
        &self.label
    }

    /// The number of the location that it leaves.
    pub fn from(&self) -> u8
        ensures { result ≡ self.now.source }
    {
        self.from
    }

    /// The number of the location that it enters.
    pub fn to(&self) -> u8
        ensures { result ≡ self.now.target }
    {
        self.to
    }

    /// The rows of its jumps, over the values before and then those after.
    pub fn rel(&self) -> &[Row]
        ensures { result.now ≡ self.now.relation }
    {
        self.rel.as_slice()
    }
}
