//! Trees of models: automata as a text spells them, with the lines of their statements.

ghost use Rattle.std.specs.Prelude.{◌≡◌, List, option_map};
ghost use Rattle.lang_specs.specs.Trees as trees;
ghost use Rattle.lang_trees.specs.Acts.{act_of};

use frac128::Frac;
pub use lang_specs::{Sign, Which};
use lha_model::{Name, Sequence};
use std::marker::Model;

/// A number, or a number times a variable, taken away where `neg`.
#[derive(Debug, PartialEq, Eq, Drop)]
pub struct Term {
    neg: bool,
    value: Frac,
    var: Option<Name>,
}

impl Model for Term {
    ghost use Rattle.lang_specs.specs.Trees as trees;

    ghost Value = { trees.Term };

    ghost view = { λ t. record { neg = t.neg; value = t.value; var = t.var } };

    ghost inverse = { λ t. record { neg = t.neg; value = t.value; var = t.var } };
}

impl Term {
    /// The tree of these parts. Takes no memory.
    pub fn new(neg: bool, value: Frac, var: Option<Name>) -> Term
        ensures { result ≡ record { neg = neg; value = value; var = var } }
    {
        Term { neg, value, var }
    }

    /// Whether it is taken away.
    pub fn neg(&self) -> bool
        ensures { result ≡ self.now.neg }
    {
        self.neg
    }

    /// The number, at least 0 in a tree that is read.
    pub fn value(&self) -> &Frac
        ensures { result.now ≡ self.now.value }
    {
        &self.value
    }

    /// The variable; `None` for a number alone.
    pub fn var(&self) -> Option<&Name>
        ensures { option_map (λ x. x.now) result ≡ self.now.var }
    {
        self.var.as_ref()
    }
}

/// An expression: the sum of its terms, of which there is at least one in a tree that is read.
#[derive(Debug, PartialEq, Eq, Drop)]
pub struct Expr {
    terms: Sequence<Term>,
}

impl Model for Expr {
    ghost use Rattle.std.specs.Prelude.{List};
    ghost use Rattle.lang_specs.specs.Trees as trees;

    ghost Value = { List trees.Term };

    ghost view = { λ e. e.terms };

    ghost inverse = { λ terms. record { terms = terms } };
}

impl Expr {
    /// The expression of these terms. Takes no memory.
    pub fn new(terms: Vec<Term>) -> Expr
        ensures { result ≡ terms.items }
    {
        Expr {
            terms: Sequence { items: terms },
        }
    }

    /// Its terms.
    pub fn terms(&self) -> &[Term]
        ensures { result.now ≡ self.now }
    {
        self.terms.as_slice()
    }
}

/// A constraint between two expressions.
#[derive(Debug, PartialEq, Eq, Drop)]
pub struct RowTree {
    left: Expr,
    sign: Sign,
    right: Expr,
}

impl Model for RowTree {
    ghost use Rattle.lang_specs.specs.Trees as trees;

    ghost Value = { trees.RowTree };

    ghost view = { λ t. record { left = t.left; sign = t.sign; right = t.right } };

    ghost inverse = { λ t. record { left = t.left; sign = t.sign; right = t.right } };
}

impl RowTree {
    /// The tree of these parts. Takes no memory.
    pub fn new(left: Expr, sign: Sign, right: Expr) -> RowTree
        ensures { result ≡ record { left = left; sign = sign; right = right } }
    {
        RowTree { left, sign, right }
    }

    /// The expression before the sign.
    pub fn left(&self) -> &Expr
        ensures { result.now ≡ self.now.left }
    {
        &self.left
    }

    /// How the two compare.
    pub fn sign(&self) -> Sign
        ensures { result ≡ self.now.sign }
    {
        self.sign
    }

    /// The expression behind the sign.
    pub fn right(&self) -> &Expr
        ensures { result.now ≡ self.now.right }
    {
        &self.right
    }
}

/// A statement `init`, `inv` or `also`.
#[derive(Debug, PartialEq, Eq, Drop)]
pub struct RowsTree {
    line: u32,
    rows: Sequence<RowTree>,
}

impl Model for RowsTree {
    ghost use Rattle.lang_specs.specs.Trees as trees;

    ghost Value = { trees.RowsTree };

    ghost view = { λ t. record { line = t.line; rows = t.rows } };

    ghost inverse = { λ t. record { line = t.line; rows = t.rows } };
}

impl RowsTree {
    /// The tree of these parts. Takes no memory.
    pub fn new(line: u32, rows: Vec<RowTree>) -> RowsTree
        ensures { result ≡ record { line = line; rows = rows.items } }
    {
        RowsTree {
            line,
            rows: Sequence { items: rows },
        }
    }

    /// Its line, from 1.
    pub fn line(&self) -> u32
        ensures { result ≡ self.now.line }
    {
        self.line
    }

    /// Its constraints; none for `true`.
    pub fn rows(&self) -> &[RowTree]
        ensures { result.now ≡ self.now.rows }
    {
        self.rows.as_slice()
    }
}

/// The least and the greatest slope of a variable.
#[derive(Debug, PartialEq, Eq, Drop)]
pub struct BoxTree {
    var: Name,
    lo: Frac,
    hi: Frac,
}

impl Model for BoxTree {
    ghost use Rattle.lang_specs.specs.Trees as trees;

    ghost Value = { trees.BoxTree };

    ghost view = { λ t. record { var = t.var; lo = t.lo; hi = t.hi } };

    ghost inverse = { λ t. record { var = t.var; lo = t.lo; hi = t.hi } };
}

impl BoxTree {
    /// The tree of these parts. Takes no memory.
    pub fn new(var: Name, lo: Frac, hi: Frac) -> BoxTree
        ensures { result ≡ record { var = var; lo = lo; hi = hi } }
    {
        BoxTree { var, lo, hi }
    }

    /// The variable.
    pub fn var(&self) -> &Name
        ensures { result.now ≡ self.now.var }
    {
        &self.var
    }

    /// The least slope.
    pub fn lo(&self) -> &Frac
        ensures { result.now ≡ self.now.lo }
    {
        &self.lo
    }

    /// The greatest slope.
    pub fn hi(&self) -> &Frac
        ensures { result.now ≡ self.now.hi }
    {
        &self.hi
    }
}

/// A statement `flow`.
#[derive(Debug, PartialEq, Eq, Drop)]
pub struct BoxesTree {
    line: u32,
    boxes: Sequence<BoxTree>,
}

impl Model for BoxesTree {
    ghost use Rattle.lang_specs.specs.Trees as trees;

    ghost Value = { trees.BoxesTree };

    ghost view = { λ t. record { line = t.line; boxes = t.boxes } };

    ghost inverse = { λ t. record { line = t.line; boxes = t.boxes } };
}

impl BoxesTree {
    /// The tree of these parts. Takes no memory.
    pub fn new(line: u32, boxes: Vec<BoxTree>) -> BoxesTree
        ensures { result ≡ record { line = line; boxes = boxes.items } }
    {
        BoxesTree {
            line,
            boxes: Sequence { items: boxes },
        }
    }

    /// Its line, from 1.
    pub fn line(&self) -> u32
        ensures { result ≡ self.now.line }
    {
        self.line
    }

    /// Its boxes.
    pub fn boxes(&self) -> &[BoxTree]
        ensures { result.now ≡ self.now.boxes }
    {
        self.boxes.as_slice()
    }
}

/// The tolerance of a variable.
#[derive(Debug, PartialEq, Eq, Drop)]
pub struct BoundTree {
    var: Name,
    within: Frac,
}

impl Model for BoundTree {
    ghost use Rattle.lang_specs.specs.Trees as trees;

    ghost Value = { trees.BoundTree };

    ghost view = { λ t. record { var = t.var; within = t.within } };

    ghost inverse = { λ t. record { var = t.var; within = t.within } };
}

impl BoundTree {
    /// The tree of these parts. Takes no memory.
    pub fn new(var: Name, within: Frac) -> BoundTree
        ensures { result ≡ record { var = var; within = within } }
    {
        BoundTree { var, within }
    }

    /// The variable.
    pub fn var(&self) -> &Name
        ensures { result.now ≡ self.now.var }
    {
        &self.var
    }

    /// The tolerance.
    pub fn within(&self) -> &Frac
        ensures { result.now ≡ self.now.within }
    {
        &self.within
    }
}

/// A statement `obs`.
#[derive(Debug, PartialEq, Eq, Drop)]
pub struct BoundsTree {
    line: u32,
    bounds: Sequence<BoundTree>,
}

impl Model for BoundsTree {
    ghost use Rattle.lang_specs.specs.Trees as trees;

    ghost Value = { trees.BoundsTree };

    ghost view = { λ t. record { line = t.line; bounds = t.bounds } };

    ghost inverse = { λ t. record { line = t.line; bounds = t.bounds } };
}

impl BoundsTree {
    /// The tree of these parts. Takes no memory.
    pub fn new(line: u32, bounds: Vec<BoundTree>) -> BoundsTree
        ensures { result ≡ record { line = line; bounds = bounds.items } }
    {
        BoundsTree {
            line,
            bounds: Sequence { items: bounds },
        }
    }

    /// Its line, from 1.
    pub fn line(&self) -> u32
        ensures { result ≡ self.now.line }
    {
        self.line
    }

    /// Its tolerances.
    pub fn bounds(&self) -> &[BoundTree]
        ensures { result.now ≡ self.now.bounds }
    {
        self.bounds.as_slice()
    }
}

/// A location.
#[derive(Debug, PartialEq, Eq, Drop)]
pub struct LocTree {
    line: u32,
    name: Name,
    unsafe_loc: bool,
    init: Option<RowsTree>,
    inv: Option<RowsTree>,
    flow: BoxesTree,
    also: Option<RowsTree>,
}

impl Model for LocTree {
    ghost use Rattle.lang_specs.specs.Trees as trees;

    ghost Value = { trees.LocTree };

    ghost view = { λ t. record { line = t.line; name = t.name; is_unsafe = t.unsafe_loc; init = t.init; inv = t.inv; flow = t.flow; also = t.also } };

    ghost inverse = { λ t. record { line = t.line; name = t.name; unsafe_loc = t.is_unsafe; init = t.init; inv = t.inv; flow = t.flow; also = t.also } };
}

impl LocTree {
    /// The tree of these parts. Takes no memory.
    pub fn new(
        line: u32,
        name: Name,
        unsafe_loc: bool,
        init: Option<RowsTree>,
        inv: Option<RowsTree>,
        flow: BoxesTree,
        also: Option<RowsTree>,
    ) -> LocTree
        ensures { result ≡ record { line = line; name = name; is_unsafe = unsafe_loc; init = init; inv = inv; flow = flow; also = also } }
    {
        LocTree {
            line,
            name,
            unsafe_loc,
            init,
            inv,
            flow,
            also,
        }
    }

    /// The line of its `loc`, from 1.
    pub fn line(&self) -> u32
        ensures { result ≡ self.now.line }
    {
        self.line
    }

    /// Its name.
    pub fn name(&self) -> &Name
        ensures { result.now ≡ self.now.name }
    {
        &self.name
    }

    /// Whether it is marked `unsafe`.
    pub fn unsafe_loc(&self) -> bool
        ensures { result ≡ self.now.is_unsafe }
    {
        self.unsafe_loc
    }

    /// Its statement `init`, if it has one.
    pub fn init(&self) -> Option<&RowsTree>
        ensures { option_map (λ x. x.now) result ≡ self.now.init }
    {
        self.init.as_ref()
    }

    /// Its statement `inv`, if it has one.
    pub fn inv(&self) -> Option<&RowsTree>
        ensures { option_map (λ x. x.now) result ≡ self.now.inv }
    {
        self.inv.as_ref()
    }

    /// Its statement `flow`.
    pub fn flow(&self) -> &BoxesTree
        ensures { result.now ≡ self.now.flow }
    {
        &self.flow
    }

    /// Its statement `also`, if it has one.
    pub fn also(&self) -> Option<&RowsTree>
        ensures { option_map (λ x. x.now) result ≡ self.now.also }
    {
        self.also.as_ref()
    }
}

/// The parts of an act. Expressions speak of the values before the transition.
#[derive(Debug, PartialEq, Eq, Drop)]
pub enum ActParts {
    /// The variable takes the value of the expression.
    Set { var: Name, value: Expr },
    /// The variable takes a value from the first expression to the second.
    Within { var: Name, lo: Expr, hi: Expr },
    /// The variable takes any value.
    Free { var: Name },
}

/// What a transition does to a variable.
#[derive(Debug, PartialEq, Eq, Drop)]
pub struct ActTree {
    parts: ActParts,
}

impl Model for ActTree {
    ghost use Rattle.lang_specs.specs.Trees as trees;
    ghost use Rattle.lang_trees.specs.Acts.{act_of, parts_of};

    ghost Value = { trees.Act };

    ghost view = { λ a. act_of a.parts };

    ghost inverse = { λ a. record { parts = parts_of a } };
}

impl ActTree {
    /// The act of these parts. Takes no memory.
    pub fn new(parts: ActParts) -> ActTree
        ensures { result ≡ act_of parts }
    {
        ActTree { parts }
    }

    /// Its parts.
    pub fn parts(&self) -> &ActParts
        ensures { act_of result.now ≡ self.now }
    {
        &self.parts
    }
}

/// A transition.
#[derive(Debug, PartialEq, Eq, Drop)]
pub struct TransTree {
    line: u32,
    from: Name,
    to: Name,
    label: Name,
    guard: Sequence<RowTree>,
    acts: Sequence<ActTree>,
}

impl Model for TransTree {
    ghost use Rattle.lang_specs.specs.Trees as trees;

    ghost Value = { trees.TransTree };

    ghost view = { λ t. record { line = t.line; from = t.from; to = t.to; label = t.label; guard = t.guard; acts = t.acts } };

    ghost inverse = { λ t. record { line = t.line; from = t.from; to = t.to; label = t.label; guard = t.guard; acts = t.acts } };
}

impl TransTree {
    /// The tree of these parts. Takes no memory.
    pub fn new(
        line: u32,
        from: Name,
        to: Name,
        label: Name,
        guard: Vec<RowTree>,
        acts: Vec<ActTree>,
    ) -> TransTree
        ensures { result ≡ record { line = line; from = from; to = to; label = label; guard = guard.items; acts = acts.items } }
    {
        TransTree {
            line,
            from,
            to,
            label,
            guard: Sequence { items: guard },
            acts: Sequence { items: acts },
        }
    }

    /// Its line, from 1.
    pub fn line(&self) -> u32
        ensures { result ≡ self.now.line }
    {
        self.line
    }

    /// The location that it leaves.
    pub fn from(&self) -> &Name
        ensures { result.now ≡ self.now.from }
    {
        &self.from
    }

    /// The location that it enters.
    pub fn to(&self) -> &Name
        ensures { result.now ≡ self.now.to }
    {
        &self.to
    }

    /// Its label.
    pub fn label(&self) -> &Name
        ensures { result.now ≡ self.now.label }
    {
        &self.label
    }

    /// Its guard; empty where it has none.
    pub fn guard(&self) -> &[RowTree]
        ensures { result.now ≡ self.now.guard }
    {
        self.guard.as_slice()
    }

    /// What it does to variables, in the order of the text.
    pub fn acts(&self) -> &[ActTree]
        ensures { result.now ≡ self.now.acts }
    {
        self.acts.as_slice()
    }
}

/// An automaton.
#[derive(Debug, PartialEq, Eq, Drop)]
pub struct Tree {
    line: u32,
    name: Name,
    vars: Sequence<Name>,
    var_line: u32,
    obs: Option<BoundsTree>,
    locs: Sequence<LocTree>,
    trans: Sequence<TransTree>,
}

impl Model for Tree {
    ghost use Rattle.lang_specs.specs.Trees as trees;

    ghost Value = { trees.Tree };

    ghost view = { λ t. record { line = t.line; name = t.name; vars = t.vars; var_line = t.var_line; obs = t.obs; locs = t.locs; trans = t.trans } };

    ghost inverse = { λ t. record { line = t.line; name = t.name; vars = t.vars; var_line = t.var_line; obs = t.obs; locs = t.locs; trans = t.trans } };
}

impl Tree {
    /// The tree of these parts. Takes no memory.
    pub fn new(
        line: u32,
        name: Name,
        vars: Vec<Name>,
        var_line: u32,
        obs: Option<BoundsTree>,
        locs: Vec<LocTree>,
        trans: Vec<TransTree>,
    ) -> Tree
        ensures { result ≡ record { line = line; name = name; vars = vars.items; var_line = var_line; obs = obs; locs = locs.items; trans = trans.items } }
    {
        Tree {
            line,
            name,
            vars: Sequence { items: vars },
            var_line,
            obs,
            locs: Sequence { items: locs },
            trans: Sequence { items: trans },
        }
    }

    /// The line of its `automaton`, from 1.
    pub fn line(&self) -> u32
        ensures { result ≡ self.now.line }
    {
        self.line
    }

    /// Its name.
    pub fn name(&self) -> &Name
        ensures { result.now ≡ self.now.name }
    {
        &self.name
    }

    /// Its variables.
    pub fn vars(&self) -> &[Name]
        ensures { result.now ≡ self.now.vars }
    {
        self.vars.as_slice()
    }

    /// The line of its `var`, from 1.
    pub fn var_line(&self) -> u32
        ensures { result ≡ self.now.var_line }
    {
        self.var_line
    }

    /// Its statement `obs`, if it has one.
    pub fn obs(&self) -> Option<&BoundsTree>
        ensures { option_map (λ x. x.now) result ≡ self.now.obs }
    {
        self.obs.as_ref()
    }

    /// Its locations.
    pub fn locs(&self) -> &[LocTree]
        ensures { result.now ≡ self.now.locs }
    {
        self.locs.as_slice()
    }

    /// Its transitions.
    pub fn trans(&self) -> &[TransTree]
        ensures { result.now ≡ self.now.trans }
    {
        self.trans.as_slice()
    }
}
