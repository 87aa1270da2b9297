//! Trees that grow a line at a time. The last automaton and its last location may still miss lines: a line that has not come
//! stands as an empty list in line 0, or as `None`.

ghost use Rattle.std.specs.Prelude.{◌≡◌, ◌++◌, ◌∷◌, [], IfOk};
ghost use Rattle.lang_order.specs.Adding as adding;
ghost use Rattle.lang_order.specs.Statements as statements;
ghost use Rattle.lang_order.specs.Adding.{in_last, new_loc, new_tree};
ghost use Rattle.lang_lines.specs.Lines.{says, HasLine};
ghost use Rattle.lang_texts.specs.Growing.{locs_in, trees_in};

use lang_lines::Line;
use lang_trees::{BoundsTree, BoxesTree, LocTree, RowsTree, TransTree, Tree};
use lha_model::Name;
use std::alloc::{AllocError, Global};
use std::marker::Model;

/// A location that may still miss lines.
#[derive(Drop)]
pub(crate) struct GrowingLoc {
    line: u32,
    name: Name,
    unsafe_loc: bool,
    init: Option<RowsTree>,
    inv: Option<RowsTree>,
    flow: BoxesTree,
    also: Option<RowsTree>,
}

impl Model for GrowingLoc {
    ghost use Rattle.lang_specs.specs.Trees as trees;

    ghost Value = { trees.LocTree };

    ghost view = { λ l. record { line = l.line; name = l.name; is_unsafe = l.unsafe_loc; init = l.init; inv = l.inv; flow = l.flow; also = l.also } };
}

impl GrowingLoc {
    /// A location of which only the first line has come. Takes no memory.
    fn new(alloc: Global, line: u32, name: Name, unsafe_loc: bool) -> GrowingLoc
        ensures { result ≡ new_loc line name unsafe_loc }
    {
        GrowingLoc {
            line,
            name,
            unsafe_loc,
            init: None,
            inv: None,
            flow: BoxesTree::new(0, Vec::new(alloc)),
            also: None,
        }
    }

    /// The location with one more line.
    fn add(self, line: u32, what: Line) -> GrowingLoc
        ensures { result ≡ adding.add_to_loc line (says what) self }
    {
        match what {
            Line::Init(rows) => GrowingLoc {
                init: Some(RowsTree::new(line, rows)),
                ..self
            },
            Line::Inv(rows) => GrowingLoc {
                inv: Some(RowsTree::new(line, rows)),
                ..self
            },
            Line::Flow(boxes) => GrowingLoc {
                flow: BoxesTree::new(line, boxes),
                ..self
            },
            Line::Also(rows) => GrowingLoc {
                also: Some(RowsTree::new(line, rows)),
                ..self
            },
            _ => self,
        }
    }

    /// The location as it stands.
    fn tree(self) -> LocTree
        ensures { result ≡ self }
    {
        LocTree::new(
            self.line,
            self.name,
            self.unsafe_loc,
            self.init,
            self.inv,
            self.flow,
            self.also,
        )
    }
}

/// The locations of an automaton, of which there is at least one; the last may still miss lines.
#[derive(Drop)]
pub(crate) struct GrowingLocs {
    whole: Vec<LocTree>,
    last: GrowingLoc,
}

impl Model for GrowingLocs {
    ghost use Rattle.std.specs.Prelude.{List, ◌++◌, ◌∷◌, []};
    ghost use Rattle.lang_specs.specs.Trees as trees;

    ghost Value = { List trees.LocTree };

    ghost view = { λ l. l.whole.items ++ l.last ∷ [] };
}

impl GrowingLocs {
    /// The locations as they stand.
    fn trees(self) -> Result<Vec<LocTree>, AllocError>
        ensures { IfOk result (λ v. v.items ≡ self) }
    {
        let mut trees = self.whole;
        trees.push(self.last.tree())?;
        Ok(trees)
    }

    /// The locations with one more line of the last.
    fn add(self, line: u32, what: Line) -> GrowingLocs
        ensures { result ≡ in_last (adding.add_to_loc line (says what)) self }
    {
        GrowingLocs {
            whole: self.whole,
            last: self.last.add(line, what),
        }
    }
}

/// The locations as they stand, if there is one.
fn loc_trees(alloc: Global, locs: Option<GrowingLocs>) -> Result<Vec<LocTree>, AllocError>
    ensures { IfOk result (λ v. v.items ≡ locs_in locs) }
{
    match locs {
        Some(locs) => locs.trees(),
        None => Ok(Vec::new(alloc)),
    }
}

/// The locations with one more line of the last, if there is one.
fn add_to_last(line: u32, what: Line, locs: Option<GrowingLocs>) -> Option<GrowingLocs>
    ensures { locs_in result ≡ in_last (adding.add_to_loc line (says what)) (locs_in locs) }
{
    match locs {
        Some(locs) => Some(locs.add(line, what)),
        None => None,
    }
}

/// The locations with one more, of which only the first line has come.
fn with_loc(
    alloc: Global,
    line: u32,
    name: Name,
    unsafe_loc: bool,
    locs: Option<GrowingLocs>,
) -> Result<GrowingLocs, AllocError>
    ensures { IfOk result (λ l. l ≡ locs_in locs ++ new_loc line name unsafe_loc ∷ []) }
{
    let whole = loc_trees(alloc, locs)?;
    Ok(GrowingLocs {
        whole,
        last: GrowingLoc::new(alloc, line, name, unsafe_loc),
    })
}

/// An automaton that may still miss lines.
#[derive(Drop)]
pub(crate) struct GrowingTree {
    line: u32,
    name: Name,
    vars: Vec<Name>,
    var_line: u32,
    obs: Option<BoundsTree>,
    locs: Option<GrowingLocs>,
    trans: Vec<TransTree>,
}

impl Model for GrowingTree {
    ghost use Rattle.lang_specs.specs.Trees as trees;
    ghost use Rattle.lang_texts.specs.Growing.{locs_in};

    ghost Value = { trees.Tree };

    ghost view = { λ t. record { line = t.line; name = t.name; vars = t.vars.items; var_line = t.var_line; obs = t.obs; locs = locs_in t.locs; trans = t.trans.items } };
}

impl GrowingTree {
    /// An automaton of which only the first line has come. Takes no memory.
    fn new(alloc: Global, line: u32, name: Name) -> GrowingTree
        ensures { result ≡ new_tree line name }
    {
        GrowingTree {
            line,
            name,
            vars: Vec::new(alloc),
            var_line: 0,
            obs: None,
            locs: None,
            trans: Vec::new(alloc),
        }
    }

    /// The automaton with one more location, of which only the first line has come.
    fn add_loc(
        self,
        alloc: Global,
        line: u32,
        name: Name,
        unsafe_loc: bool,
    ) -> Result<GrowingTree, AllocError>
        ensures { IfOk result (λ t. t ≡ adding.add_to_tree line (statements.Loc name unsafe_loc) self) }
    {
        let locs = with_loc(alloc, line, name, unsafe_loc, self.locs)?;
        Ok(GrowingTree {
            locs: Some(locs),
            ..self
        })
    }

    /// The automaton with one more transition.
    fn add_transition(self, transition: TransTree) -> Result<GrowingTree, AllocError>
        ensures { IfOk result (λ t. t ≡ record self { trans = self.trans ++ transition ∷ [] }) }
    {
        let mut trans = self.trans;
        trans.push(transition)?;
        Ok(GrowingTree { trans, ..self })
    }

    /// The automaton with one more line.
    fn add(self, alloc: Global, line: u32, what: Line) -> Result<GrowingTree, AllocError>
        requires { HasLine line what }
        ensures { IfOk result (λ t. t ≡ adding.add_to_tree line (says what) self) }
    {
        match what {
            Line::Vars(vars) => Ok(GrowingTree {
                vars,
                var_line: line,
                ..self
            }),
            Line::Obs(bounds) => Ok(GrowingTree {
                obs: Some(BoundsTree::new(line, bounds)),
                ..self
            }),
            Line::Loc { name, unsafe_loc } => self.add_loc(alloc, line, name, unsafe_loc),
            Line::Trans(transition) => self.add_transition(transition),
            what => Ok(GrowingTree {
                locs: add_to_last(line, what, self.locs),
                ..self
            }),
        }
    }

    /// The automaton as it stands.
    fn tree(self, alloc: Global) -> Result<Tree, AllocError>
        ensures { IfOk result (λ t. t ≡ self) }
    {
        let locs = loc_trees(alloc, self.locs)?;
        Ok(Tree::new(
            self.line,
            self.name,
            self.vars,
            self.var_line,
            self.obs,
            locs,
            self.trans,
        ))
    }
}

/// The automata of a text, of which there is at least one; the last may still miss lines.
#[derive(Drop)]
pub(crate) struct GrowingTrees {
    whole: Vec<Tree>,
    last: GrowingTree,
}

impl Model for GrowingTrees {
    ghost use Rattle.std.specs.Prelude.{List, ◌++◌, ◌∷◌, []};
    ghost use Rattle.lang_specs.specs.Trees as trees;

    ghost Value = { List trees.Tree };

    ghost view = { λ t. t.whole.items ++ t.last ∷ [] };
}

impl GrowingTrees {
    /// The automata as they stand.
    fn trees(self, alloc: Global) -> Result<Vec<Tree>, AllocError>
        ensures { IfOk result (λ v. v.items ≡ self) }
    {
        let mut trees = self.whole;
        trees.push(self.last.tree(alloc)?)?;
        Ok(trees)
    }

    /// The automata with one more line of the last.
    fn add(self, alloc: Global, line: u32, what: Line) -> Result<GrowingTrees, AllocError>
        requires { HasLine line what }
        ensures { IfOk result (λ t. t ≡ in_last (adding.add_to_tree line (says what)) self) }
    {
        Ok(GrowingTrees {
            whole: self.whole,
            last: self.last.add(alloc, line, what)?,
        })
    }
}

/// The automata as they stand, if there is one.
pub(crate) fn trees_of(alloc: Global, trees: Option<GrowingTrees>) -> Result<Vec<Tree>, AllocError>
    ensures { IfOk result (λ v. v.items ≡ trees_in trees) }
{
    match trees {
        Some(trees) => trees.trees(alloc),
        None => Ok(Vec::new(alloc)),
    }
}

/// The automata with one more, of which only the first line has come.
fn with_tree(
    alloc: Global,
    line: u32,
    name: Name,
    trees: Option<GrowingTrees>,
) -> Result<GrowingTrees, AllocError>
    ensures { IfOk result (λ t. t ≡ trees_in trees ++ new_tree line name ∷ []) }
{
    let whole = trees_of(alloc, trees)?;
    Ok(GrowingTrees {
        whole,
        last: GrowingTree::new(alloc, line, name),
    })
}

/// The automata with one more line.
pub(crate) fn add(
    alloc: Global,
    line: u32,
    what: Line,
    trees: Option<GrowingTrees>,
) -> Result<Option<GrowingTrees>, AllocError>
    requires { HasLine line what }
    ensures { IfOk result (λ t. trees_in t ≡ adding.add line (says what) (trees_in trees)) }
{
    match what {
        Line::Version(_) | Line::End => Ok(trees),
        Line::Automaton(name) => Ok(Some(with_tree(alloc, line, name, trees)?)),
        what => match trees {
            Some(trees) => Ok(Some(trees.add(alloc, line, what)?)),
            None => Ok(None),
        },
    }
}
