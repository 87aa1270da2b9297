//! Prints trees as the one text that is canonical for them.

ghost use Rattle.std.specs.Prelude.{◌≡◌, ◌∷◌, ◌++◌, [], option_map, OnOk, IfOk};
ghost use Rattle.std.specs.List.{flat_map, list_any};
ghost use Rattle.lang_specs.specs.declared.Kind.TheVariants as kinds;
ghost use Rattle.lang_specs.specs.Marks as marks;
ghost use Rattle.lang_specs.specs.Trees as trees;
ghost use Rattle.lang_specs.specs.Expressions.{minus_if, sign_mark};
ghost use Rattle.lang_specs.specs.Grammar.{unsafe_if, version};
ghost use Rattle.lang_specs.specs.Canonical as canonical;
ghost use Rattle.lang_specs.specs.Canonical.{joined};
ghost use Rattle.lang_print.specs.Pages.{with_token, with_tokens, with_line, with_lines, at_line_start};

use crate::pages::Page;
use frac128::Frac;
use lang_specs::Kind;
use lang_trees::{
    ActParts, ActTree, BoundTree, BoundsTree, BoxTree, Expr, LocTree, RowTree, RowsTree, Sign,
    Term, TransTree, Tree,
};
use lha_model::Name;
use std::alloc::{AllocError, Global};

/// What is printed inside a statement.
trait Print {
    ghost use Rattle.std.specs.Prelude.{List};
    ghost use Rattle.lang_specs.specs.Marks.{Mark};

    /// Its tokens.
    ghost tokens: { Self → List Mark };

    /// Prints its tokens.
    fn print(&self, page: &mut Page) -> Result<(), AllocError>
        ensures { OnOk result (page.new ≡ with_tokens page.old (tokens self.now)) };
}

/// Prints each thing behind a comma.
fn more_with_commas<T: Print>(page: &mut Page, items: &[T]) -> Result<(), AllocError>
    ensures { OnOk result (page.new ≡ with_tokens page.old (flat_map (λ x. marks.the kinds.Comma ∷ T.tokens x) items.now)) }
{
    for item in items {
        page.key(Kind::Comma)?;
        item.print(page)?;
    }
    Ok(())
}

/// Prints the things with commas between.
fn with_commas<T: Print>(page: &mut Page, items: &[T]) -> Result<(), AllocError>
    ensures { OnOk result (page.new ≡ with_tokens page.old (joined T.tokens items.now)) }
{
    match items {
        [] => Ok(()),
        [first, rest @ ..] => {
            first.print(page)?;
            more_with_commas(page, rest)
        }
    }
}

impl Print for Name {
    ghost use Rattle.std.specs.Prelude.{◌∷◌, []};
    ghost use Rattle.lang_specs.specs.Marks.{a_name};

    ghost tokens = { λ v. a_name v ∷ [] };

    fn print(&self, page: &mut Page) -> Result<(), AllocError> {
        page.name(self)
    }
}

/// Prints a number, behind a `-` where it is below 0.
fn signed_number(page: &mut Page, number: &Frac) -> Result<(), AllocError>
    ensures { OnOk result (page.new ≡ with_tokens page.old (canonical.num_tokens number.now)) }
{
    if number.num() < 0 {
        page.key(Kind::Minus)?;
        page.number(&number.neg())
    } else {
        page.number(number)
    }
}

/// Whether the number is 1.
fn is_one(number: &Frac) -> bool
    ensures { result ≡ canonical.is_one number.now }
{
    number.num() == 1 && number.den() == 1
}

/// Prints a term without its sign.
fn factor(page: &mut Page, term: &Term) -> Result<(), AllocError>
    ensures { OnOk result (page.new ≡ with_tokens page.old (canonical.factor_tokens term.now.value term.now.var)) }
{
    match term.var() {
        None => page.number(term.value()),
        Some(name) => {
            if is_one(term.value()) {
                page.name(name)
            } else {
                page.number(term.value())?;
                page.key(Kind::Times)?;
                page.name(name)
            }
        }
    }
}

/// Prints a `-`, or nothing.
fn leading_minus(page: &mut Page, neg: bool) -> Result<(), AllocError>
    ensures { OnOk result (page.new ≡ with_tokens page.old (minus_if neg)) }
{
    if neg { page.key(Kind::Minus) } else { Ok(()) }
}

/// Prints a term behind another.
fn more_term(page: &mut Page, term: &Term) -> Result<(), AllocError>
    ensures { OnOk result (page.new ≡ with_tokens page.old (canonical.more_term_tokens term.now)) }
{
    page.key(if term.neg() { Kind::Minus } else { Kind::Plus })?;
    factor(page, term)
}

/// Prints terms behind another.
fn more_terms(page: &mut Page, terms: &[Term]) -> Result<(), AllocError>
    ensures { OnOk result (page.new ≡ with_tokens page.old (flat_map canonical.more_term_tokens terms.now)) }
{
    for term in terms {
        more_term(page, term)?;
    }
    Ok(())
}

/// Prints an expression.
#[tactic(auto, using(crate::proofs::PageLemmas::tokens_append))]
fn expr(page: &mut Page, terms: &[Term]) -> Result<(), AllocError>
    ensures { OnOk result (page.new ≡ with_tokens page.old (canonical.expr_tokens terms.now)) }
{
    match terms {
        [] => Ok(()),
        [first, rest @ ..] => {
            leading_minus(page, first.neg())?;
            factor(page, first)?;
            more_terms(page, rest)
        }
    }
}

/// The sign as a token.
fn sign_kind(sign: Sign) -> Kind
    ensures { marks.the result ≡ sign_mark sign }
{
    match sign {
        Sign::AtMost => Kind::AtMost,
        Sign::AtLeast => Kind::AtLeast,
        Sign::Equal => Kind::Equal,
        Sign::Less => Kind::Less,
        Sign::Greater => Kind::Greater,
    }
}

impl Print for RowTree {
    ghost use Rattle.lang_specs.specs.Canonical.{row_tokens};

    ghost tokens = { row_tokens };

    #[tactic(auto, using(crate::proofs::PageLemmas::tokens_append))]
    fn print(&self, page: &mut Page) -> Result<(), AllocError> {
        expr(page, self.left().terms())?;
        page.key(sign_kind(self.sign()))?;
        expr(page, self.right().terms())
    }
}

/// Prints constraints.
fn rows(page: &mut Page, rows: &[RowTree]) -> Result<(), AllocError>
    ensures { OnOk result (page.new ≡ with_tokens page.old (canonical.rows_tokens rows.now)) }
{
    if rows.is_empty() {
        page.key(Kind::True)
    } else {
        with_commas(page, rows)
    }
}

impl Print for BoxTree {
    ghost use Rattle.lang_specs.specs.Canonical.{box_tokens};

    ghost tokens = { box_tokens };

    #[tactic(auto, using(crate::proofs::PageLemmas::tokens_append))]
    fn print(&self, page: &mut Page) -> Result<(), AllocError> {
        page.name(self.var())?;
        page.key(Kind::In)?;
        page.key(Kind::Open)?;
        signed_number(page, self.lo())?;
        page.key(Kind::Comma)?;
        signed_number(page, self.hi())?;
        page.key(Kind::Close)
    }
}

impl Print for BoundTree {
    ghost use Rattle.lang_specs.specs.Canonical.{bound_tokens};

    ghost tokens = { bound_tokens };

    fn print(&self, page: &mut Page) -> Result<(), AllocError> {
        page.name(self.var())?;
        page.key(Kind::Within)?;
        page.number(self.within())
    }
}

/// Prints that the variable takes the value of the expression.
fn set(page: &mut Page, var: &Name, value: &Expr) -> Result<(), AllocError>
    ensures { OnOk result (page.new ≡ with_tokens page.old (canonical.act_tokens (trees.Set var.now value.now))) }
{
    page.name(var)?;
    page.key(Kind::Equal)?;
    expr(page, value.terms())
}

/// Prints that the variable takes a value from the first expression to the second.
#[tactic(auto, using(crate::proofs::PageLemmas::tokens_append))]
fn within(page: &mut Page, var: &Name, lo: &Expr, hi: &Expr) -> Result<(), AllocError>
    ensures { OnOk result (page.new ≡ with_tokens page.old (canonical.act_tokens (trees.Within var.now lo.now hi.now))) }
{
    page.name(var)?;
    page.key(Kind::In)?;
    page.key(Kind::Open)?;
    expr(page, lo.terms())?;
    page.key(Kind::Comma)?;
    expr(page, hi.terms())?;
    page.key(Kind::Close)
}

/// Prints that the variable takes any value.
fn free(page: &mut Page, var: &Name) -> Result<(), AllocError>
    ensures { OnOk result (page.new ≡ with_tokens page.old (canonical.act_tokens (trees.Free var.now))) }
{
    page.key(Kind::Free)?;
    page.name(var)
}

impl Print for ActTree {
    ghost use Rattle.lang_specs.specs.Canonical.{act_tokens};

    ghost tokens = { act_tokens };

    fn print(&self, page: &mut Page) -> Result<(), AllocError> {
        match self.parts() {
            ActParts::Set { var, value } => set(page, var, value),
            ActParts::Within { var, lo, hi } => within(page, var, lo, hi),
            ActParts::Free { var } => free(page, var),
        }
    }
}

/// Prints a guard; an empty one is left out.
fn guard(page: &mut Page, guard: &[RowTree]) -> Result<(), AllocError>
    ensures { OnOk result (page.new ≡ with_tokens page.old (canonical.guard_tokens guard.now)) }
{
    if guard.is_empty() {
        return Ok(());
    }
    page.key(Kind::When)?;
    rows(page, guard)
}

/// Prints acts; an empty list is left out.
fn acts(page: &mut Page, acts: &[ActTree]) -> Result<(), AllocError>
    ensures { OnOk result (page.new ≡ with_tokens page.old (canonical.acts_tokens acts.now)) }
{
    if acts.is_empty() {
        return Ok(());
    }
    page.key(Kind::Set)?;
    with_commas(page, acts)
}

/// What is printed as lines of its own.
trait PrintLines {
    ghost use Rattle.std.specs.Prelude.{List};
    ghost use Rattle.lang_specs.specs.Marks.{Mark};

    /// The tokens of its lines.
    ghost lines: { Self → List (List Mark) };

    /// Prints its lines.
    fn print_lines(&self, page: &mut Page) -> Result<(), AllocError>
        ensures { OnOk result (page.new ≡ with_lines page.old (lines self.now)) };
}

/// Prints the lines of each thing.
fn all_lines<T: PrintLines>(page: &mut Page, items: &[T]) -> Result<(), AllocError>
    ensures { OnOk result (page.new ≡ with_lines page.old (flat_map T.lines items.now)) }
{
    for item in items {
        item.print_lines(page)?;
    }
    Ok(())
}

/// Prints a statement of constraints, where it stands.
fn rows_line(page: &mut Page, kind: Kind, statement: Option<&RowsTree>) -> Result<(), AllocError>
    ensures { OnOk result (page.new ≡ with_lines page.old (canonical.rows_line kind (option_map (λ x. x.now) statement.entry))) }
{
    match statement {
        None => Ok(()),
        Some(statement) => {
            page.key(kind)?;
            rows(page, statement.rows())?;
            page.end_line()
        }
    }
}

/// Prints the line of a location.
fn loc_line(page: &mut Page, loc: &LocTree) -> Result<(), AllocError>
    ensures { OnOk result (page.new ≡ with_line page.old (marks.the kinds.Loc ∷ marks.a_name loc.now.name ∷ unsafe_if loc.now.is_unsafe)) }
{
    page.key(Kind::Loc)?;
    page.name(loc.name())?;
    if loc.unsafe_loc() {
        page.key(Kind::Unsafe)?;
    }
    page.end_line()
}

/// Prints a statement `flow`.
fn flow_line(page: &mut Page, boxes: &[BoxTree]) -> Result<(), AllocError>
    ensures { OnOk result (page.new ≡ with_line page.old (marks.the kinds.Flow ∷ joined canonical.box_tokens boxes.now)) }
{
    page.key(Kind::Flow)?;
    with_commas(page, boxes)?;
    page.end_line()
}

impl PrintLines for LocTree {
    ghost use Rattle.lang_specs.specs.Canonical.{loc_lines};

    ghost lines = { loc_lines };

    #[tactic(auto, using(crate::proofs::PageLemmas::lines_append))]
    fn print_lines(&self, page: &mut Page) -> Result<(), AllocError> {
        loc_line(page, self)?;
        rows_line(page, Kind::Init, self.init())?;
        rows_line(page, Kind::Inv, self.inv())?;
        flow_line(page, self.flow().boxes())?;
        rows_line(page, Kind::Also, self.also())
    }
}

impl PrintLines for TransTree {
    ghost use Rattle.std.specs.Prelude.{◌∷◌, []};
    ghost use Rattle.lang_specs.specs.Canonical.{trans_line};

    ghost lines = { λ t. trans_line t ∷ [] };

    #[tactic(auto, using(crate::proofs::PageLemmas::tokens_append))]
    fn print_lines(&self, page: &mut Page) -> Result<(), AllocError> {
        page.key(Kind::Trans)?;
        page.name(self.from())?;
        page.key(Kind::Arrow)?;
        page.name(self.to())?;
        page.key(Kind::As)?;
        page.name(self.label())?;
        guard(page, self.guard())?;
        acts(page, self.acts())?;
        page.end_line()
    }
}

/// Prints the line of an automaton.
fn name_line(page: &mut Page, name: &Name) -> Result<(), AllocError>
    ensures { OnOk result (page.new ≡ with_line page.old (marks.the kinds.Automaton ∷ marks.a_name name.now ∷ [])) }
{
    page.key(Kind::Automaton)?;
    page.name(name)?;
    page.end_line()
}

/// Prints a statement `var`.
fn var_line(page: &mut Page, vars: &[Name]) -> Result<(), AllocError>
    ensures { OnOk result (page.new ≡ with_line page.old (marks.the kinds.Var ∷ joined (λ v. marks.a_name v ∷ []) vars.now)) }
{
    page.key(Kind::Var)?;
    with_commas(page, vars)?;
    page.end_line()
}

/// Prints a statement `obs`, where it stands.
fn obs_line(page: &mut Page, obs: Option<&BoundsTree>) -> Result<(), AllocError>
    ensures { OnOk result (page.new ≡ with_lines page.old (canonical.obs_line (option_map (λ x. x.now) obs.entry))) }
{
    match obs {
        None => Ok(()),
        Some(obs) => {
            page.key(Kind::Obs)?;
            with_commas(page, obs.bounds())?;
            page.end_line()
        }
    }
}

/// Prints the line that ends an automaton.
fn last_line(page: &mut Page) -> Result<(), AllocError>
    ensures { OnOk result (page.new ≡ with_line page.old (marks.the kinds.End ∷ [])) }
{
    page.key(Kind::End)?;
    page.end_line()
}

impl PrintLines for Tree {
    ghost use Rattle.lang_specs.specs.Canonical.{tree_lines};

    ghost lines = { tree_lines };

    #[tactic(auto, using(crate::proofs::PageLemmas::lines_append))]
    fn print_lines(&self, page: &mut Page) -> Result<(), AllocError> {
        name_line(page, self.name())?;
        var_line(page, self.vars())?;
        obs_line(page, self.obs())?;
        all_lines(page, self.locs())?;
        all_lines(page, self.trans())?;
        last_line(page)
    }
}

/// Whether the sign is strict.
fn is_strict(sign: Sign) -> bool
    ensures { result ≡ canonical.is_strict sign }
{
    matches!(sign, Sign::Less | Sign::Greater)
}

/// Whether some constraint has a strict sign.
fn are_strict(rows: &[RowTree]) -> bool
    ensures { result ≡ list_any (λ r. canonical.is_strict r.sign) rows.now }
{
    rows.iter().any(|row| is_strict(row.sign()))
}

/// The same of a statement, where it stands.
fn statement_is_strict(statement: Option<&RowsTree>) -> bool
    ensures { result ≡ canonical.has_strict (trees.rows_of (option_map (λ x. x.now) statement.entry)) }
{
    match statement {
        None => false,
        Some(statement) => are_strict(statement.rows()),
    }
}

/// The same of the statements of a location.
#[tactic(auto, using(crate::proofs::StrictLemmas::loc_strict))]
fn loc_is_strict(loc: &LocTree) -> bool
    ensures { result ≡ canonical.has_strict (trees.rows_of loc.now.init ++ trees.rows_of loc.now.inv ++ trees.rows_of loc.now.also) }
{
    statement_is_strict(loc.init())
        || statement_is_strict(loc.inv())
        || statement_is_strict(loc.also())
}

/// Whether some location of these has a constraint with a strict sign.
fn locs_are_strict(locs: &[LocTree]) -> bool
    ensures { result ≡ list_any (λ l. canonical.has_strict (trees.rows_of l.init ++ trees.rows_of l.inv ++ trees.rows_of l.also)) locs.now }
{
    locs.iter().any(loc_is_strict)
}

/// Whether some guard of these has a constraint with a strict sign.
fn guards_are_strict(trans: &[TransTree]) -> bool
    ensures { result ≡ list_any (λ e. list_any (λ r. canonical.is_strict r.sign) e.guard) trans.now }
{
    trans.iter().any(|e| are_strict(e.guard()))
}

/// Whether there is an `obs`.
fn has_obs(obs: Option<&BoundsTree>) -> bool
    ensures { result ≡ canonical.has_obs (option_map (λ x. x.now) obs.entry) }
{
    obs.is_some()
}

/// Whether the automaton needs the second version.
#[tactic(auto, using(crate::proofs::StrictLemmas::needs_is))]
fn needs_second(tree: &Tree) -> bool
    ensures { result ≡ canonical.needs_second tree.now }
{
    has_obs(tree.obs()) || locs_are_strict(tree.locs()) || guards_are_strict(tree.trans())
}

/// Whether some automaton needs the second version.
fn some_need_second(trees: &[Tree]) -> bool
    ensures { result ≡ list_any canonical.needs_second trees.now }
{
    trees.iter().any(needs_second)
}

/// Prints the line of the version.
fn version_line(page: &mut Page, second: bool) -> Result<(), AllocError>
    ensures { OnOk result (page.new ≡ with_line page.old (marks.the kinds.Lha ∷ marks.a_number (version second) ∷ [])) }
{
    page.key(Kind::Lha)?;
    page.digits(if second { b"2" } else { b"1" })?;
    page.end_line()
}

/// Prints all lines of a text.
fn all_text(page: &mut Page, trees: &[Tree]) -> Result<(), AllocError>
    ensures { OnOk result (page.new ≡ with_lines page.old (canonical.canonical_lines trees.now)) }
{
    version_line(page, some_need_second(trees))?;
    all_lines(page, trees)
}

/// The canonical text of trees: of all texts that spell the same trees, but for their lines, the one that is printed.
/// Fails where memory is wanting, and not otherwise.
pub fn print_models(alloc: Global, trees: &[Tree]) -> Result<Vec<u8>, AllocError>
    ensures { IfOk result (λ text. text.items ≡ canonical.canonical_text trees.now) }
{
    let mut page = Page::new(alloc);
    all_text(&mut page, trees)?;
    Ok(page.into_bytes())
}
