//! The order of lines, and their counts.

ghost use Rattle.std.specs.Prelude.{◌≡◌, ◌+◌, ◌<◌, ◌≤◌, ◌^◌, false, IfOk, IfErr, MatchResult};
ghost use Rattle.lang_order.specs.Order as order;
ghost use Rattle.lang_order.specs.LineLimits as limits;
ghost use Rattle.lang_order.specs.LineLimits.{are_few};
ghost use Rattle.lang_texts.specs.Reading.{counts_of, IsCount};

use lang_order::Place;
use lang_specs::{Kind, Which};

/// The place behind a line that begins with this word, where it may stand at this place.
pub(crate) fn next(place: Place, word: Kind) -> Option<Place>
    ensures { result ≡ order.next place word }
{
    match (place, word) {
        (Place::Start, Kind::Lha) => Some(Place::Lha),
        (Place::Lha | Place::End, Kind::Automaton) => Some(Place::Automaton),
        (Place::Automaton, Kind::Var) => Some(Place::Var),
        (Place::Var, Kind::Obs) => Some(Place::Obs),
        (Place::Var | Place::Obs | Place::Flow | Place::Also, Kind::Loc) => Some(Place::Loc),
        (Place::Loc, Kind::Init) => Some(Place::Init),
        (Place::Loc | Place::Init, Kind::Inv) => Some(Place::Inv),
        (Place::Loc | Place::Init | Place::Inv, Kind::Flow) => Some(Place::Flow),
        (Place::Flow, Kind::Also) => Some(Place::Also),
        (Place::Flow | Place::Also | Place::Trans, Kind::Trans) => Some(Place::Trans),
        (Place::Flow | Place::Also | Place::Trans, Kind::End) => Some(Place::End),
        _ => None,
    }
}

/// How many automata have begun, and how many locations and transitions of the last one.
#[derive(Clone, Copy, Debug)]
pub(crate) struct Counts {
    pub(crate) automata: u32,
    pub(crate) locs: u32,
    pub(crate) trans: u32,
}

/// One more, unless that is more than the limit.
fn one_more(count: u32, most: u32, which: Which) -> Result<u32, Which>
    requires { most < 2 ^ 31 }
    ensures { MatchResult result (λ n. (n ≡ count + 1) × (n ≤ most)) (λ w. (w ≡ which) × (most < count + 1)) }
{
    if count < most {
        Ok(count + 1)
    } else {
        Err(which)
    }
}

/// The counts with a line that begins with this word, or the limit that it passes.
pub(crate) fn count(counts: Counts, word: Kind) -> Result<Counts, Which>
    ensures ok { IfOk result (λ c. IsCount (counts_of counts) word (counts_of c)) }
    ensures passed { IfErr result (λ which. are_few which (limits.count (counts_of counts) word) ≡ false) }
{
    match word {
        Kind::Automaton => Ok(Counts {
            automata: one_more(counts.automata, 16, Which::Automata)?,
            locs: 0,
            trans: 0,
        }),
        Kind::Loc => Ok(Counts {
            locs: one_more(counts.locs, 32, Which::Locations)?,
            ..counts
        }),
        Kind::Trans => Ok(Counts {
            trans: one_more(counts.trans, 128, Which::Transitions)?,
            ..counts
        }),
        _ => Ok(counts),
    }
}
