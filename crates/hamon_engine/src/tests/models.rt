//! The models of the runs.

/// A level that rises by at most two and falls by at most one in a unit of time; from 8 on it may be unsafe.
pub(crate) const LEVEL: &str =
    "lha 1\nautomaton T\nvar x\nloc ok\ninit x = 0\ninv x <= 10\nflow x in [-1, 2]\nloc high unsafe\ninv x >= 8\nflow x in [-1, 1]\ntrans ok -> high as up when x >= 8\ntrans high -> ok as down when x <= 9\nend\n";

/// The same, observed with a tolerance of 1/2.
pub(crate) const TOLERANT: &str =
    "lha 2\nautomaton T\nvar x\nobs x within 0.5\nloc ok\ninit x = 0\ninv x <= 10\nflow x in [-1, 2]\nloc high unsafe\ninv x >= 8\nflow x in [-1, 1]\ntrans ok -> high as up when x >= 8\ntrans high -> ok as down when x <= 9\nend\n";

/// A slope of 3 up to 1.
pub(crate) const STEEP: &str =
    "lha 1\nautomaton U\nvar x\nloc a\ninit x = 0\ninv x <= 1\nflow x in [3, 3]\nloc b unsafe\nflow x in [0, 0]\ntrans a -> b as hit when x = 1\nend\n";

/// Three jumps to the unsafe location.
pub(crate) const CHAIN: &str =
    "lha 1\nautomaton V\nvar x\nloc a\ninit x = 0\nflow x in [0, 0]\nloc b\nflow x in [0, 0]\nloc c\nflow x in [0, 0]\nloc d unsafe\nflow x in [0, 0]\ntrans a -> b as p\ntrans b -> c as q\ntrans c -> d as r\nend\n";

/// Two transitions to one location: one from everywhere, then one from 1 on.
pub(crate) const WIDE: &str =
    "lha 1\nautomaton W\nvar x\nloc a\ninit x = 0\nflow x in [0, 2]\nloc b unsafe\nflow x in [0, 0]\ntrans a -> b as wide\ntrans a -> b as narrow when x >= 1\nend\n";

/// The same two in the other order.
pub(crate) const NARROW: &str =
    "lha 1\nautomaton W\nvar x\nloc a\ninit x = 0\nflow x in [0, 2]\nloc b unsafe\nflow x in [0, 0]\ntrans a -> b as narrow when x >= 1\ntrans a -> b as wide\nend\n";

/// Each jump multiplies by nearly a billion.
pub(crate) const GROWING: &str =
    "lha 1\nautomaton M\nvar x\nloc a\ninit x = 1\nflow x in [0, 0]\ntrans a -> a as grow set x = 999999999*x\nend\n";

/// Two slopes from 0 to 1, together at most 1; a second automaton that judges nothing.
pub(crate) const SHARED: &str =
    "lha 1\nautomaton Q\nvar a, b\nloc l\ninit a = 0, b = 0\nflow a in [0, 1], b in [0, 1]\nalso a + b <= 1\nend\nautomaton R\nvar a, b\nloc l unsafe\ninit true\nflow a in [0, 9], b in [0, 9]\nend\n";

/// A start strictly between 0 and 1.
pub(crate) const OPEN: &str =
    "lha 2\nautomaton S\nvar x\nloc a\ninit x > 0, x < 1\nflow x in [0, 0]\nloc b unsafe\nflow x in [0, 0]\ntrans a -> b as go\nend\n";

/// A start above 0 and at most a third.
pub(crate) const CLOSED: &str =
    "lha 2\nautomaton S\nvar x\nloc a\ninit x > 0, 3*x <= 1\nflow x in [0, 0]\nloc b unsafe\nflow x in [0, 0]\ntrans a -> b as go\nend\n";

/// A temperature and a level.
pub(crate) const CABIN: &str =
    "lha 1\nautomaton D\nvar temp, level\nloc normal\ninit temp = 20, level = 50\ninv temp <= 90, level >= 5\nflow temp in [-1, 1], level in [-1/2, 1/2]\nloc hot unsafe\ninv temp >= 80\nflow temp in [-1, 1], level in [-1/2, 1/2]\ntrans normal -> hot as heat when temp >= 80\ntrans hot -> normal as cool when temp <= 85\nend\n";

// ---- texts that say no automata

/// A transition to a location that is none.
pub(crate) const UNKNOWN: &str =
    "lha 1\nautomaton T\nvar x\nloc ok\ninit x = 0\ninv x <= 10\nflow x in [-1, 2]\nloc high unsafe\ninv x >= 8\nflow x in [-1, 1]\ntrans ok -> hot as up when x >= 8\ntrans high -> ok as down when x <= 9\nend\n";

/// A least slope above the greatest.
pub(crate) const EMPTY_BOX: &str =
    "lha 1\nautomaton T\nvar x\nloc ok\ninit x = 0\ninv x <= 10\nflow x in [2, 1]\nloc high unsafe\ninv x >= 8\nflow x in [-1, 1]\ntrans ok -> high as up when x >= 8\ntrans high -> ok as down when x <= 9\nend\n";

/// No `end`.
pub(crate) const ENDLESS: &str =
    "lha 1\nautomaton T\nvar x\nloc ok\ninit x = 0\ninv x <= 10\nflow x in [-1, 2]\nloc high unsafe\ninv x >= 8\nflow x in [-1, 1]\ntrans ok -> high as up when x >= 8\ntrans high -> ok as down when x <= 9\n";

/// No label in the last line.
pub(crate) const CUT_SHORT: &str =
    "lha 1\nautomaton T\nvar x\nloc ok\ninit x = 0\ninv x <= 10\nflow x in [-1, 2]\nloc high unsafe\ninv x >= 8\nflow x in [-1, 1]\ntrans ok -> high as up when x >= 8\ntrans high -> ok as";

/// A strict sign in a text of the first version.
pub(crate) const OPEN_IN_ONE: &str =
    "lha 1\nautomaton S\nvar x\nloc a\ninit x > 0, x < 1\nflow x in [0, 0]\nloc b unsafe\nflow x in [0, 0]\ntrans a -> b as go\nend\n";
