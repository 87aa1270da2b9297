//! The model of the sessions.

ghost use Rattle.std.specs.Prelude.{◌≡◌};
ghost use Rattle.wave_log.specs.Waves as waves;

/// A level that rises by at most 2 and falls by at most 1 in a unit of time, and may be unsafe from 8 on.
const LEVEL: &str = "lha 1
automaton T
var x
loc ok
init x = 0
inv x <= 10
flow x in [-1, 2]
loc high unsafe
inv x >= 8
flow x in [-1, 1]
trans ok -> high as up when x >= 8
trans high -> ok as down when x <= 9
end
";

/// The text of the model that each session of the log is of. Takes no memory.
pub fn wave_model() -> &'static str
    ensures { result.now ≡ waves.wave_model }
{
    LEVEL
}
