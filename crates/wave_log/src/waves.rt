//! The values of the sessions.

ghost use Rattle.std.specs.Prelude.{◌≡◌, ◌+◌, ◌≤◌, ◌<◌, ◌%◌, ◌*◌};
ghost use Rattle.wave_log.specs.Waves as waves;

/// How many samples each session has: from 500 to 1,000.
pub(crate) fn sample_count(seed: u32) -> u32
    ensures value { result ≡ waves.sample_count seed }
    ensures few { result ≤ 1000 }
{
    500 + seed % 501
}

/// How high the waves of a session rise: from 1 to 8.
fn amplitude(seed: u32, session: u32) -> u32
    requires seed { seed ≤ 999999999 }
    requires session { session < 8 }
    ensures value { result ≡ waves.amplitude seed session }
    ensures some { 1 ≤ result }
    ensures few { result ≤ 8 }
{
    (seed + session * session) % 8 + 1
}

/// The height of a wave at one of its places.
fn height(amplitude: u32, place: u32) -> u32
    requires place { place < 2 * amplitude }
    requires few { amplitude ≤ 8 }
    ensures { result ≡ waves.height amplitude place }
{
    if place <= amplitude {
        place
    } else {
        2 * amplitude - place
    }
}

/// The value of a session at a time.
pub(crate) fn value_at(seed: u32, session: u32, time: u32) -> u32
    requires seed { seed ≤ 999999999 }
    requires session { session < 8 }
    ensures { result ≡ waves.value_at seed session time }
{
    let amplitude = amplitude(seed, session);
    height(amplitude, time % (2 * amplitude))
}
