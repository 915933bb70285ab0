//! How many events a thread may come to in a round.

ghost use Rattle.std.specs.Prelude.{◌≡◌, ◌≤◌, ◌<◌};
ghost use Rattle.sharc_rounds.specs.Shares.{share_until};

// A round gives a thread a part of the events that are left to it: this one, and at least so many.
const PARTS: u64 = 16;

const LEAST: u64 = 1_000;

/// The events up to which a thread that has made so many may come in one round. Near its limit a thread has shorter
/// quanta, so one that only looks again and again leaves the others many rounds to come forward in before it has made
/// all its events.
pub fn most_events(made: u64, limit: u64) -> u64
    requires { made ≤ limit }
    ensures is { result ≡ share_until made limit }
    ensures from { made ≤ result }
    ensures within { result ≤ limit }
    ensures more { made < limit → made < result }
{
    let left = limit - made;
    let part = left / PARTS;
    let most = if part < LEAST { LEAST } else { part };
    if left < most { limit } else { made + most }
}
