//! The choice by a number.

ghost use Rattle.std.specs.Prelude.{◌≡◌, ◌<◌, ◌≤◌, ◌/◌, ◌^◌};
ghost use Rattle.sharc_seq.specs.Choice.{mixed, drawn, mixed_word, seeded};

/// The place, among `count`, that the number draws for this turn.
#[tactic(auto, unfolding(crate::specs::Choice::seeded))]
pub fn seeded(number: u64, turn: u64, count: u64) -> u64
    requires { 1 ≤ count }
    ensures is { result ≡ seeded number turn count }
    ensures below { result < count }
{
    (mixed_word(drawn(number, turn)) >> 32) % count
}

// The upper bits mixed into the lower ones.
fn mixed(x: u64) -> u64
    ensures { result ≡ mixed x }
{
    x ^ (x >> 33)
}

fn drawn(number: u64, turn: u64) -> u64
    ensures { result ≡ drawn number turn }
{
    number.wrapping_add(turn.wrapping_add(1).wrapping_mul(6364136223846793005))
}

fn mixed_word(x: u64) -> u64
    ensures { result ≡ mixed_word x }
{
    mixed(mixed(x).wrapping_mul(18397679294719823053))
}
