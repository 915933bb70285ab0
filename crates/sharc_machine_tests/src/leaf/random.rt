//! Numbers that look random.

/// The next of some numbers that look random, below this one.
pub fn random(state: &mut u64, below: u32) -> u32 {
    *state = state
        .wrapping_mul(6364136223846793005)
        .wrapping_add(1442695040888963407);
    ((*state >> 33) % u64::from(below.max(1))) as u32
}
