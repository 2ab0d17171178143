//! Pseudo-random identifiers, whose names are shown and read back.
use snmp_oid::Oid;

/// Returns the next state of a pseudo-random sequence, and a number that is taken from it.
fn next(state: u64) -> (u64, u32) {
    let after = state
        .wrapping_mul(6364136223846793005)
        .wrapping_add(1442695040888963407);
    (after, (after >> 33) as u32)
}

/// Returns `prefix`, or sometimes an empty identifier, with up to 11 further numbers. These are
/// often the codes of printable characters.
pub fn random_oid(prefix: &[u32], seed: u64) -> Oid {
    let (mut state, first) = next(seed);
    let mut oid = Oid::new();
    if first % 8 != 0 {
        for number in prefix {
            let _ = oid.push(*number);
        }
    }
    for _ in 0..first / 8 % 12 {
        let (after, number) = next(state);
        state = after;
        let _ = oid.push(match number % 4 {
            0 => number / 4 % 8,
            1 => number,
            _ => 32 + number / 4 % 96,
        });
    }
    oid
}
