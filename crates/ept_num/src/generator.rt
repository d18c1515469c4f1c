ghost use Rattle.std.specs.Prelude.{◌≡◌};
ghost use Rattle.ept_num.specs.Generator.{after};

// The multiplier of the linear congruential generator, Knuth's for 64 bits.
const MULTIPLIER: u64 = 6_364_136_223_846_793_005;

const INCREMENT: u64 = 1_442_695_040_888_963_407;

/// The number after `n` in the linear congruential generator: `n` times the multiplier plus the
/// increment, modulo 2^64.
pub fn lcg(n: u64) -> u64
    ensures next { result ≡ after n }
{
    n.wrapping_mul(MULTIPLIER).wrapping_add(INCREMENT)
}
