//! The generator of numbers of 32 bits.

ghost use Rattle.std.specs.Prelude.{◌≡◌};
ghost use Rattle.rank_script.specs.Generator.{drawn, after_draws};

/// The number that the generator draws after `x`: 69069 times `x`, and 1, modulo 2^32.
pub fn drawn(x: u32) -> u32
    ensures { result ≡ drawn x }
{
    ((69069 * u64::from(x) + 1) % 4_294_967_296) as u32
}

/// The number after `count` draws from a seed.
pub(crate) fn after_draws(seed: u32, count: u32) -> u32
    ensures { result ≡ after_draws seed count }
{
    let mut x = seed;
    for _draw in 0..count {
        x = drawn(x);
    }
    x
}
