//! Numbers modulo 2^32.

ghost use Rattle.std.specs.Prelude.{◌≡◌};
ghost use Rattle.cc_base.specs.Wrap.{wrap32};

/// 2^32, the number of numbers of 32 bits.
const COUNT: i64 = 4_294_967_296;

/// The number from -2^31 to 2^31 - 1 that differs from n by a multiple of 2^32.
pub fn wrap32(n: i64) -> i32
    ensures { result ≡ wrap32 n }
{
    let low = n.rem_euclid(COUNT) as u32;
    low.cast_signed()
}
