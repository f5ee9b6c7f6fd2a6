//! The operations on longs, in two's complement (JVMS 2.11.3, 2.11.4, 6.5).

ghost use Rattle.std.specs.Prelude.{◌≡◌, pos};
ghost use Rattle.pv_value.specs.declared.operation.ScalarOp.TheVariants as op;
ghost use Rattle.pv_value.specs.Operations.{scalar_of};

use std::cmp::Ordering;

/// The sum, which wraps.
pub(crate) fn add(a: i64, b: i64) -> i64
    ensures { result ≡ scalar_of op.Ladd a b }
{
    a.wrapping_add(b)
}

/// The difference, which wraps.
pub(crate) fn sub(a: i64, b: i64) -> i64
    ensures { result ≡ scalar_of op.Lsub a b }
{
    a.wrapping_sub(b)
}

/// The product, which wraps.
pub(crate) fn mul(a: i64, b: i64) -> i64
    ensures { result ≡ scalar_of op.Lmul a b }
{
    a.wrapping_mul(b)
}

/// The quotient, rounded toward zero; 0 where the divisor is 0. The least number divided by -1 is
/// the least number.
pub(crate) fn div(a: i64, b: i64) -> i64
    ensures { result ≡ scalar_of op.Ldiv a b }
{
    if b == 0 { 0 } else { a.wrapping_div(b) }
}

/// The remainder, with the sign of the dividend; 0 where the divisor is 0.
pub(crate) fn rem(a: i64, b: i64) -> i64
    ensures { result ≡ scalar_of op.Lrem a b }
{
    if b == 0 { 0 } else { a.wrapping_rem(b) }
}

/// Shifted to the left by the low 6 bits of the count.
pub(crate) fn shl(a: i64, count: i32) -> i64
    ensures { result ≡ scalar_of op.Lshl a count }
{
    a.wrapping_shl(count.cast_unsigned())
}

/// Shifted to the right by the low 6 bits of the count; copies of the sign come in.
pub(crate) fn shr(a: i64, count: i32) -> i64
    ensures { result ≡ scalar_of op.Lshr a count }
{
    a.wrapping_shr(count.cast_unsigned())
}

/// Shifted to the right by the low 6 bits of the count; zeros come in.
pub(crate) fn ushr(a: i64, count: i32) -> i64
    ensures { result ≡ scalar_of op.Lushr a count }
{
    a.cast_unsigned()
        .wrapping_shr(count.cast_unsigned())
        .cast_signed()
}

/// The bits that both have.
pub(crate) fn and(a: i64, b: i64) -> i64
    ensures { result ≡ scalar_of op.Land a b }
{
    a & b
}

/// The bits that one of them has.
pub(crate) fn or(a: i64, b: i64) -> i64
    ensures { result ≡ scalar_of op.Lor a b }
{
    a | b
}

/// The bits that just one of them has.
pub(crate) fn xor(a: i64, b: i64) -> i64
    ensures { result ≡ scalar_of op.Lxor a b }
{
    a ^ b
}

/// 1 where they are equal, else 0.
pub(crate) fn eq(a: i64, b: i64) -> i32
    ensures { result ≡ scalar_of op.Leq a b }
{
    i32::from(a == b)
}

/// -1 where the first is less, 1 where it is greater, else 0.
pub(crate) fn cmp(a: i64, b: i64) -> i32
    ensures { result ≡ scalar_of op.Lcmp a b }
{
    match a.cmp(&b) {
        Ordering::Less => -1,
        Ordering::Equal => 0,
        Ordering::Greater => 1,
    }
}

/// The negation; the least number is its own.
pub(crate) fn neg(a: i64) -> i64
    ensures { result ≡ scalar_of op.Lneg a (pos 0) }
{
    a.wrapping_neg()
}

/// The low 32 bits, with their sign.
pub(crate) fn to_int(a: i64) -> i32
    ensures { result ≡ scalar_of op.L2i a (pos 0) }
{
    (a.rem_euclid(0x1_0000_0000) as u32).cast_signed()
}
