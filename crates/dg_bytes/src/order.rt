//! The order of two texts, and whether they are the same.
ghost use Rattle.std.specs.Prelude.{◌≡◌, ◌≤◌, drop, length, nat_eq, take};
ghost use Rattle.std.specs.Ordering.{nat_cmp};
ghost use Rattle.std.specs.Cmp.Lexicographic.{pointwise, slice_cmp};
ghost use Rattle.dg_bytes.specs.Fronts.{as_number};

use std::cmp::Ordering;

/// How many bytes are compared as one number.
const FRONT: usize = 8;

/// How many bytes more are compared one by one: most names differ among these.
const NEAR: usize = 8;

/// The first bytes as one number, in whose order they are, and the others.
fn split_front(text: &[u8]) -> (u64, &[u8])
    requires { FRONT ≤ length text.now }
    ensures front { result.0 ≡ as_number 0 (take FRONT text.now) }
    ensures behind { result.1.now ≡ drop FRONT text.now }
{
    let front = u64::from_be_bytes([
        text[0], text[1], text[2], text[3], text[4], text[5], text[6], text[7],
    ]);
    (front, &text[FRONT..])
}

/// The order of two texts: the first bytes that differ decide, and else the lengths do.
pub(crate) fn order(one: &[u8], other: &[u8]) -> Ordering
    ensures { result ≡ slice_cmp nat_cmp one.now other.now }
{
    if one.len() < FRONT || other.len() < FRONT {
        return order_near(one, other);
    }
    let (front, behind) = split_front(one);
    let (other_front, other_behind) = split_front(other);
    if front != other_front {
        return front.cmp(&other_front);
    }
    order_near(behind, other_behind)
}

/// The same, byte by byte at first.
fn order_near(one: &[u8], other: &[u8]) -> Ordering
    ensures { result ≡ slice_cmp nat_cmp one.now other.now }
{
    let near = one.len().min(other.len()).min(NEAR);
    for at in 0..near {
        if one[at] != other[at] {
            return one[at].cmp(&other[at]);
        }
    }
    if near < NEAR {
        return one.len().cmp(&other.len());
    }
    one[near..].cmp(&other[near..])
}

/// Whether two texts are the same. Short ones are compared in fewer steps than slices are.
pub fn is_same(one: &[u8], other: &[u8]) -> bool
    ensures { result ≡ pointwise nat_eq one.now other.now }
{
    if one.len() != other.len() {
        return false;
    }
    if one.len() < FRONT {
        return is_same_near(one, other);
    }
    let (front, behind) = split_front(one);
    let (other_front, other_behind) = split_front(other);
    front == other_front && is_same_near(behind, other_behind)
}

/// The same of texts that are as long as one another, byte by byte at first.
fn is_same_near(one: &[u8], other: &[u8]) -> bool
    requires { length one.now ≡ length other.now }
    ensures { result ≡ pointwise nat_eq one.now other.now }
{
    let near = one.len().min(NEAR);
    for at in 0..near {
        if one[at] != other[at] {
            return false;
        }
    }
    near < NEAR || one[near..] == other[near..]
}
