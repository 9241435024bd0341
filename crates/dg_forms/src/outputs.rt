//! The variables that `expect` writes after a match and at an end, by expect(1).
ghost use Rattle.std.specs.Prelude.{◌≡◌, ◌++◌, ◌+◌, ◌≤◌, codes, decimal, length, IfOk, OnOk, IfSome};
ghost use Rattle.std.specs.List.{All};
ghost use Rattle.dg_match.specs.Hits.{LiesBetween};
ghost use Rattle.dg_scope.specs.Scopes.{value_limit};
ghost use Rattle.dg_language.specs.State.{assigned};
ghost use Rattle.dg_language.specs.Expecting.{group_text, out_name, with_groups};

use dg_bytes::Bytes;
use dg_expr::decimal;
use dg_language::State;
use dg_match::Span;
use std::alloc::{AllocError, Global};

/// Room for the name of a variable that `expect` writes: the longest has 20 bytes.
const ROOM: usize = 24;

/// The name of a variable of `expect_out`.
#[tactic(auto, using(std::proofs::Common::append_assoc))]
fn out_name(alloc: Global, index: &[u8]) -> Result<Bytes, AllocError>
    ensures { IfOk result (λ n. n ≡ out_name index.now) }
{
    let mut name = Vec::with_capacity(alloc, ROOM)?;
    name.extend_from_slice(b"expect_out(")?;
    name.extend_from_slice(index)?;
    name.extend_from_slice(b")")?;
    Ok(Bytes::from_vec(name))
}

/// Writes a variable of `expect_out`.
pub fn write_out(
    alloc: Global,
    state: &mut State,
    index: &[u8],
    value: Bytes,
) -> Result<(), AllocError>
    requires { length value ≤ value_limit }
    ensures { OnOk result (state.new ≡ assigned (out_name index.now) value state.old) }
{
    let name = out_name(alloc, index)?;
    state.assign(alloc, name.as_slice(), value)
}

/// The index under which the text of a group is written.
fn group_index(alloc: Global, n: u32) -> Result<Bytes, AllocError>
    ensures { IfOk result (λ b. b ≡ decimal n ++ codes ",string") }
{
    let mut index = decimal(alloc, i64::from(n))?;
    index.extend(b",string")?;
    Ok(index)
}

/// The text of a group; one that took no part has none.
pub(crate) fn group_text<'a>(bytes: &'a [u8], group: &Option<Span>) -> &'a [u8]
    requires { IfSome group.now (LiesBetween 0 (length bytes.now)) }
    ensures text { result.now ≡ group_text bytes.now group.now }
    ensures shorter { length result.now ≤ length bytes.now }
{
    match group {
        Some(span) => &bytes[span.start..span.end],
        None => &[],
    }
}

/// Writes the text of a group of a match in these bytes.
fn write_group(
    alloc: Global,
    state: &mut State,
    n: u32,
    bytes: &[u8],
    group: &Option<Span>,
) -> Result<(), AllocError>
    requires short { length bytes.now ≤ value_limit }
    requires within { IfSome group.now (LiesBetween 0 (length bytes.now)) }
    ensures { OnOk result
        (state.new ≡ assigned (out_name (decimal n ++ codes ",string")) (group_text bytes.now group.now) state.old) }
{
    let text = Bytes::from_slice(alloc, group_text(bytes, group))?;
    let index = group_index(alloc, n)?;
    write_out(alloc, state, index.as_slice(), text)
}

/// Writes the texts of the first nine groups of a match in these bytes.
pub fn write_groups(
    alloc: Global,
    state: &mut State,
    bytes: &[u8],
    groups: &[Option<Span>],
) -> Result<(), AllocError>
    requires short { length bytes.now ≤ value_limit }
    requires within { All (λ g. IfSome g (LiesBetween 0 (length bytes.now))) groups.now }
    ensures { OnOk result (state.new ≡ with_groups 9 1 bytes.now groups.now state.old) }
{
    for n in 0..9 {
        if n >= groups.len() {
            return Ok(());
        }
        write_group(alloc, state, n as u32 + 1, bytes, &groups[n])?;
    }
    Ok(())
}
