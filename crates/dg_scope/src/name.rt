//! Names of variables: a leading `::`, a base and an index.
ghost use Rattle.std.specs.Prelude.{◌≡◌, ◌==◌, ◌&&◌, ◌∷◌, [], nat_eq, not, position};
ghost use Rattle.std.specs.List.{ends_with};
ghost use Rattle.dg_scope.specs.Names.{global_name, is_qualified, has_index, base_of};

/// The name without a leading `::` (Tcl(n), "Variable substitution").
pub fn global_name(name: &[u8]) -> &[u8]
    ensures { result.now ≡ global_name name.now }
{
    if is_qualified(name) { &name[2..] } else { name }
}

/// Whether the name begins with `::`, and so is a global's in each scope.
pub(crate) fn is_qualified(name: &[u8]) -> bool
    ensures { result ≡ is_qualified name.now }
{
    matches!(name, [b':', b':', ..])
}

/// Whether the name neither begins with `::` nor ends as an element's does.
pub(crate) fn is_plain(name: &[u8]) -> bool
    ensures { result ≡ (not (is_qualified name.now) && not (ends_with nat_eq name.now (41 ∷ []))) }
{
    !is_qualified(name) && !is_closed(name)
}

/// Whether the name ends as an element's does, with `)`.
pub(crate) fn is_closed(name: &[u8]) -> bool
    ensures { result ≡ ends_with nat_eq name.now (41 ∷ []) }
{
    matches!(name, [.., b')'])
}

/// Whether the name is an element's: it ends with `)` and has a `(`.
pub fn has_index(name: &[u8]) -> bool
    ensures { result ≡ has_index name.now }
{
    is_closed(name) && name.contains(&b'(')
}

/// The part of a name before its first `(`, if it ends with `)`, or else the whole of it.
pub fn base_of(name: &[u8]) -> &[u8]
    ensures { result.now ≡ base_of name.now }
{
    match first_bracket(name) {
        Some(open) if is_closed(name) => &name[..open],
        _ => name,
    }
}

/// The place of the first `(`.
fn first_bracket(name: &[u8]) -> Option<usize>
    ensures { result ≡ position (λ b. b == 40) name.now }
{
    name.iter().position(|byte| *byte == b'(')
}
