//! The items of a pattern that take one byte.
ghost use Rattle.std.specs.Prelude.{◌≡◌, ◌<◌, Some, None, IsTrue, option_map};
ghost use Rattle.std.specs.Option.{option_copied};
ghost use Rattle.dg_glob.specs.Items as word;

/// An item of a bracket: the bytes from one to the other, in either order, and the pattern after it.
#[derive(Clone, Copy)]
struct Item<'a> {
    from: u8,
    to: u8,
    after: &'a [u8],
}

impl Item<'_> {
    /// Whether the item takes the byte.
    fn takes(&self, byte: u8) -> bool
        ensures { result ≡ word.takes (record { from = self.now.from; to = self.now.to; after = self.now.after.now }) byte }
    {
        self.from.min(self.to) <= byte && byte <= self.from.max(self.to)
    }
}

/// The first item of a bracket whose items are read from here on.
fn first_item(pattern: &[u8]) -> Option<Item<'_>>
    ensures { option_map (λ i. record { from = i.from; to = i.to; after = i.after.now }) result
        ≡ word.first_item pattern.now }
{
    let (&from, after) = pattern.split_first()?;
    if from == b']' {
        return None;
    }
    match after.split_first() {
        Some((&b'-', range)) => {
            let (&to, after) = range.split_first()?;
            Some(Item { from, to, after })
        }
        _ => Some(Item {
            from,
            to: from,
            after,
        }),
    }
}

/// The pattern past its first `]`, or its end where it has none.
pub(crate) fn past_close(pattern: &[u8]) -> &[u8]
    ensures { result.now ≡ word.past_close pattern.now }
{
    let mut rest = pattern;
    while let Some((&byte, after)) = rest.split_first() {
        rest = after;
        if byte == b']' {
            break;
        }
    }
    rest
}

/// The pattern past a bracket whose items are read from here on, where one of them takes the byte.
fn after_bracket(pattern: &[u8], byte: u8) -> Option<&[u8]>
    ensures { option_copied result ≡ word.after_first (word.items pattern.now) byte }
{
    let mut rest = pattern;
    while let Some(item) = first_item(rest) {
        if item.takes(byte) {
            return Some(past_close(item.after));
        }
        rest = item.after;
    }
    None
}

/// The rest of a pattern whose first byte stands for itself, where that is this byte.
fn after_escaped(pattern: &[u8], byte: u8) -> Option<&[u8]>
    ensures { option_copied result ≡ word.after_escaped pattern.now byte }
{
    match pattern.split_first() {
        Some((&first, rest)) if first == byte => Some(rest),
        _ => None,
    }
}

/// Whether a byte stands for itself in a pattern.
pub(crate) fn is_plain(byte: u8) -> bool
    ensures { result ≡ word.is_plain byte }
{
    !matches!(byte, b'*' | b'?' | b'[' | b'\\')
}

/// The rest of a pattern once its first item has taken the byte.
pub(crate) fn after_item(pattern: &[u8], byte: u8) -> Option<&[u8]>
    ensures { option_copied result ≡ word.after_item pattern.now byte }
{
    let (&first, rest) = pattern.split_first()?;
    match first {
        b'*' => None,
        b'?' => Some(rest),
        b'[' => after_bracket(rest, byte),
        b'\\' => after_escaped(rest, byte),
        _ => after_escaped(pattern, byte),
    }
}

/// Whether the bracket whose items are read from here on is left at its first `]` whichever of its
/// items takes a byte: no range ends with `]`.
pub(crate) fn closes_alike(pattern: &[u8]) -> bool
    ensures { result ≡ word.closes_alike (word.items pattern.now) }
{
    let mut rest = pattern;
    while let Some(item) = first_item(rest) {
        if item.to == b']' {
            return false;
        }
        rest = item.after;
    }
    true
}

/// Whether the same is left of the pattern whatever byte its first item takes; where the answer is
/// no, that may still be so.
pub(crate) fn is_steady(pattern: &[u8]) -> bool
    ensures { IsTrue result → word.IsSteady pattern.now }
{
    match pattern.split_first() {
        Some((&b'[', rest)) => closes_alike(rest),
        _ => true,
    }
}
