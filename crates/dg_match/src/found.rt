//! The first match of a `-re` pattern.
ghost use Rattle.std.specs.Prelude.{◌≡◌, IfOk, IfSome, option_map};
ghost use Rattle.regex.specs.Locations.{location};
ghost use Rattle.dg_match.specs.Groups.{regex_match, groups_in, span_of};
ghost use Rattle.dg_match.specs.Hits.{LiesIn, hit_at};

use crate::built::Built;
use dg_bytes::Seq;
use dg_glob::Span;
use regex::bytes::CaptureLocations;
use std::alloc::{AllocError, Global};

/// Where a pattern has matched: the whole match, from the byte at `start` to the one before `end`,
/// and the part of each group from the first, where the group took part.
#[derive(Drop)]
pub struct Found {
    pub start: usize,
    pub end: usize,
    pub groups: Seq<Option<Span>>,
}

/// Where a group has matched, if it took part.
fn group_at(locations: &CaptureLocations, n: usize) -> Option<Span>
    ensures { result ≡ option_map span_of (location locations.now n) }
{
    let (start, end) = locations.get(n)?;
    Some(Span { start, end })
}

/// Where the groups have matched, from the first.
fn read_groups(alloc: Global, locations: &CaptureLocations) -> Result<Seq<Option<Span>>, AllocError>
    ensures { IfOk result (λ s. s ≡ groups_in locations.now) }
{
    let mut groups = Vec::new(alloc);
    for n in 1..locations.len().max(1) {
        groups.push(group_at(locations, n))?;
    }
    Ok(Seq::from_vec(groups))
}

impl Built {
    /// The first match of the pattern in bytes, with its groups, as `regex` finds it. It lies in the bytes, and its groups
    /// in it.
    pub fn find(&self, alloc: Global, bytes: &[u8]) -> Result<Option<Found>, AllocError>
        ensures found { IfOk result (λ found. found ≡ regex_match self.now bytes.now) }
        ensures within { IfOk result (λ found. IfSome found (λ m. LiesIn bytes.now (hit_at 0 m))) }
    {
        let found = first_match(alloc, self, bytes)?;
        Ok(found)
    }
}

/// The first match of a pattern, with its groups.
pub(crate) fn first_match(
    alloc: Global,
    built: &Built,
    bytes: &[u8],
) -> Result<Option<Found>, AllocError>
    ensures { IfOk result (λ found. found ≡ regex_match built.now bytes.now) }
{
    let regex = built.regex();
    let mut matcher = regex.matcher(alloc)?;
    let mut locations = regex.capture_locations(alloc)?;
    match matcher.captures_read(&mut locations, bytes) {
        None => Ok(None),
        Some(found) => Ok(Some(Found {
            start: found.start(),
            end: found.end(),
            groups: read_groups(alloc, &locations)?,
        })),
    }
}
