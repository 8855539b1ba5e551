ghost use Rattle.std.specs.Prelude.{◌≡◌, [], None, not, map, All, IfNone};
ghost use Rattle.std.specs.FinMap as finite;
ghost use Rattle.posting_lists.specs.Postings.{postings_from};
ghost use Rattle.uni_base.specs.Cursors.{is_before};
ghost use Rattle.layer_stack.specs.Stacks.{StandsFrom, StandAt, part_table, part_where, remaining_of, first_and};

use crate::part::{Part, lesser};
use posting_lists::Posting;
use uni_base::{Audience, DocKey};

// The least key at which a part stands. None exactly where all are at their ends.
pub(crate) fn least(parts: &[Part<'_>]) -> Option<DocKey>
    ensures { StandAt result parts.now }
{
    let mut least = None;
    for part in parts {
        least = lesser(least, part.head());
    }
    least
}

// The answer at the least key, the newer layers before the older. It passes the postings there, and
// gives the least key at which a part stands then.
fn take(parts: &mut [Part<'_>], key: &DocKey) -> (Option<Audience>, Option<DocKey>)
    requires { All (StandsFrom key.now) parts.old }
    ensures answer { result.0 ≡ finite.get (part_table parts.old) key.now }
    ensures passed { parts.new ≡ map (part_where (is_before key.now)) parts.old }
    ensures least { StandAt result.1 parts.new }
{
    let mut answer = None;
    let mut least = None;
    for part in parts.iter_mut() {
        answer = part.take(answer, key);
        least = lesser(least, part.head());
    }
    (answer, least)
}

// Passes the postings before a key.
fn seek(parts: &mut [Part<'_>], from: &DocKey)
    ensures { parts.new ≡ map (part_where (λ k. not (is_before k from.now))) parts.old }
{
    for part in parts.iter_mut() {
        part.seek(*from);
    }
}

// The first posting of what the parts stand for, which it passes, given the least key at which a
// part stands. It passes the keys before it too, which newer layers delete.
pub(crate) fn next(parts: &mut [Part<'_>], head: &mut Option<DocKey>) -> Option<Posting>
    requires { StandAt head.old parts.old }
    ensures least { StandAt head.new parts.new }
    ensures first { first_and result (remaining_of parts.new) ≡ remaining_of parts.old }
    ensures none { IfNone result (remaining_of parts.new ≡ []) }
{
    while let Some(key) = *head {
        let (answer, least) = take(parts, &key);
        *head = least;
        if let Some(audience) = answer {
            return Some(Posting { key, audience });
        }
    }
    None
}

// The same, of what stands from a key on.
pub(crate) fn seek_on(
    parts: &mut [Part<'_>],
    head: &mut Option<DocKey>,
    from: &DocKey,
) -> Option<Posting>
    ensures least { StandAt head.new parts.new }
    ensures first { first_and result (remaining_of parts.new) ≡ postings_from from.now (remaining_of parts.old) }
    ensures none { IfNone result (remaining_of parts.new ≡ []) }
{
    seek(parts, from);
    *head = least(parts);
    next(parts, head)
}
