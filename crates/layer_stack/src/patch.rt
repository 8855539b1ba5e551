//! The oldest layers of a stack as one that shares the rows of the oldest, where little changed.
ghost use Rattle.std.specs.Prelude.{◌≡◌, ◌+◌, ◌≤◌, T, true, take, length, IfOk, IfSome, IsTrue};
ghost use Rattle.std.specs.FinMap as finite;
ghost use Rattle.std.specs.FinMap.{is_sorted};
ghost use Rattle.layer_base.specs.Layers.{stack_table};
ghost use Rattle.layer_stack.specs.Based.{ArePutAlone, IsPatch, count_under, has_postings, is_word};
ghost use Rattle.layer_stack.specs.Combined.{is_among};
ghost use Rattle.layer_stack.specs.Places.{term_cmp};
ghost use Rattle.layer_stack.specs.Postings.{putting_all};

use crate::front::FrontReader;
use crate::rows::Rows;
use crate::{Delta, Layer, Stack, TermKey};
use std::alloc::{AllocError, Global};
use std::sync::Arc;
use uni_base::{DocKey, Key};

/// A patch has at most one posting for so many of its base, and as many of these are under its terms.
const BASE_TO_PATCH: usize = 4;

// What the first layers of a stack stand for, as one layer. Under each term that is not among the
// changed ones, that is what the base puts.
pub(crate) fn merged(
    alloc: Global,
    stack: &Stack,
    count: usize,
    changed: &[(TermKey, ())],
    rows: usize,
    base: &Arc<Rows>,
) -> Result<Layer, AllocError>
    requires count { count ≤ length stack.now.0 }
    requires sorted { T (is_sorted term_cmp changed.now) }
    requires alone { ArePutAlone changed.now base.now.value (stack_table (take count stack.now.0)) }
    ensures { IfOk result (λ layer. layer ≡ putting_all (stack_table (take count stack.now.0))) }
{
    if let Some(layer) = patched(alloc, stack, count, changed, base)? {
        return Ok(layer);
    }
    let delta = base.combined(alloc, stack, count, changed, rows)?;
    Layer::build(alloc, delta)
}

// The same as a layer over the base. None where too much changed.
fn patched(
    alloc: Global,
    stack: &Stack,
    count: usize,
    changed: &[(TermKey, ())],
    base: &Arc<Rows>,
) -> Result<Option<Layer>, AllocError>
    requires count { count ≤ length stack.now.0 }
    requires sorted { T (is_sorted term_cmp changed.now) }
    requires alone { ArePutAlone changed.now base.now.value (stack_table (take count stack.now.0)) }
    ensures { IfOk result (λ o. IfSome o (λ layer. layer ≡ putting_all (stack_table (take count stack.now.0)))) }
{
    if !base.puts_alone() {
        return Ok(None);
    }
    let Some(left) = left_alone(base, changed) else {
        return Ok(None);
    };
    let most = base.puts() / BASE_TO_PATCH;
    if left < base.puts() - most {
        return Ok(None);
    }
    let Some(mark) = base.first_key() else {
        return Ok(None);
    };
    let mut front = FrontReader::of(alloc, stack, count)?;
    let delta = patch(alloc, &mut front, changed, &mark)?;
    let rows = Rows::build(alloc, delta)?;
    if rows.puts() > most || !keeps_words(&rows, changed) {
        return Ok(None);
    }
    let rows = Arc::new(alloc, rows)?;
    Ok(Some(Layer::over(rows, base.clone()?, left)))
}

// How many postings of rows are under other terms than some.
fn left_alone(rows: &Rows, terms: &[(TermKey, ())]) -> Option<usize>
    ensures { IfSome result (λ left. left + count_under rows.now.puts terms.now ≡ finite.len rows.now.puts) }
{
    let mut left = rows.puts();
    for (term, _nothing) in terms {
        left = left.checked_sub(rows.puts_under(term))?;
    }
    Some(left)
}

// Puts what the layers of a reader stand for under some terms, and deletes a posting under each of them,
// whichever, so that each is there, also where nothing stands any more.
fn patch(
    alloc: Global,
    front: &mut FrontReader<'_>,
    terms: &[(TermKey, ())],
    mark: &DocKey,
) -> Result<Delta, AllocError>
    ensures { IfOk result (IsPatch terms.now (stack_table front.old)) }
{
    let mut delta = Delta::new(alloc);
    front.put_terms(&mut delta, terms)?;
    for (term, _nothing) in terms {
        delta.delete(*term, *mark)?;
    }
    Ok(delta)
}

// Whether rows put something under each of some terms that starts at a word.
fn keeps_words(rows: &Rows, terms: &[(TermKey, ())]) -> bool
    ensures { IsTrue result → (term : TermKey) → is_among term terms.now ≡ true → is_word term ≡ true → has_postings term rows.now.puts ≡ true }
{
    for (term, _nothing) in terms {
        if let Key::Word(_word) = term.key {
            if rows.puts_under(term) == 0 {
                return false;
            }
        }
    }
    true
}
