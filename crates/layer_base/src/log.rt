ghost use Rattle.std.specs.Prelude.{◌≡◌, ◌≤◌, T, length, IfOk, OnErr, OnOk, IsPermutation};
ghost use Rattle.std.specs.Option.{option_map};
ghost use Rattle.std.specs.FinMap as map;
ghost use Rattle.std.specs.FinMap.{is_sorted};
ghost use Rattle.layer_base.specs.Layers.{from_log, TellsApart};
ghost use Rattle.layer_base.specs.Changes.{after};

use std::alloc::{AllocError, Global};

/// The last word of a log on each key, in the order of the keys. A log whose keys strictly rise is
/// handed back as it is.
pub fn last_words<K: Ord + Copy, V: Drop>(mut log: Vec<(K, V)>) -> Result<Vec<(K, V)>, AllocError>
    requires { TellsApart K.cmp }
    ensures last { IfOk result (λ rows. rows.items ≡ map.entries (from_log {R = K.cmp} log.items)) }
    ensures few { IfOk result (λ rows. length rows.items ≤ length log.items) }
{
    keep_last_words(&mut log)?;
    Ok(log)
}

/// Leaves of a log its last word on each key, in the order of the keys. A log whose keys strictly
/// rise stays as it is, and one for which there is no memory keeps its rows, in some order.
pub fn keep_last_words<K: Ord + Copy, V: Drop>(log: &mut Vec<(K, V)>) -> Result<(), AllocError>
    requires { TellsApart K.cmp }
    ensures last { OnOk result (log.new.items ≡ map.entries (from_log {R = K.cmp} log.old.items)) }
    ensures few { OnOk result (length log.new.items ≤ length log.old.items) }
    ensures err { OnErr result (IsPermutation log.old.items log.new.items) }
{
    if rises(log) {
        return Ok(());
    }
    log.reverse();
    log.sort_by(|one, other| one.0.cmp(&other.0))?;
    log.dedup_by(|one, other| one.0 == other.0);
    Ok(())
}

/// Whether the keys of rows strictly rise.
pub fn rises<K: Ord, V>(rows: &[(K, V)]) -> bool
    ensures { result ≡ is_sorted K.cmp rows.now }
{
    for i in 1..rows.len() {
        if !rows[i - 1].0.cmp(&rows[i].0).is_lt() {
            return false;
        }
    }
    true
}

/// What a log of changes leaves, where a change puts a value at a key or deletes the key: the last
/// value at each key that is not deleted after it, in the order of the keys.
pub fn rows_left<K: Ord + Copy, V: Drop>(
    alloc: Global,
    log: Vec<(K, Option<V>)>,
) -> Result<Vec<(K, V)>, AllocError>
    requires { TellsApart K.cmp }
    ensures { IfOk result (λ rows. rows.items ≡ map.entries (after {R = K.cmp} map.empty log.items)) }
{
    let words = last_words(log)?;
    let mut rows = Vec::new(alloc);
    for (key, word) in words {
        if let Some(value) = word {
            rows.push((key, value))?;
        }
    }
    Ok(rows)
}

/// The value at a key, among rows in the order of their keys, which it finds by halving.
pub fn look_up<'a, K: Ord, V>(rows: &'a [(K, V)], key: &K) -> Option<&'a V>
    requires apart { TellsApart K.cmp }
    requires sorted { T (map.is_sorted K.cmp rows.now) }
    ensures { option_map (λ v. v.now) result ≡ map.find K.cmp key.now rows.now }
{
    match rows.binary_search_by(|row| row.0.cmp(key)) {
        Ok(i) => Some(&rows[i].1),
        Err(_) => None,
    }
}
