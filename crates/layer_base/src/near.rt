ghost use Rattle.std.specs.Prelude.{◌≡◌, ◌≤◌, T, length};
ghost use Rattle.std.specs.Option.{option_map};
ghost use Rattle.std.specs.List.{slice_get};
ghost use Rattle.std.specs.FinMap as map;
ghost use Rattle.layer_base.specs.Layers.{TellsApart};
ghost use Rattle.layer_base.specs.Lookups.{comes_before, is_place, IsFirstAfter, IsPlaceOf};

/// How many rows from a hint on are looked at before all rows are halved.
const NEAR: usize = 8;

/// As `look_up`, by a search that begins at a hint, which it moves to where the key stands or would
/// stand. Keys that are looked up in their order are found at once.
pub fn look_up_near<'a, K: Ord, V>(rows: &'a [(K, V)], hint: &mut usize, key: &K) -> Option<&'a V>
    requires apart { TellsApart K.cmp }
    requires sorted { T (map.is_sorted K.cmp rows.now) }
    ensures value { option_map (λ v. v.now) result ≡ map.find K.cmp key.now rows.now }
    ensures hint { IsPlaceOf K.cmp key.now rows.now hint.new }
{
    let at = place_near(rows, *hint, key);
    *hint = at;
    if at >= rows.len() {
        return None;
    }
    let (found, value) = &rows[at];
    if found.cmp(key).is_eq() {
        Some(value)
    } else {
        None
    }
}

/// The first place, from a given one on, at which a key comes after another. The number of rows where
/// there is none.
pub fn first_after<K: Ord, V>(rows: &[(K, V)], from: usize, key: &K) -> usize
    requires { from ≤ length rows.now }
    ensures within { (from ≤ result) × (result ≤ length rows.now) }
    ensures first { IsFirstAfter K.cmp key.now rows.now from result }
{
    for at in from..rows.len() {
        if rows[at].0.cmp(key).is_gt() {
            return at;
        }
    }
    rows.len()
}

// Where a key stands or would stand, by a search that begins at a hint.
fn place_near<K: Ord, V>(rows: &[(K, V)], hint: usize, key: &K) -> usize
    requires { T (map.is_sorted K.cmp rows.now) }
    ensures { IsPlaceOf K.cmp key.now rows.now result }
{
    for at in hint..hint.saturating_add(NEAR) {
        if is_place(rows, at, key) {
            return at;
        }
    }
    rows.partition_point(|row| row.0.cmp(key).is_lt())
}

// Whether a place is where a key stands or would stand.
fn is_place<K: Ord, V>(rows: &[(K, V)], at: usize, key: &K) -> bool
    ensures { result ≡ is_place K.cmp key.now rows.now at }
{
    (at == 0 || comes_before(rows, at - 1, key)) && !comes_before(rows, at, key)
}

// Whether there is a row at a place, and it comes before a key.
fn comes_before<K: Ord, V>(rows: &[(K, V)], at: usize, key: &K) -> bool
    ensures { result ≡ comes_before K.cmp key.now (slice_get rows.now at) }
{
    match rows.get(at) {
        Some(row) => row.0.cmp(key).is_lt(),
        None => false,
    }
}
