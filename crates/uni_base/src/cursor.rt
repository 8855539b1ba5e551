ghost use Rattle.std.specs.Prelude.{List, ◌≡◌, drop, slice_get};
ghost use Rattle.uni_base.specs.declared.entity.DocKey.{DocKey as Keys};
ghost use Rattle.uni_base.specs.Cursors.{IsRanked, keys_from};

use crate::DocKey;

/// Keys of entities, strictly in rank order, that are read from the front. Contracts see a cursor
/// as the list of the keys that remain.
pub trait DocCursor {
    /// The keys that remain.
    ghost remaining: { Self → List Keys };

    /// The first of the remaining keys. None exactly where none is left.
    fn peek(&self) -> Option<DocKey>
        ensures first { result ≡ slice_get (remaining self.now) 0 }
        ensures ranked { IsRanked (remaining self.now) };

    /// Passes the first of the remaining keys, if there is one.
    fn step(&mut self)
        ensures { remaining self.new ≡ drop 1 (remaining self.old) };

    /// Passes all remaining keys that come before a key in rank order.
    fn seek(&mut self, from: DocKey)
        ensures { remaining self.new ≡ keys_from from (remaining self.old) };
}
