ghost use Rattle.std.specs.Prelude.{◌≡◌, ◌<◌, List, [], Some, length, map, slice_get, slice_index_or};
ghost use Rattle.std.specs.Bool.{OnTrue};
ghost use Rattle.uni_base.specs.KeySets.{has_first};

use uni_base::DocCursor;

/// A cursor over what its operands have.
pub trait OperatorCursor: DocCursor {
    /// An operand.
    type Operand: DocCursor;

    /// The operands, in their order.
    ghost operands: { Self → List Self.Operand };

    /// Whether an operand, counted from 0, has the current key. No operand has it at the end.
    fn matches(&self, i: usize) -> bool
        requires { i < length (operands self.now) }
        ensures holds { let lists = map Self.Operand.remaining (operands self.now) in
            result ≡ has_first (slice_index_or lists i []) (Self.remaining self.now) }
        ensures current { let lists = map Self.Operand.remaining (operands self.now) in
            OnTrue result (slice_get (slice_index_or lists i []) 0 ≡ slice_get (Self.remaining self.now) 0) };

    /// An operand, counted from 0.
    fn operand(&self, i: usize) -> &Self::Operand
        requires { i < length (operands self.now) }
        ensures { slice_get (operands self.now) i ≡ Some result.now };
}
