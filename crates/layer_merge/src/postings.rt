ghost use Rattle.std.specs.Prelude.{◌≡◌, ◌≤◌, ◌∷◌, length, take, drop, IfOk};
ghost use Rattle.std.specs.FinMap as finite;
ghost use Rattle.layer_base.specs.Layers.{stack_table};
ghost use Rattle.layer_stack.specs.Postings.{putting_all};

use layer_stack::{Layer, Stack};
use std::alloc::{AllocError, Global};

/// The first `count` layers of a stack, the oldest ones, as one layer that deletes nothing. In
/// their place it leaves what the stack stands for as it is.
pub fn merge_front(alloc: Global, stack: &Stack, count: usize) -> Result<Layer, AllocError>
    requires { count ≤ length stack.now.0 }
    ensures merged { IfOk result (λ layer. layer ≡ putting_all (stack_table (take count stack.now.0))) }
    ensures deletes { IfOk result (λ layer. layer.deletes ≡ finite.empty) }
    ensures same { IfOk result (λ layer. stack_table (layer ∷ drop count stack.now.0) ≡ stack_table stack.now.0) }
{
    stack.combined(alloc, count)
}
