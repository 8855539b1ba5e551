ghost use Rattle.std.specs.Prelude.{◌≡◌, ◌≤◌, ◌∷◌, length, take, drop, IfOk};
ghost use Rattle.forward_data.specs.Records.{records_of, AreFull};

use forward_data::{ForwardLayer, ForwardStack};
use std::alloc::{AllocError, Global};

/// The first `count` layers of a stack of records, the oldest ones, as one layer without empty
/// records. In their place it leaves what the stack stands for as it is.
pub fn merge_forward(
    alloc: Global,
    stack: &ForwardStack,
    count: usize,
) -> Result<ForwardLayer, AllocError>
    requires { count ≤ length stack.now.0 }
    ensures merged { IfOk result (λ layer. layer ≡ records_of (take count stack.now.0)) }
    ensures full { IfOk result AreFull }
    ensures same { IfOk result (λ layer. records_of (layer ∷ drop count stack.now.0) ≡ records_of stack.now.0) }
{
    stack.combined(alloc, count)
}
