ghost use Rattle.std.specs.Prelude.{◌≡◌, ◌++◌, min, length, take, drop};

// Copies as many bytes as both have, and says how many.
pub(crate) fn copy_front(from: &[u8], into: &mut [u8]) -> usize
    ensures count { result ≡ min (length from.now) (length into.old) }
    ensures copied { into.new ≡ take result from.now ++ drop result into.old }
{
    let n = from.len().min(into.len());
    into[..n].copy_from_slice(&from[..n]);
    n
}
