use std::thread::{Threads, join_mut};

/// Calls both at the same time, each in a thread of its own, and waits for them. A thread is often started on the
/// processor of the one that starts it, and moves to an idle one only when a scheduler next looks for such: where
/// the caller worked too, it would share its processor with what it started. Where a thread can't be started, the
/// caller does its work.
pub fn fork_both<R: Threads, F: FnMut() -> A + Send, G: FnMut() -> B + Send, A: Send, B: Send>(
    rt: &R,
    f: &mut F,
    g: &mut G,
) -> (A, B)
    requires { F.pre f.old × G.pre g.old }
    ensures { F.step f.old result.0 f.new × G.step g.old result.1 g.new }
{
    let (a, (b, ())) = join_mut(
        rt,
        f,
        &mut || -> (B, ())
            requires { G.pre g.now }
            ensures { G.step g.entry.now result.0 g.exit.now }
        { join_mut(rt, g, &mut || {}) },
    );
    (a, b)
}
