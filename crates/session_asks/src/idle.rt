//! Workers that have nothing to do, for whoever has work that can be parted.
use std::sync::atomic::{AtomicBool, AtomicI64, Ordering};

/// How many workers have nothing to do. No answer rests on it.
#[derive(Drop)]
pub(crate) struct IdleWorkers {
    count: AtomicI64,
}

impl IdleWorkers {
    /// So many workers.
    pub(crate) fn new(count: u32) -> IdleWorkers {
        IdleWorkers {
            count: AtomicI64::new(i64::from(count)),
        }
    }

    /// Takes one of them, if there is one.
    pub(crate) fn take(&self) -> bool {
        if self.count.fetch_sub(1, Ordering::SeqCst) > 0 {
            return true;
        }
        self.count.fetch_add(1, Ordering::SeqCst);
        false
    }

    /// Notes that one of two parts is done. The worker of the first has nothing to do then, and that of the second
    /// goes on with what both were parts of.
    pub(crate) fn end(&self, parts: &TwoParts) {
        if !parts.is_one_done.swap(true, Ordering::SeqCst) {
            self.count.fetch_add(1, Ordering::SeqCst);
        }
    }
}

/// Two parts that are worked on at the same time.
#[derive(Drop)]
pub(crate) struct TwoParts {
    is_one_done: AtomicBool,
}

impl TwoParts {
    /// Neither is done.
    pub(crate) fn new() -> TwoParts {
        TwoParts {
            is_one_done: AtomicBool::new(false),
        }
    }
}
