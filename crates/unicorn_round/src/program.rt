ghost use Rattle.std.specs.Prelude.{◌≡◌, false, map, true};
ghost use Rattle.std.specs.String.{string_bytes};
ghost use Rattle.uni_base.specs.StandardLimits.{standard_limits};
ghost use Rattle.unicorn_round.specs.Completeness.{Completes};
ghost use Rattle.unicorn_round.specs.Statuses.{ReadFaultsFit, WriteFaultsFit};
ghost use Rattle.unicorn_round.specs.Usage.{EndsForWords, RanAs};
ghost use Rattle.unicorn_words.specs.Asked.{AreAsked};
ghost use Rattle.unicorn_words.specs.CommandLine.{is_taken};
ghost use Rattle.unicorn_words.specs.declared.words.Settings.{Settings};

use crate::modes::{check_script, run_plain, serve_rounds};
use crate::status::Status;
use crate::summary::bench;
use crate::write::write_all;
use rack_aggregate::Gate;
use replica_pick::Chooser;
use std::alloc::Global;
use std::sync::Wait;
use std::thread::Threads;
use uni_base::{Limits, Sink, Source};
use unicorn_words::{Mode, WordsRefusal, read_words};

/// The line that is written for words that the program does not take.
const USAGE: &[u8] = b"usage: unicorn MODE [--workers N] [--seed N] [--people N]\n";

/// The program, over the words of its command line, of which the first is its name.
pub fn run<R, S, K, C, G>(
    rt: &R,
    alloc: Global,
    words: &[String],
    source: &mut S,
    sink: &mut K,
    chooser: &C,
    gate: &G,
) -> Status
where
    R: Threads + Wait + Sync,
    S: Source,
    K: Sink,
    C: Chooser + Sync,
    G: Gate + Sync,
    // Words that are taken: what is written is what their mode says.
    ensures ran { is_taken (map string_bytes words.now) ≡ true → (settings : Settings) → AreAsked (map string_bytes words.now) settings
        → RanAs settings.mode settings.seed settings.people (S.left source.old) (S.left source.new) (K.taken sink.old) (K.taken sink.new) result }

    // Other words: the usage line, and nothing is read.
    ensures usage { result ≡ Status.Usage → is_taken (map string_bytes words.now) ≡ false }
    ensures refused { is_taken (map string_bytes words.now) ≡ false → EndsForWords (K.taken sink.old) (K.taken sink.new) result }
    ensures unread { is_taken (map string_bytes words.now) ≡ false
        → (S.left source.new ≡ S.left source.old) × (S.faults source.new ≡ S.faults source.old) }

    // What the counts of faults say of the status, whatever the words.
    ensures reads { ReadFaultsFit result (S.faults source.old) (S.faults source.new) }
    ensures writes { WriteFaultsFit result (K.faults sink.old) (K.faults sink.new) }

    // Words that are taken, a script within its limit under a header without fault, and no failed read or
    // write: then all is answered, unless it runs out of memory.
    ensures complete { is_taken (map string_bytes words.now) ≡ true
        → Completes standard_limits (S.left source.old) (S.faults source.old) (S.faults source.new) (K.faults sink.old) (K.faults sink.new) result }
{
    unicorn_words::laws::ask_for_one();
    let settings = match read_words(alloc, words) {
        Ok(settings) => settings,
        Err(WordsRefusal::Usage) => return write_usage(sink),
        Err(WordsRefusal::Memory) => return Status::Memory,
    };
    let limits = Limits::standard();
    match settings.mode {
        Mode::Serve => serve_rounds(
            rt,
            alloc,
            limits,
            settings.workers,
            source,
            sink,
            chooser,
            gate,
        ),
        Mode::Plain => run_plain(alloc, limits, source, sink),
        Mode::Check => check_script(alloc, limits, source, sink),
        Mode::Bench => bench(
            rt,
            alloc,
            settings.seed,
            settings.people,
            settings.workers,
            sink,
            chooser,
            gate,
        ),
    }
}

// Writes the usage line.
fn write_usage<K: Sink>(sink: &mut K) -> Status
    ensures written { EndsForWords (K.taken sink.old) (K.taken sink.new) result }
    ensures writes { WriteFaultsFit result (K.faults sink.old) (K.faults sink.new) }
{
    match write_all(sink, USAGE) {
        Ok(()) => Status::Usage,
        Err(_) => Status::WriteFault,
    }
}
