ghost use Rattle.std.specs.Prelude.{ℕ, ◌≡◌, IfErr, IfOk, List, Ok, OnOk};
ghost use Rattle.std.specs.Arc.{arc_value};
ghost use Rattle.script_rounds.specs.Terms.{under};
ghost use Rattle.script_rounds.specs.declared.item.Item.{Item};
ghost use Rattle.uni_base.specs.StandardLimits.{IsWithinStandard};
ghost use Rattle.unicorn_round.specs.Answerer.{HasAnswered, IsOpened, MayAnswer};
ghost use Rattle.unicorn_round.specs.Outcome.{Ran};
ghost use Rattle.unicorn_round.specs.Reads.{ScriptAnswered};
ghost use Rattle.unicorn_round.specs.Statuses.{ReadFaultsFit, WriteFaultsFit, status_of};

use crate::answering::Answering;
use crate::header::write_header_fault;
use crate::status::Status;
use crate::write::write_all;
use script_rounds::{ItemList, OpenRefusal, Rounds, ScriptRefusal};
use std::alloc::{AllocError, Global};
use std::sync::Arc;
use uni_base::{Limits, Sink, Source, Text};
use uni_schema::Schema;

/// Reads a script and answers it, each round written in one piece before the next one is read. What opens and what
/// answers a script are closures, since a trait's method may not send to threads what its caller is generic in.
pub(crate) fn answer_script<A, O, F, S, K>(
    alloc: Global,
    limits: Limits,
    source: &mut S,
    sink: &mut K,
    open_with: &O,
    answer_with: &F,
) -> Status
where
    A: Answering,
    O: Fn(Arc<Schema>) -> Result<A, AllocError>,
    F: Fn(A, ItemList) -> Result<(A, Text), AllocError>,
    S: Source,
    K: Sink,
    requires standard { IsWithinStandard limits }
    requires opens { (schema : _) → O.pre open_with.now schema }
    requires opened { (schema : _) → (answering : A) → O.post open_with.now schema (Ok answering) → IsOpened A.terms A.ready A.stands (under limits (arc_value schema)) answering }
    requires may { (answering : A) → (items : List Item) → MayAnswer A.terms A.ready A.stands answering items → F.pre answer_with.now answering items }
    requires answered { (old : A) → (items : List Item) → (new : A) → (text : List ℕ) → F.post answer_with.now old items (Ok (new, text)) → HasAnswered A.terms A.ready A.stands old items new text }
    ensures ran { Ran limits A.claims A.closing (S.left source.old) (S.left source.new) (K.taken sink.old) (K.taken sink.new) result }
    ensures reads { ReadFaultsFit result (S.faults source.old) (S.faults source.new) }
    ensures writes { WriteFaultsFit result (K.faults sink.old) (K.faults sink.new) }
{
    let (answering, lines) = match answer_rounds(
        alloc,
        limits,
        source,
        sink,
        open_with,
        answer_with,
    ) {
        Ok(all) => all,
        Err(status) => return status,
    };
    let Ok(text) = answering.close(lines) else {
        return Status::Memory;
    };
    match write_all(sink, text.as_slice()) {
        Ok(()) => Status::Done,
        Err(_) => Status::WriteFault,
    }
}

/// Reads a script and answers its rounds: what has answered them all, and how many lines the script has; or how
/// the run ends before that.
pub(crate) fn answer_rounds<A, O, F, S, K>(
    alloc: Global,
    limits: Limits,
    source: &mut S,
    sink: &mut K,
    open_with: &O,
    answer_with: &F,
) -> Result<(A, u64), Status>
where
    A: Answering,
    O: Fn(Arc<Schema>) -> Result<A, AllocError>,
    F: Fn(A, ItemList) -> Result<(A, Text), AllocError>,
    S: Source,
    K: Sink,
    requires standard { IsWithinStandard limits }
    requires opens { (schema : _) → O.pre open_with.now schema }
    requires opened { (schema : _) → (answering : A) → O.post open_with.now schema (Ok answering) → IsOpened A.terms A.ready A.stands (under limits (arc_value schema)) answering }
    requires may { (answering : A) → (items : List Item) → MayAnswer A.terms A.ready A.stands answering items → F.pre answer_with.now answering items }
    requires answered { (old : A) → (items : List Item) → (new : A) → (text : List ℕ) → F.post answer_with.now old items (Ok (new, text)) → HasAnswered A.terms A.ready A.stands old items new text }
    ensures all { IfOk result (λ t. ScriptAnswered limits A.terms A.stands (S.left source.old) (S.left source.new) (K.taken sink.old) (K.taken sink.new) t.0 t.1) }
    ensures quiet { OnOk result ((S.faults source.new ≡ S.faults source.old) × (K.faults sink.new ≡ K.faults sink.old)) }
    ensures ran { IfErr result (Ran limits A.claims A.closing (S.left source.old) (S.left source.new) (K.taken sink.old) (K.taken sink.new)) }
    ensures reads { IfErr result (λ status. ReadFaultsFit status (S.faults source.old) (S.faults source.new)) }
    ensures writes { IfErr result (λ status. WriteFaultsFit status (K.faults sink.old) (K.faults sink.new)) }
{
    let (mut rounds, schema) = match Rounds::open(alloc, limits, source) {
        Ok(opened) => opened,
        Err(OpenRefusal::Schema(refusal)) => {
            return Err(write_header_fault(alloc, refusal, sink));
        }
        Err(OpenRefusal::Script(refusal)) => return Err(status_of(refusal)),
    };
    let Ok(mut answering) = open_with(schema) else {
        return Err(Status::Memory);
    };
    loop {
        let round = match rounds.next(source) {
            Ok(Some(round)) => round,
            Ok(None) => break,
            Err(refusal) => return Err(status_of(refusal)),
        };
        let Ok((next, text)) = answer_with(answering, round.items) else {
            return Err(Status::Memory);
        };
        answering = next;
        if write_all(sink, text.as_slice()).is_err() {
            return Err(Status::WriteFault);
        }
    }
    Ok((answering, rounds.lines()))
}

// The status of a run whose script could not be read to its end.
fn status_of(refusal: ScriptRefusal) -> Status
    ensures { result ≡ status_of refusal }
{
    match refusal {
        ScriptRefusal::ReadFault => Status::ReadFault,
        ScriptRefusal::TooLong(_) => Status::TooLong,
        ScriptRefusal::Memory => Status::Memory,
    }
}
