ghost use Rattle.std.specs.Prelude.{◌≡◌, ◌⊎◌, ◌<◌, ◌≤◌, ◌+◌, None, Some, Err, length, map, IfOk, IfErr, IfSome, OnOk};
ghost use Rattle.script_rounds.specs.declared.lines.ScriptRefusal.{ScriptRefusal};
ghost use Rattle.script_rounds.specs.Fits.{ItemsFit};
ghost use Rattle.script_rounds.specs.Reading.{at, EndFits, FaultsFit};
ghost use Rattle.script_rounds.specs.RoundReads.{AreOfLines, Rise, item_line};

use crate::header::{OpenRefusal, take_header};
use crate::item::Round;
use crate::lines::{LineReader, ScriptRefusal};
use crate::round::take_round;
use crate::terms::Terms;
use std::alloc::Global;
use std::marker::Model;
use std::sync::Arc;
use uni_base::{Limits, Source};
use uni_schema::Schema;

/// Reads a script round by round, after its header.
#[derive(Drop)]
pub struct Rounds {
    terms: Terms,
    reader: LineReader,
    refusal: Option<ScriptRefusal>,
}

impl Model for Rounds {
    ghost use Rattle.script_rounds.specs.RoundsState.{RoundsState, IsReady};

    ghost Value = { RoundsState };

    ghost view = { λ r. record { reader = r.reader; terms = r.terms; refusal = r.refusal } };

    ghost invariant = { λ r. IsReady r.terms r.reader r.refusal };
}

impl Rounds {
    ghost use Rattle.std.specs.Arc.{arc_value};
    ghost use Rattle.uni_base.specs.StandardLimits.{IsWithinStandard};
    ghost use Rattle.script_rounds.specs.Headers.{OpenFits};
    ghost use Rattle.script_rounds.specs.RoundsState.{Opened, OpenRefused, ReadNext, ReadStopped};

    /// Reads the header of a script: its schema, and the reader of its rounds.
    pub fn open<S: Source>(
        alloc: Global,
        limits: Limits,
        source: &mut S,
    ) -> Result<(Rounds, Arc<Schema>), OpenRefusal>
        requires { IsWithinStandard limits }
        ensures opened { IfOk result (λ found. Opened limits found.0 (arc_value found.1)
            (S.left source.old) (S.left source.new)) }
        ensures refused { IfErr result (λ refusal. OpenRefused limits refusal
            (S.left source.old) (S.left source.new)) }
        ensures within { IfOk result (λ found. (found.0.reader.limit ≡ limits.script) × (found.0.reader.taken ≤ limits.script)) }
        ensures faults { OpenFits result (S.faults source.old) (S.faults source.new) }
    {
        let Ok(mut reader) = LineReader::new(alloc, &limits) else {
            return Err(OpenRefusal::Script(ScriptRefusal::Memory));
        };
        let schema = take_header(alloc, &limits, &mut reader, source)?;
        let Ok(schema) = Arc::new(alloc, schema) else {
            return Err(OpenRefusal::Script(ScriptRefusal::Memory));
        };
        let Ok(shared) = schema.clone() else {
            return Err(OpenRefusal::Script(ScriptRefusal::Memory));
        };
        let rounds = Rounds {
            terms: Terms::new(alloc, limits, shared),
            reader,
            refusal: None,
        };
        Ok((rounds, schema))
    }

    /// How many lines of the script were read so far, those of its header among them.
    pub fn lines(&self) -> u64
        ensures lines { result ≡ self.now.reader.lines }
        ensures few { result ≤ self.now.terms.limits.script }
    {
        self.reader.lines()
    }

    /// Reads the next round. None at the end of the input, where no line is left. After a refusal each
    /// later call answers the same one, and reads nothing.
    pub fn next<S: Source>(&mut self, source: &mut S) -> Result<Option<Round>, ScriptRefusal>
        // What is read is the next of the script's rounds, whole, or their end.
        ensures read { IfOk result (ReadNext self.old self.new
            (S.left source.old) (S.left source.new)) }

        // Each item is what some line is, and what it names is declared.
        ensures each { IfOk result (λ next. IfSome next (λ round. AreOfLines self.old.terms round.items)) }
        ensures fits { IfOk result (λ next. IfSome next (λ round. ItemsFit self.old.terms round.items)) }

        // The numbers of their lines rise, from those of the round before on.
        ensures rise { IfOk result (λ next. IfSome next
            (λ round. Rise self.old.reader.lines self.new.reader.lines (map item_line round.items))) }

        // A round has a line at least, and as many lines as items at least.
        ensures onward { IfOk result (λ next. IfSome next (λ round. self.old.reader.lines < self.new.reader.lines)) }
        ensures count { IfOk result (λ next. IfSome next
            (λ round. self.old.reader.lines + length round.items ≤ self.new.reader.lines)) }
        ensures few { self.new.reader.lines ≤ self.new.terms.limits.script }

        // No more bytes are taken than the limit, but for the one that shows that there are more.
        ensures limit { self.new.reader.limit ≡ self.new.terms.limits.script }
        ensures within { OnOk result (self.new.reader.taken ≤ self.new.terms.limits.script) }

        // A refusal has its cause, and stays.
        ensures stopped { self.old.refusal ≡ None
            → IfErr result (ReadStopped self.old self.new (S.left source.old) (S.left source.new)) }
        ensures again { (refusal : ScriptRefusal) → self.old.refusal ≡ Some refusal
            → (result ≡ Err refusal) × (self.new ≡ self.old) × (S.left source.new ≡ S.left source.old) × (S.faults source.new ≡ S.faults source.old) }
        ensures kept { IfErr result (λ refusal. self.new.refusal ≡ Some refusal) }
        ensures ready { OnOk result ((self.old.refusal ≡ None) × (self.new.refusal ≡ None)) }
        ensures faults { self.old.refusal ≡ None → FaultsFit result (S.faults source.old) (S.faults source.new) }

        ensures terms { self.new.terms ≡ self.old.terms }
        ensures end { OnOk result
            (EndFits (at self.old.reader (S.left source.old)) → EndFits (at self.new.reader (S.left source.new))) }
    {
        if let Some(refusal) = self.refusal {
            return Err(refusal);
        }
        match take_round(&self.terms, &mut self.reader, source) {
            Ok(Some(items)) => Ok(Some(Round { items })),
            Ok(None) => Ok(None),
            Err(refusal) => {
                self.refusal = Some(refusal);
                Err(refusal)
            }
        }
    }
}
