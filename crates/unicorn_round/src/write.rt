ghost use Rattle.std.specs.Prelude.{◌≡◌, OnOk, OnErr};
ghost use Rattle.uni_base.specs.Streams.{Rose};
ghost use Rattle.unicorn_round.specs.Writing.{Took, TookPart};

use uni_base::{Failed, Sink};

/// Offers a text until it is taken whole. After a failed write nothing more is offered, and an empty text
/// is not offered at all.
#[tactic(auto, using(crate::proofs::WriteSteps::took_more, crate::proofs::WriteSteps::took_nothing, crate::proofs::WriteSteps::took_all))]
pub(crate) fn write_all<K: Sink>(sink: &mut K, text: &[u8]) -> Result<(), Failed>
    ensures ok { OnOk result (Took (K.taken sink.old) text.now (K.taken sink.new)) }
    ensures quiet { OnOk result (K.faults sink.new ≡ K.faults sink.old) }
    ensures err { OnErr result (TookPart (K.taken sink.old) text.now (K.taken sink.new)) }
    ensures rose { OnErr result (Rose (K.faults sink.old) (K.faults sink.new)) }
{
    let mut count = 0;
    while count < text.len() {
        count += sink.write(&text[count..])?;
    }
    Ok(())
}
