//! Where the script is read from.
ghost use Rattle.std.specs.Prelude.{◌≡◌, ◌<◌, ◌≤◌, ◌++◌, Ok, Some, IfOk, length, drop};
ghost use Rattle.std.proofs.Common.{arith};
ghost use Rattle.uni_base.specs.Streams.{Reads};
ghost use Rattle.bench_script.specs.Pieces.{joined_back, ArePieces};

use std::alloc::{AllocError, Global};
use std::marker::Model;
use uni_base::{Failed, Source, SureSource, Text};

/// How many bytes a piece has at most.
const PIECE: usize = 1 << 18;

/// A source over a text in pieces, each of which gives its memory back once it is read. Its reads never fail.
/// Contracts see the bytes that are left.
#[derive(Drop)]
pub struct ScriptSource {
    first: SureSource,
    /// the pieces after it, the last one first
    later: Vec<Text>,
}

impl Model for ScriptSource {
    ghost use Rattle.std.specs.Prelude.{List, ℕ, ◌++◌};
    ghost use Rattle.bench_script.specs.Pieces.{joined_back, ArePieces};

    ghost Value = { List ℕ };

    ghost view = { λ s. s.first ++ joined_back s.later.items };

    ghost invariant = { λ s. ArePieces s.later.items };
}

impl ScriptSource {
    /// A source over a text, which is copied into pieces.
    pub fn of(alloc: Global, text: &[u8]) -> Result<ScriptSource, AllocError>
        ensures { IfOk result (λ source. source ≡ text.now) }
    {
        let later = pieces(alloc, text)?;
        Ok(ScriptSource {
            first: SureSource::new(Text::new(alloc)),
            later,
        })
    }
}

// The pieces of a text, the last one first.
fn pieces(alloc: Global, text: &[u8]) -> Result<Vec<Text>, AllocError>
    ensures joined { IfOk result (λ pieces. joined_back pieces.items ≡ text.now) }
    ensures some { IfOk result (λ pieces. ArePieces pieces.items) }
{
    let mut pieces = Vec::new(alloc);
    let mut end = text.len();
    while end > 0 {
        let from = end.saturating_sub(PIECE);
        let mut piece = Text::new(alloc);
        piece.extend_from_slice(&text[from..end])?;
        pieces.push(piece)?;
        end = from;
    }
    Ok(pieces)
}

impl Source for ScriptSource {
    ghost left = { λ s. Some s };

    ghost faults = { λ s. 0 };

    ghost bounded = { λ s. Prim.omega arith };

    fn read(&mut self, into: &mut [u8]) -> Result<usize, Failed> {
        let count = self.first.read(into)?;
        if count > 0 || into.is_empty() {
            return Ok(count);
        }
        let Some(piece) = self.later.pop() else {
            return Ok(0);
        };
        self.first = SureSource::new(piece);
        let count = self.first.read(into)?;
        Ok(count)
    }
}
