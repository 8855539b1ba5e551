ghost use Rattle.std.specs.Prelude.{ℕ, List, ◌≡◌, [], IfOk};
ghost use Rattle.script_rounds.specs.Entries.{Entry};
ghost use Rattle.script_rounds.specs.Terms.{Terms};

use std::alloc::AllocError;
use uni_base::Text;

/// What answers the rounds of a script, one after the other.
pub(crate) trait Answering: Drop {
    /// The limits and the schema of the script.
    ghost terms: { Self → Terms };

    /// It may go on, where so many lines were read at most.
    ghost ready: { Self → ℕ → Type 0 };

    /// It stands behind rounds of the script, which a text answers.
    ghost stands: { Self → List (List Entry) → List ℕ → Type 0 };

    /// What that says of the text.
    ghost claims: { Terms → List (List Entry) → List ℕ → Type 0 };

    /// The text that closes that of a script of so many lines.
    ghost closing: { ℕ → List ℕ };

    /// Closes a script of so many lines.
    fn close(&self, lines: u64) -> Result<Text, AllocError>
        ensures { IfOk result (λ text. text ≡ closing lines) };

    ghost claimed: { (answering : Self) (rounds : List (List Entry)) (text : List ℕ) → stands answering rounds text → claims (terms answering) rounds text };

    ghost nothing: { (of : Terms) → claims of [] [] };
}
