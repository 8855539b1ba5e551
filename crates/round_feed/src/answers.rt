ghost use Rattle.std.specs.Prelude.{◌≡◌, ◌++◌, OnOk, option_to_list};

use reply_text::{Answer, AnswerList};
use std::alloc::AllocError;

// An answer at the end of others, if there is one.
pub(crate) fn add_answer(answers: &mut AnswerList, answer: Option<Answer>) -> Result<(), AllocError>
    ensures { OnOk result (answers.new ≡ answers.old ++ option_to_list answer) }
{
    if let Some(answer) = answer {
        answers.push(answer)?;
    }
    Ok(())
}
