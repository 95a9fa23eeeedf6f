// What is said of an item: the line, and the page below it.
ghost use Rattle.std.specs.Prelude.{◌≡◌, ◌++◌, IfOk, string_bytes};

use outside::NoMemory;
use run_text::Answer;

/// What is said of an item: its line with the status, and the page.
#[derive(Drop)]
pub(crate) struct Said {
    pub(crate) line: Answer,
    pub(crate) page: String,
}

/// The line and the page as one text.
pub(crate) fn as_one(said: Said) -> Result<Answer, NoMemory>
    ensures text { IfOk result (λ answer. string_bytes answer.text ≡ string_bytes said.line.text ++ string_bytes said.page) }
    ensures status { IfOk result (λ answer. answer.status ≡ said.line.status) }
{
    let Said { line, page } = said;
    let Answer { text, status } = line;
    let mut text = text;
    text.push_str(&page)?;
    Ok(Answer { text, status })
}
