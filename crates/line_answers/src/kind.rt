//! Kinds of lines that are each answered on their own.
ghost use Rattle.std.specs.Prelude.{◌≡◌, ◌++◌, ℕ, List, IfOk, OnOk, string_bytes};
ghost use Rattle.line_answers.specs.LineAnswers.{LineAnswer};

use std::alloc::AllocError;

/// Answers lines, each on its own, whatever comes before and after it: the same line alike at all times.
pub trait AnswersLines: Drop {
    /// The answer to a line.
    ghost answer_of: { Self → List ℕ → LineAnswer };

    /// Whether a line is good doesn't depend on the value.
    ghost alike: { (one other : Self) (line : List ℕ) → (answer_of one line).is_good ≡ (answer_of other line).is_good };

    /// Appends the answer to a line, and returns whether the line is good. After an `Err` `reply` is of no use.
    fn say_line(&self, line: &[u8], reply: &mut String) -> Result<bool, AllocError>
        ensures text { OnOk result (string_bytes reply.new
            ≡ string_bytes reply.old ++ (answer_of self.now line.now).text) }
        ensures good { IfOk result (λ is_good. is_good ≡ (answer_of self.now line.now).is_good) };

    /// Appends why a line isn't good, as an engineer would say it, or nothing if its answer says so. No clause says
    /// anything of this text, since it isn't part of the answer.
    fn say_fault(&self, line: &[u8], said: &mut String) -> Result<(), AllocError>;
}
