//! Texts that end where memory ran out.
ghost use Rattle.std.specs.Prelude.{◌≡◌, ◌↔◌, ℕ, IfSome, IsTrue, None};
ghost use Rattle.fake_streams.specs.Telling.{texts_of, AreAnswers, EndsWithoutMemory};

/// Returns how many answers, from the first on, make up a text, or None if it is made of something else.
pub fn answers_in(answers: &[&str], text: &str) -> Option<usize>
    ensures some { IfSome result (λ n. AreAnswers (texts_of answers.now) text.now n) }
    ensures none { result ≡ None → (n : ℕ) → ¬ AreAnswers (texts_of answers.now) text.now n }
{
    let mut rest = text;
    for (count, answer) in answers.iter().enumerate() {
        if rest.is_empty() {
            return Some(count);
        }
        rest = rest.strip_prefix(*answer)?;
    }
    if rest.is_empty() {
        Some(answers.len())
    } else {
        None
    }
}

/// Whether a text is some of the first answers and then `no memory`.
pub fn ends_without_memory(answers: &[&str], text: &str) -> bool
    ensures { IsTrue result ↔ EndsWithoutMemory (texts_of answers.now) text.now }
{
    match text.strip_suffix("no memory\n") {
        Some(front) => answers_in(answers, front).is_some(),
        None => false,
    }
}
