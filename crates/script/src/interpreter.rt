//! The trait of what serves the lines of a script.
ghost use Rattle.std.specs.Prelude.{◌≡◌, ◌≤◌, ◌<◌, ◌++◌, ℕ, List, [], ◌∷◌, IfOk, Some, None, length, string_bytes, true, false, codes};
ghost use Rattle.script.specs.declared.ending.Ending.TheVariants.{Finished};
ghost use Rattle.script.specs.Outcome.{Outcome, Continues, Ends, fault};
ghost use Rattle.script.specs.Knowing.{Learns};

use std::alloc::AllocError;

/// The most bytes a line may have, without its end.
pub const LONGEST_LINE: usize = 4096;

/// What an engineer is told about a longer line.
pub const LONG_LINE_MEANS: &str = "a line of at most 4096 bytes was expected";

/// Serves the lines of a script, one after another.
pub trait Interpreter {
    /// What the lines served from here on may come to; the number is that of the first of them.
    ghost gives: { Self → ℕ → List (List ℕ) → Outcome → Type 0 };

    /// What it knows of all the lines that it served: whatever its author wants to be told once all are served.
    ghost knows: { Self → List (List ℕ) → Type 0 };

    /// What it knows of the line that ended the run, given its number.
    ghost ended_at: { Self → ℕ → List ℕ → Type 0 };

    /// Serves the line of this number, appends its answer to `reply`, and returns whether the run goes on. After an
    /// `Err` the run is over, and neither `self` nor `reply` is of use.
    fn serve_line(
        &mut self,
        number: u64,
        line: &[u8],
        reply: &mut String,
    ) -> Result<bool, AllocError>
        requires { length line.now ≤ 4096 }
        ensures goes_on { IfOk result (λ goes_on. goes_on ≡ true
            → Continues (gives self.old) (gives self.new) number line.now (string_bytes reply.old)
            (string_bytes reply.new)) }
        ensures ends { IfOk result (λ goes_on. goes_on ≡ false
            → Ends (gives self.old) number line.now (string_bytes reply.old)
            (string_bytes reply.new)) }
        ensures last { IfOk result (λ goes_on. goes_on ≡ false
            → ended_at self.new number line.now) }
        ensures learns { IfOk result (λ goes_on. goes_on ≡ true
            → Learns knows self.old self.new (line.now ∷ [])) };

    /// Takes note that the line of this number is too long, which ends the run, and of the line's answer.
    fn hear_of_long_line(&mut self, number: u64, reply: &str)
        ensures { (line : List ℕ) → 4096 < length line → ended_at self.new number line };

    /// With no line left, the run is at its end.
    ghost nothing_left: { (s : Self) (n : ℕ) → gives s n [] (record { text = []; ending = Some Finished }) };

    /// A line of more than 4,096 bytes ends the run, whatever it says.
    ghost long_line: { (s : Self) (n : ℕ) (line : List ℕ) (lines : List (List ℕ)) → 4096 < length line
        → gives s n (line ∷ lines) (fault n (codes "long line")) };

    /// The empty text is a beginning of whatever lines come to.
    ghost begins: { (s : Self) (n : ℕ) (lines : List (List ℕ)) → gives s n lines (record { text = []; ending = None }) };

    /// So is each front of a text that they may come to.
    ghost cut: { (s : Self) (n : ℕ) (lines : List (List ℕ)) (outcome : Outcome) (front rest : List ℕ) → gives s n lines outcome
        → outcome.text ≡ front ++ rest → gives s n lines (record { text = front; ending = None }) };
}
