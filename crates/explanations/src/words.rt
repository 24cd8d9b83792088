//! The words of a line, looked at one after another.
use crate::expected::Expected;
use crate::form::{Form, Rest};
use crate::misread::Misread;
use crate::replay_forms::tag_words;
use script::{LONGEST_LINE, is_end, next_word};

/// The words of a line that are left, and how many were passed.
#[derive(Drop)]
pub(crate) struct Words<'a> {
    left: &'a [u8],
    passed: u64,
}

impl<'a> Words<'a> {
    pub(crate) fn of(line: &'a [u8]) -> Words<'a> {
        Words {
            left: line,
            passed: 0,
        }
    }

    /// Passes the next word, which has to be as expected.
    pub(crate) fn expect(&mut self, expected: Expected) -> Result<&'a [u8], Misread<'a>> {
        let (found, left) = next_word(self.left).unwrap_or((b"", b""));
        self.left = left;
        self.passed = self.passed.saturating_add(1);
        if expected.is_met_by(found) {
            Ok(found)
        } else {
            Err(self.misread(expected, found))
        }
    }

    /// Reports that the word passed last isn't as expected.
    pub(crate) fn misread(&self, expected: Expected, found: &'a [u8]) -> Misread<'a> {
        Misread {
            word: self.passed,
            expected,
            found,
        }
    }

    /// Passes the next words, each of which has to be as expected.
    fn expect_each(&mut self, expected: &[Expected]) -> Result<(), Misread<'a>> {
        for each in expected {
            self.expect(*each)?;
        }
        Ok(())
    }

    /// Passes the end of the line.
    fn expect_end(&mut self) -> Result<(), Misread<'a>> {
        self.expect(Expected::End)?;
        Ok(())
    }

    /// Passes a tag.
    fn expect_tag(&mut self) -> Result<(), Misread<'a>> {
        let kind = self.expect(Expected::TagKind)?;
        match tag_words(kind) {
            Some(words) => self.expect_each(words),
            None => Ok(()),
        }
    }

    /// Passes commands to the line's end.
    fn expect_commands(&mut self) -> Result<(), Misread<'a>> {
        // A line has fewer words than this.
        for _ in 0..LONGEST_LINE {
            if is_end(self.left) {
                return Ok(());
            }
            self.expect(Expected::Command)?;
        }
        self.expect_end()
    }

    /// Passes what may follow the words that a line always has.
    fn expect_rest(&mut self, rest: Rest) -> Result<(), Misread<'a>> {
        match rest {
            Rest::Commands => self.expect_commands(),
            Rest::Optional(word) if !is_end(self.left) => {
                self.expect(word)?;
                self.expect_end()
            }
            _ => self.expect_end(),
        }
    }

    /// Passes all that is left, which has to be of this form.
    pub(crate) fn expect_form(&mut self, form: Form) -> Result<(), Misread<'a>> {
        match form {
            Form::Words(words, rest) => {
                self.expect_each(words)?;
                self.expect_rest(rest)
            }
            Form::Tagged(words) => {
                self.expect_tag()?;
                self.expect_each(words)?;
                self.expect_end()
            }
        }
    }
}
