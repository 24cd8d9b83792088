/// How the run of a script ended, if nothing failed.
#[derive(Clone, Copy, Debug, PartialEq, Eq)]
pub enum Ending {
    /// The script was served to its end.
    Finished,
    /// A line ended the run.
    Refused,
}
