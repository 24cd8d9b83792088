//! Faults of lines that can be read.
use ringcore::StepFault;
use script::LONG_LINE_MEANS;

/// All refusals of a step of a schedule.
const STEP_FAULTS: [StepFault; 11] = [
    StepFault::AnotherSenders,
    StepFault::NotReserved,
    StepFault::Flipped,
    StepFault::HalfMissing,
    StepFault::NotTheHead,
    StepFault::NotSeenReady,
    StepFault::NotNext,
    StepFault::NoSuchPlace,
    StepFault::NoRoom,
    StepFault::NotSettled,
    StepFault::BadBody,
];

/// Returns the refusal of a step with this label.
pub(crate) fn step_fault(label: &str) -> Option<StepFault> {
    STEP_FAULTS.into_iter().find(|fault| fault.label() == label)
}

/// Returns the meaning of a fault of the line as a whole.
pub(crate) fn meaning(fault: &str) -> Option<&'static str> {
    let means = match fault {
        "long line" => LONG_LINE_MEANS,
        "no ring" => "a ring line was expected ahead of any other",
        "second ring" => "the ring was made by an earlier line",
        "no sender" => "word 2: the ring has no sender of this number",
        "sender open" => "word 2: this sender has a reservation that isn't published",
        "sender not open" => "word 2: this sender has no reservation to publish",
        _ => return None,
    };
    Some(means)
}

/// Returns the name of the fault in an answer `line N: ` and the name.
pub(crate) fn fault_in(answer: &[u8]) -> Option<&str> {
    let Ok(answer) = str::from_utf8(answer) else {
        return None;
    };
    match answer.trim_end().split_once(": ") {
        Some((_, name)) => Some(name),
        None => None,
    }
}
