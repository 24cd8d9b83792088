//! The words of faults.
use ringcore::StepFault;

#[test]
fn faults_say_what_they_mean(rt: HostRuntime) {
    for (fault, text) in [
        (StepFault::AnotherSenders, "F1: another sender's slot"),
        (StepFault::NotReserved, "F2: a slot that nobody reserved"),
        (StepFault::Flipped, "F3: a slot that was handed over"),
        (
            StepFault::HalfMissing,
            "F4: a half that isn't written or read",
        ),
        (StepFault::NotTheHead, "F5: a slot that isn't at the head"),
        (StepFault::NotSeenReady, "F6: more than was found ready"),
        (StepFault::NotNext, "F7: an acknowledgement that isn't next"),
        (
            StepFault::NoSuchPlace,
            "F8: no such sender, slot, half or count",
        ),
        (StepFault::NoRoom, "F9: no look since, closed, or no room"),
        (
            StepFault::NotSettled,
            "F10: a reservation is open, or no batch is left",
        ),
        (
            StepFault::BadBody,
            "F11: none, too many, or a CMD_SYNC inside",
        ),
    ] {
        let told = fault.to_string(rt.alloc()).expect(&rt, "memory");
        assert_eq!(rt; told.as_str(), text);
    }
}
