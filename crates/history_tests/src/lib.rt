// Lists of calls over two small step systems: one in which no steps are independent, and one in which all different ones are.
// It rests on `history` and `toys`; what the answers should be is worked out by hand.
#![tactic(auto)]

#[cfg(test)]
mod tests {
    use bench::fault::BenchFault;
    use history::call::{Answer, Call};
    use history::perform::perform;
    use steps::fault::Refusal;
    use toys::{commuting, sequential};

    // An answer as it is compared: an end by its one byte, a refusal by its number and place.
    #[derive(Clone, Copy, PartialEq, Eq, Debug)]
    enum Shown {
        Opened,
        Ends(u8),
        Swapped,
        Joined(u8, u8),
        Refused(u8, u16),
    }

    fn show(answer: &Result<Answer, BenchFault>) -> Shown {
        match answer {
            Ok(Answer::Opened) => Shown::Opened,
            Ok(Answer::Ends(state)) => match state.items() {
                [byte] => Shown::Ends(*byte),
                _ => Shown::Ends(0),
            },
            Ok(Answer::Swapped) => Shown::Swapped,
            Ok(Answer::Joined { len, shared }) => Shown::Joined(*len, *shared),
            Err(fault) => refused(*fault),
        }
    }

    fn refused(fault: BenchFault) -> Shown {
        let refusal = Refusal::from(fault);
        Shown::Refused(refusal.number, refusal.place)
    }

    // Nothing can be exchanged, and two runs are joined only where one begins with the other.
    #[test]
    fn in_sequence(rt: HostRuntime) {
        let calls = [
            Call::Open {
                sheet: 0,
                state: &[5],
            },
            Call::Add {
                sheet: 0,
                step: &[1],
            },
            Call::Add {
                sheet: 0,
                step: &[2],
            },
            Call::Swap { sheet: 0, place: 1 },
            Call::Open {
                sheet: 1,
                state: &[5],
            },
            Call::Join { sheet: 1, other: 0 },
            Call::Add {
                sheet: 1,
                step: &[3],
            },
            Call::Add {
                sheet: 0,
                step: &[4],
            },
            Call::Join { sheet: 0, other: 1 },
        ];
        let expected = [
            Shown::Opened,
            Shown::Ends(6),
            Shown::Ends(8),
            Shown::Refused(11, 1),
            Shown::Opened,
            Shown::Joined(2, 0),
            Shown::Ends(11),
            Shown::Ends(12),
            Shown::Refused(14, 3),
        ];
        let mut answers = [Ok(Answer::Opened); 9];
        assert!(rt; perform(&sequential::system(), &calls, &mut answers).is_some());
        for (answer, shown) in answers.iter().zip(expected) {
            assert_eq!(rt; show(answer), shown);
        }
    }

    // Different steps change places freely, and no two runs conflict.
    #[test]
    fn in_any_order(rt: HostRuntime) {
        let calls = [
            Call::Open {
                sheet: 0,
                state: &[5],
            },
            Call::Add {
                sheet: 0,
                step: &[1],
            },
            Call::Add {
                sheet: 0,
                step: &[2],
            },
            Call::Swap { sheet: 0, place: 1 },
            Call::Open {
                sheet: 1,
                state: &[5],
            },
            Call::Add {
                sheet: 1,
                step: &[1],
            },
            Call::Add {
                sheet: 1,
                step: &[3],
            },
            Call::Join { sheet: 0, other: 1 },
            Call::Join { sheet: 0, other: 0 },
            Call::Withdraw { sheet: 0 },
            Call::Swap { sheet: 0, place: 2 },
        ];
        let expected = [
            Shown::Opened,
            Shown::Ends(6),
            Shown::Ends(8),
            Shown::Swapped,
            Shown::Opened,
            Shown::Ends(6),
            Shown::Ends(9),
            Shown::Joined(3, 1),
            Shown::Joined(3, 3),
            Shown::Ends(8),
            Shown::Refused(10, 2),
        ];
        let mut answers = [Ok(Answer::Opened); 11];
        assert!(rt; perform(&commuting::system(), &calls, &mut answers).is_some());
        for (answer, shown) in answers.iter().zip(expected) {
            assert_eq!(rt; show(answer), shown);
        }
    }
}
