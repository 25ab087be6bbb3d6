//! The plain machine on small tables.

#![tactic(auto)]

#[cfg(test)]
mod tests {
    use model::faults::{MachineFault, Refusal, StepsFault, TableFault};
    use model::places::{Place, SourcePlace};
    use plain::run::Run;
    use std::process::Abort;
    use std::test::Fail;

    /// Every op once, along a way where each is granted.
    const EVERY_OP: [u8; 142] = [
        1, 1, 1, 2, 4, 1, // header
        10, 0, 22, 0, // thread 0
        0, 0, 0, 250, 0, 0, // SET 0 250
        3, 0, 0, 10, 0, 0, // INC 0 10
        1, 1, 0, 0, 0, 0, // MOVE 1 0
        2, 1, 0, 0, 0, 0, // ADD 1 0
        0, 2, 0, 250, 0, 0, // SET 2 250
        2, 2, 1, 0, 0, 0, // ADD 2 1
        10, 1, 2, 0, 0, 0, // STORE 1 2
        9, 3, 1, 0, 0, 0, // LOAD 3 1
        11, 0, 0, 0, 0, 0, // FENCE
        12, 1, 3, 0, 0, 0, // ARW 1 3 0
        5, 0, 0, 4, 12, 0, // IFEQ 0 4 12
        4, 0, 0, 0, 11, 0, // JUMP 11
        6, 3, 0, 0, 14, 0, // IFLT 3 0 14
        4, 0, 0, 0, 13, 0, // JUMP 13
        15, 0, 0, 0, 16, 0, // CALL 16
        4, 0, 0, 0, 18, 0, // JUMP 18
        7, 0, 0, 0, 18, 0, // PICK 18
        16, 0, 0, 0, 0, 0, // BACK
        13, 3, 0, 3, 0, 0, // OPEN 3 3
        14, 0, 0, 0, 20, 0, // SHUT 20
        8, 3, 3, 0, 0, 0, // WAIT 3 3
        3, 3, 0, 0, 0, 0, // INC 3 0
    ];

    /// Each thread comes to an instruction that lacks what it needs.
    const STUCK: [u8; 58] = [
        1, 1, 4, 1, 2, 1, // header
        22, 0, 2, 0, // thread 0
        34, 0, 2, 0, // thread 1
        46, 0, 1, 0, // thread 2
        52, 0, 1, 0, // thread 3
        0, 0, 0, 1, 0, 0, // SET 0 1
        8, 0, 1, 0, 0, 0, // WAIT 0 1
        0, 0, 0, 1, 0, 0, // SET 0 1
        12, 0, 0, 1, 0, 0, // ARW 0 0 1
        13, 0, 0, 0, 0, 0, // OPEN 0 0
        14, 0, 0, 0, 0, 0, // SHUT 0
    ];

    /// A section, and a thread beside it.
    const SECTION: [u8; 50] = [
        1, 1, 2, 1, 1, 1, // header
        14, 0, 4, 0, // thread 0
        38, 0, 2, 0, // thread 1
        13, 0, 0, 3, 0, 0, // OPEN 0 3
        7, 0, 0, 0, 3, 0, // PICK 3
        13, 0, 0, 3, 0, 0, // OPEN 0 3
        14, 0, 0, 0, 0, 0, // SHUT 0
        7, 0, 0, 0, 1, 0, // PICK 1
        3, 0, 0, 1, 0, 0, // INC 0 1
    ];

    /// A thread that ends in its section, and one that goes back before any call.
    const INSIDE: [u8; 32] = [
        1, 1, 2, 1, 1, 1, // header
        14, 0, 1, 0, // thread 0
        20, 0, 2, 0, // thread 1
        13, 0, 0, 1, 0, 0, // OPEN 0 1
        3, 0, 0, 1, 0, 0, // INC 0 1
        16, 0, 0, 0, 0, 0, // BACK
    ];

    /// A source table whose tests all fail.
    const SOURCE: [u8; 34] = [
        1, 0, 1, 1, 2, 0, // header
        10, 0, 4, 0, // thread 0
        0, 0, 0, 7, 0, 0, // SET 0 7
        5, 0, 0, 8, 3, 0, // IFEQ 0 8 3
        6, 0, 1, 0, 0, 0, // IFLT 0 1 0
        8, 0, 1, 0, 0, 0, // WAIT 0 1
    ];

    /// Asks steps, each by its thread and way, and compares the numbers and places of the refusals, since those are the
    /// published ones.
    fn ask(rt: &impl Abort, run: &mut Run, rows: &[(u8, u8, Result<(), (u8, usize)>)]) {
        for &(thread, way, expected) in rows {
            let told = run.step(thread, way).map_err(|fault| {
                let refusal = Refusal::from(fault);
                (refusal.number, refusal.place)
            });
            assert_eq!(rt; told, expected, "thread {thread}, way {way}");
        }
    }

    fn begun(bytes: &[u8]) -> Result<Run, Fail> {
        Run::new(bytes).map_err(|_| Fail::new("no table"))
    }

    fn four(run: &Run) -> [Option<u8>; 4] {
        std::array::from_fn(|r| run.register(0, r as u8))
    }

    /// The place of a thread of a translated table.
    fn at(place: Option<Place>) -> Option<u16> {
        match place {
            Some(Place::Translated(p)) => Some(p.0),
            _ => None,
        }
    }

    #[test]
    fn every_op_is_granted(rt: HostRuntime) -> Result<(), Fail> {
        let mut run = begun(&EVERY_OP)?;
        assert!(rt; run.steps(&[0; 20]).is_ok());
        assert_eq!(rt;
            four(&run),
            [Some(4), Some(8), Some(2), Some(3)],
            "both sums wrap"
        );
        assert_eq!(rt; run.word(1), Some(4));
        assert_eq!(rt; at(run.link(0)), Some(15));
        assert_eq!(rt; run.ended(0), Some(true));
        ask(
            &rt,
            &mut run,
            &[
                (0, 0, Err((11, 22))),
                (0, 9, Err((11, 22))),
                (1, 0, Err((9, 1))),
            ],
        );
        Ok(())
    }

    #[test]
    fn a_step_lacks_what_it_needs(rt: HostRuntime) -> Result<(), Fail> {
        let mut run = begun(&STUCK)?;
        let granted = [(0, 0, Ok(())), (1, 0, Ok(()))];
        ask(&rt, &mut run, &granted);
        let refused = [
            (0, 0, Err((11, 1))),
            (0, 1, Err((10, 1))),
            (0, 2, Err((10, 1))),
            (1, 0, Err((11, 1))),
            (2, 0, Err((11, 0))),
            (3, 0, Err((11, 0))),
        ];
        ask(&rt, &mut run, &refused);
        // A refusal changes nothing.
        ask(&rt, &mut run, &refused);
        assert_eq!(rt; run.word(0), Some(0));
        assert_eq!(rt; run.holder(), None);
        Ok(())
    }

    #[test]
    fn a_section_keeps_others_out(rt: HostRuntime) -> Result<(), Fail> {
        let mut run = begun(&SECTION)?;
        ask(
            &rt,
            &mut run,
            &[
                (0, 0, Ok(())),
                (1, 0, Err((11, 0))),
                (1, 1, Err((11, 0))),
                (1, 2, Err((10, 0))),
            ],
        );
        assert_eq!(rt; run.holder(), Some(0));
        ask(
            &rt,
            &mut run,
            &[
                (0, 1, Ok(())),
                (0, 0, Ok(())),
                (1, 1, Ok(())),
                (1, 0, Ok(())),
            ],
        );
        assert_eq!(rt; run.holder(), None);
        assert_eq!(rt; run.register(1, 0), Some(1));
        ask(
            &rt,
            &mut run,
            &[(0, 0, Ok(())), (0, 0, Ok(())), (0, 0, Err((11, 2)))],
        );
        assert_eq!(rt; run.register(0, 0), Some(2));
        Ok(())
    }

    #[test]
    fn a_thread_ends_inside(rt: HostRuntime) -> Result<(), Fail> {
        let mut run = begun(&INSIDE)?;
        ask(
            &rt,
            &mut run,
            &[(1, 0, Ok(())), (1, 0, Ok(())), (1, 0, Ok(()))],
        );
        assert_eq!(rt;
            run.register(1, 0),
            Some(2),
            "BACK before any CALL goes to 0"
        );
        ask(
            &rt,
            &mut run,
            &[(0, 0, Ok(())), (1, 0, Err((11, 1))), (0, 0, Err((11, 1)))],
        );
        assert_eq!(rt; run.ended(0), Some(true));
        Ok(())
    }

    #[test]
    fn places_reach_far(rt: HostRuntime) -> Result<(), Fail> {
        let mut bytes = [0; 8410];
        bytes[0..16].copy_from_slice(&[1, 1, 1, 1, 1, 1, 10, 0, 120, 5, 4, 0, 0, 0, 119, 5]);
        let mut run = begun(&bytes)?;
        ask(&rt, &mut run, &[(0, 0, Ok(()))]);
        assert_eq!(rt; at(run.place(0)), Some(1399));
        ask(&rt, &mut run, &[(0, 0, Ok(())), (0, 0, Err((11, 1400)))]);
        Ok(())
    }

    #[test]
    fn a_list_stops_at_its_first_refusal(rt: HostRuntime) -> Result<(), Fail> {
        let mut run = begun(&SOURCE)?;
        assert!(rt;
            run.steps(&[0, 8, 0]) == Err(StepsFault::Byte { index: 1 }),
            "8 is no step"
        );
        let place = Place::Source(SourcePlace(3));
        let fault = MachineFault::NotGranted { place };
        assert!(rt;
            run.steps(&[0, 0, 0, 0]) == Err(StepsFault::Step { index: 2, fault }),
            "WAIT is not granted"
        );
        assert_eq!(rt; four(&run), [Some(7), Some(0), None, None]);
        assert_eq!(rt; run.ended(0), Some(false));
        Ok(())
    }

    #[test]
    fn no_table_no_run(rt: HostRuntime) {
        let fault = Run::new(&[1, 0]).err();
        assert!(rt; fault == Some(TableFault::Length { length: 2 }));
    }
}
