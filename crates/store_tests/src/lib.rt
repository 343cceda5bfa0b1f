//! Examples of both stores at their limits, and of what errors print. A crate of its own, since tests have their crate proved twice.
#![tactic(auto)]

#[cfg(test)]
mod tests {
    use cells::{GateTable, NandCell, NandTable, Part};
    use fault::Layer;
    use level::{Letter, Level, LevelFault, Ternary, Word};
    use std::mem::size_of;
    use std::process::Abort;
    use std::test::Fail;
    use store::{LEAVES, MOST_CELLS, NewStoreFault, PartKind, Store, StoreFault};
    use trial::{Case, TrialFault};

    // Of several faults the one of the lowest number is answered, and nothing is placed.
    fn lowest_first<S: Store + Drop>(rt: &(impl Abort + AllocGlobal)) -> Result<(), Fail> {
        let mut store = S::new(rt.alloc(), 0)?;
        assert_eq!(rt; store.place(7, 9, 9), Err(StoreFault::NoSuchPart));
        assert_eq!(rt; store.place(255, 0, 0), Err(StoreFault::NoSuchPart));
        assert_eq!(rt;
            store.place(PartKind::And.code(), 0, 0),
            Err(StoreFault::NoSuchOperand)
        );
        assert_eq!(rt;
            store.place(PartKind::Leaf.code(), 1088, 0),
            Err(StoreFault::NoSuchOperand)
        );
        assert_eq!(rt;
            store.place(PartKind::Leaf.code(), 1087, usize::MAX),
            Err(StoreFault::Full)
        );
        assert_eq!(rt; store.count(), 0);
        Ok(())
    }

    // A part fits where just as many cells are free as it costs, and one less is too few.
    fn last_cell<S: Store + Drop>(
        rt: &(impl Abort + AllocGlobal),
        kind: PartKind,
    ) -> Result<(), Fail> {
        let room = S::cost(PartKind::Leaf).saturating_add(S::cost(kind));
        let mut enough = S::new(rt.alloc(), room)?;
        let a = enough.place(PartKind::Leaf.code(), 0, 0)?;
        assert!(rt; enough.place(kind.code(), a, a).is_ok());
        let mut short = S::new(rt.alloc(), room.saturating_sub(1))?;
        let b = short.place(PartKind::Leaf.code(), 0, 0)?;
        let before = short.count();
        assert_eq!(rt; short.place(kind.code(), b, b), Err(StoreFault::Full));
        assert_eq!(rt; short.count(), before);
        Ok(())
    }

    // A short table is refused, and rows past the signals stay.
    fn settles<S: Store + Drop>(rt: &(impl Abort + AllocGlobal)) -> Result<(), Fail> {
        let mut store = S::new(rt.alloc(), 8)?;
        let one = store.place(PartKind::One.code(), 0, 0)?;
        let leaves = vec![in rt.alloc(); Ternary(Letter::Unknown); LEAVES]?;
        let mut work = vec![in rt.alloc(); Ternary(Letter::Unknown); 4]?;
        assert_eq!(rt;
            store.settle(&leaves[0..1087], &mut work),
            Err(StoreFault::ShortTable)
        );
        assert_eq!(rt; store.settle(&leaves, &mut []), Err(StoreFault::ShortTable));
        assert_eq!(rt; work.get(one).copied(), Some(Ternary(Letter::Unknown)));
        assert_eq!(rt; store.settle(&leaves, &mut work), Ok(()));
        assert_eq!(rt; work.get(one).copied(), Some(Ternary(Letter::One)));
        assert_eq!(rt; work.get(3).copied(), Some(Ternary(Letter::Unknown)));
        Ok(())
    }

    #[test]
    fn gates_refuse_lowest_first(rt: HostRuntime) -> Result<(), Fail> {
        lowest_first::<GateTable>(&rt)
    }

    #[test]
    fn nands_refuse_lowest_first(rt: HostRuntime) -> Result<(), Fail> {
        lowest_first::<NandTable>(&rt)
    }

    #[test]
    fn parts_take_the_last_cells(rt: HostRuntime) -> Result<(), Fail> {
        for kind in PartKind::ALL {
            last_cell::<GateTable>(&rt, kind)?;
            last_cell::<NandTable>(&rt, kind)?;
        }
        Ok(())
    }

    #[test]
    fn tables_settle(rt: HostRuntime) -> Result<(), Fail> {
        settles::<GateTable>(&rt)?;
        settles::<NandTable>(&rt)
    }

    #[test]
    fn cells_are_at_most_a_million(rt: HostRuntime) -> Result<(), Fail> {
        let most = NandTable::new(rt.alloc(), MOST_CELLS)?;
        assert_eq!(rt; most.count(), 0);
        let more = GateTable::new(rt.alloc(), MOST_CELLS + 1);
        assert_eq!(rt; more.err(), Some(NewStoreFault::TooManyCells));
        Ok(())
    }

    // Sixty-four lanes of XOR at once, over NAND cells.
    #[test]
    fn words_settle_lane_by_lane(rt: HostRuntime) -> Result<(), Fail> {
        let mut store = NandTable::new(rt.alloc(), 8)?;
        let a = store.place(PartKind::Leaf.code(), 0, 0)?;
        let b = store.place(PartKind::Leaf.code(), 1, 0)?;
        let xor = store.place(PartKind::Xor.code(), a, b)?;
        let mut leaves = vec![in rt.alloc(); Word(0); LEAVES]?;
        leaves[0] = Word(0x0123_4567_89ab_cdef);
        leaves[1] = Word(0xffff_0000_ffff_0000);
        let mut work = [Word(0); 8];
        store.settle(&leaves, &mut work)?;
        let level = work.get(xor).copied().ok_or("no such row")?;
        assert_eq!(rt; level, Word(0xfedc_4567_7654_cdef));
        assert_eq!(rt; level.letter(63), Ok(Letter::One));
        assert_eq!(rt; level.letter(64), Err(LevelFault::NoSuchLane));
        Ok(())
    }

    // What the user is shown of each error, and a part on trial and a letter as the program prints them.
    #[test]
    fn errors_and_cases_print(rt: HostRuntime) -> Result<(), Fail> {
        let alloc = rt.alloc();
        let lines = format!(in alloc;
            "{}\n{}\n{}\n{}",
            StoreFault::NoSuchPart,
            StoreFault::NoSuchOperand,
            StoreFault::Full,
            LevelFault::NoSuchLane,
        )?;
        assert_eq!(rt;
            lines.as_str(),
            "REFUSED 20 0 STORE\nREFUSED 21 0 STORE\nREFUSED 22 0 STORE\nREFUSED 25 0 BENCH"
        );
        let whole = format!(in alloc;
            "{}\n{}\n{}\n{}",
            TrialFault::New(NewStoreFault::TooManyCells),
            TrialFault::New(NewStoreFault::OutOfMemory),
            TrialFault::Store(StoreFault::ShortTable),
            TrialFault::OutOfMemory,
        )?;
        assert_eq!(rt;
            whole.as_str(),
            "a store has at most 1,048,576 cells\nno memory for the store\nREFUSED 23 0 STORE\nno memory for the tables"
        );
        let case = Case {
            kind: PartKind::Xor,
            a: Letter::One,
            b: Letter::Unknown,
        };
        let refusal = Layer::Text.refusal(6);
        let text = format!(in alloc; "{case}, {}, {refusal}", case.rule_letter())?;
        assert_eq!(rt; text.as_str(), "XOR 1 X, X, REFUSED 6 0 TEXT");
        Ok(())
    }

    #[test]
    fn a_cell_takes_twelve_bytes(rt: HostRuntime) {
        assert_eq!(rt; size_of::<Part>(), 12);
        assert_eq!(rt; size_of::<NandCell>(), 12);
    }
}
