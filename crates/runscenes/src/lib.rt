//! Scenes of run files: what a reader finds, where faults are told, and what a bench makes of records.
#![tactic(auto)]

#[cfg(test)]
mod tests {
    use dialect::Nv;
    use part::Part;
    use refusal::Refusal;
    use replay::Bench;
    use runfile::{FileFault, Layer, Reader, RecordFault, Spot};
    use shadowed::Shadowed;
    use std::test::Fail;

    // Two pairs; the second record starts where the first does.
    const OVERLAP: [u8; 11] = [0, 2, 0, 10, 0, 1, 0, 10, 0, 1, b'P'];

    // Two records with a gap before, between and behind them: P at 11, K 4 at 13.
    const GAPS: [u8; 16] = [0, 2, 0, 11, 0, 1, 0, 13, 0, 2, 9, b'P', 9, b'K', 4, 9];

    #[test]
    fn fault_of_the_table_names_its_pair(rt: HostRuntime) -> Result<(), Fail> {
        let fault = Reader::open(&OVERLAP).err().ok_or("it opened")?;
        assert_eq!(rt; fault.number(), 32);
        assert_eq!(rt; fault.layer, Layer::File);
        assert_eq!(rt; fault.spot.number, 1);
        assert_eq!(rt; fault.spot.place, 6);
        Ok(())
    }

    #[test]
    fn records_are_found_between_gaps(rt: HostRuntime) -> Result<(), Fail> {
        let mut records = Reader::open(&GAPS)?;
        let first = records.next().ok_or("no first record")?;
        assert_eq!(rt; first.spot.place, 11);
        assert!(rt; first.bytes == b"P".as_slice());
        let second = records.next().ok_or("no second record")?;
        assert_eq!(rt; second.spot.number, 1);
        assert_eq!(rt; second.spot.place, 13);
        assert!(rt; second.bytes == b"K\x04".as_slice());
        assert!(rt; records.next().is_none());
        Ok(())
    }

    #[test]
    fn reader_begins_a_chain(rt: HostRuntime) -> Result<(), Fail> {
        let longest = Reader::open(&GAPS)?.map(|found| found.bytes.len()).max();
        assert_eq!(rt; longest, Some(2));
        Ok(())
    }

    #[test]
    fn refusal_keeps_its_number_on_the_way_up(rt: HostRuntime) {
        let spot = Spot {
            number: 3,
            place: 28,
        };
        let fault = FileFault::from((spot, RecordFault::from(Refusal::Protected)));
        assert_eq!(rt; fault.number(), 14);
        assert_eq!(rt; fault.layer, Layer::Part);
        assert_eq!(rt; fault.spot.number, 3);
        assert_eq!(rt; fault.spot.place, 28);
    }

    // The part is off: the ticks stop at the first, and nothing is driven. Then a wrong record, a power-up and four ticks.
    #[test]
    fn bench_goes_on_past_faults(rt: HostRuntime) -> Result<(), Fail> {
        let mut memory = [0xFF; 512];
        let mut bench = Bench::new(Part::new(Nv, Shadowed::over(&mut memory)), rt.alloc());
        let off = bench.run(b"K\x04");
        let wrong = bench.run(b"K");
        let up = bench.run(b"P");
        let woken = bench.run(b"K\x03");
        let _ = bench.into_part().into_cells();
        assert_eq!(rt; off?, Err(RecordFault::Refused(Refusal::PowerOff)));
        assert_eq!(rt; wrong?, Err(RecordFault::WrongArgument));
        assert_eq!(rt; up?, Ok(0));
        assert_eq!(rt; woken?, Ok(1));
        Ok(())
    }
}
