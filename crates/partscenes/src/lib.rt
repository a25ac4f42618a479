// Scenes with the four pairings of a dialect and a cell array, as tests: a lap is written, the battery gives out, the watch
// wakes and reads back what it finds.
#![tactic(auto)]

#[cfg(test)]
mod tests {
    use cells::Cells;
    use dialect::{Dialect, Mr, Nv};
    use lasting::Lasting;
    use part::{Part, send};
    use refusal::Refusal;
    use rules::Call;
    use shadowed::Shadowed;

    // 256 bytes are four pages, each of which wakes in one tick.
    const WAKING: [Call; 5] = [
        Call::PowerUp,
        Call::Tick,
        Call::Tick,
        Call::Tick,
        Call::Tick,
    ];

    // Enable (06), write (02) the lap 5A at address 90h, store (3C). In dialect nv an address has two bytes. The address is
    // 144, which lies in page 2.
    const NV_SESSION: [Call; 16] = [
        Call::Select,
        send!(0x06),
        Call::Release { clocks: 0 },
        Call::Select,
        send!(0x02),
        send!(0x00),
        send!(0x90),
        send!(0x5A),
        Call::Release { clocks: 0 },
        Call::Select,
        send!(0x3C),
        Call::Release { clocks: 0 },
        Call::Tick,
        Call::Tick,
        Call::Tick,
        Call::Tick,
    ];

    // Enable, and write status (01) with bit 6 set (40), which turns PowerStore off.
    const NV_POWER_STORE_OFF: [Call; 7] = [
        Call::Select,
        send!(0x06),
        Call::Release { clocks: 0 },
        Call::Select,
        send!(0x01),
        send!(0x40),
        Call::Release { clocks: 0 },
    ];

    // Enable and write, as above. In dialect mr an address has three bytes, and there is no store.
    const MR_SESSION: [Call; 10] = [
        Call::Select,
        send!(0x06),
        Call::Release { clocks: 0 },
        Call::Select,
        send!(0x02),
        send!(0x00),
        send!(0x00),
        send!(0x90),
        send!(0x5A),
        Call::Release { clocks: 0 },
    ];

    // A dialect, and the calls by which it reads the lap: the next byte drives it.
    trait Reads: Dialect + Drop {
        const READ: &'static [Call];
    }

    impl Reads for Nv {
        const READ: &'static [Call] = &[Call::Select, send!(0x03), send!(0x00), send!(0x90)];
    }

    impl Reads for Mr {
        const READ: &'static [Call] = &[
            Call::Select,
            send!(0x03),
            send!(0x00),
            send!(0x00),
            send!(0x90),
        ];
    }

    // Each test below goes over its own cases, so that one that fails is told by its test.
    //
    // Wakes a new part and works it through some lists of calls; cuts the power, wakes the part and reads. Answers what the
    // part drives.
    fn found<D: Reads, C: Cells + Drop>(
        dialect: D,
        cells: C,
        lists: &[&[Call]],
        charged: bool,
    ) -> Result<Option<u8>, Refusal> {
        let mut part = Part::new(dialect, cells);
        part.work(&WAKING);
        for calls in lists {
            part.work(calls);
        }
        let _ = part.cut(charged);
        part.work(&WAKING);
        part.work(D::READ);
        let driven = part.byte(0, false);
        let _ = part.into_cells();
        driven
    }

    // The first 9 calls write the lap, and it is not stored: without charge it is lost, and the byte is FF as it was. With
    // charge PowerStore keeps it. After 8 calls the write is not yet released: nothing is placed, and nothing to keep.
    #[test]
    fn nv_above_shadowed_keeps_a_written_lap_only_with_charge(rt: HostRuntime) {
        let cases = [
            (&NV_SESSION[..9], false, 0xFF),
            (&NV_SESSION[..9], true, 0x5A),
            (&NV_SESSION[..8], true, 0xFF),
        ];
        for (calls, charged, byte) in cases {
            let mut memory = [0xFF; 512];
            let found = found(Nv, Shadowed::over(&mut memory), &[calls], charged);
            assert_eq!(rt; found, Ok(Some(byte)));
        }
    }

    // 12 calls begin the store. The ticks keep page 0, 1, 2 and 3 in turn, so that the third keeps the lap.
    #[test]
    fn nv_above_shadowed_keeps_the_lap_at_its_page(rt: HostRuntime) {
        let cases = [
            (&NV_SESSION[..12], false, 0xFF),
            (&NV_SESSION[..13], false, 0xFF),
            (&NV_SESSION[..14], false, 0xFF),
            (&NV_SESSION[..15], false, 0x5A),
            (&NV_SESSION[..], false, 0x5A),
        ];
        for (calls, charged, byte) in cases {
            let mut memory = [0xFF; 512];
            let found = found(Nv, Shadowed::over(&mut memory), &[calls], charged);
            assert_eq!(rt; found, Ok(Some(byte)));
        }
    }

    // With charge a store that has begun is finished, after any of its ticks.
    #[test]
    fn nv_above_shadowed_finishes_its_store_with_charge(rt: HostRuntime) {
        let cases = [
            (&NV_SESSION[..12], true, 0x5A),
            (&NV_SESSION[..13], true, 0x5A),
            (&NV_SESSION[..14], true, 0x5A),
            (&NV_SESSION[..15], true, 0x5A),
        ];
        for (calls, charged, byte) in cases {
            let mut memory = [0xFF; 512];
            let found = found(Nv, Shadowed::over(&mut memory), &[calls], charged);
            assert_eq!(rt; found, Ok(Some(byte)));
        }
    }

    // With PowerStore off the charge does not keep a lap that is only written; a store that has begun is finished.
    #[test]
    fn nv_above_shadowed_heeds_power_store(rt: HostRuntime) {
        let cases = [
            (&NV_SESSION[..9], true, 0xFF),
            (&NV_SESSION[..12], true, 0x5A),
        ];
        for (calls, charged, byte) in cases {
            let mut memory = [0xFF; 512];
            let found = found(
                Nv,
                Shadowed::over(&mut memory),
                &[&NV_POWER_STORE_OFF, calls],
                charged,
            );
            assert_eq!(rt; found, Ok(Some(byte)));
        }
    }

    // A lasting array keeps the lap as it is placed, and nv places it on release, the 9th call.
    #[test]
    fn nv_above_lasting_keeps_the_lap_on_release(rt: HostRuntime) {
        let cases = [
            (&NV_SESSION[..8], false, 0xFF),
            (&NV_SESSION[..9], false, 0x5A),
            (&NV_SESSION[..9], true, 0x5A),
        ];
        for (calls, charged, byte) in cases {
            let mut memory = [0xFF; 256];
            let found = found(Nv, Lasting::over(&mut memory), &[calls], charged);
            assert_eq!(rt; found, Ok(Some(byte)));
        }
    }

    // Dialect mr places each byte as it arrives: the lap is the 9th call, and the release behind it is not needed.
    #[test]
    fn mr_above_lasting_keeps_the_lap_at_once(rt: HostRuntime) {
        let cases = [
            (&MR_SESSION[..8], false, 0xFF),
            (&MR_SESSION[..9], false, 0x5A),
            (&MR_SESSION[..], true, 0x5A),
        ];
        for (calls, charged, byte) in cases {
            let mut memory = [0xFF; 256];
            let found = found(Mr, Lasting::over(&mut memory), &[calls], charged);
            assert_eq!(rt; found, Ok(Some(byte)));
        }
    }

    // A shadowed array keeps nothing by itself, and mr has no store; but its PowerStore is always on.
    #[test]
    fn mr_above_shadowed_keeps_the_lap_only_with_charge(rt: HostRuntime) {
        let cases = [
            (&MR_SESSION[..], false, 0xFF),
            (&MR_SESSION[..], true, 0x5A),
            (&MR_SESSION[..9], true, 0x5A),
        ];
        for (calls, charged, byte) in cases {
            let mut memory = [0xFF; 512];
            let found = found(Mr, Shadowed::over(&mut memory), &[calls], charged);
            assert_eq!(rt; found, Ok(Some(byte)));
        }
    }

    // Buffers of 128 bytes hold no array: the part is dead, and its last byte is refused as all else was.
    #[test]
    fn a_dead_part_refuses(rt: HostRuntime) {
        let mut memory = [0xFF; 128];
        let found = found(Mr, Lasting::over(&mut memory), &[&MR_SESSION], true);
        assert_eq!(rt; found, Err(Refusal::Dead));
    }

    // The constants of a dialect are its chip's. The laws tie them to the facts of specs/; here they are told once more.
    #[test]
    fn constants_are_those_of_the_chips(rt: HostRuntime) {
        assert_eq!(rt; Nv::ADDRESS_BYTES, 2);
        assert_eq!(rt; Nv::LARGEST, 32_768);
        assert_eq!(rt; Mr::ADDRESS_BYTES, 3);
        assert_eq!(rt; Mr::LARGEST, 131_072);
    }
}
