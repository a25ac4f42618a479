// Scenes with the two cell arrays, as tests: what the watch does, what the battery does, what the runner finds.
#![tactic(auto)]

#[cfg(test)]
mod tests {
    use cells::{Cells, outlast_fade, size_for};
    use lasting::Lasting;
    use refusal::Refusal;
    use shadowed::Shadowed;
    use std::test::Fail;

    // 256 is 2 to the power 8, and 131,072 is 2 to the power 17. 320 is five pages.
    #[test]
    fn only_powers_of_two_are_sizes(rt: HostRuntime) {
        assert_eq!(rt; size_for(128), 0);
        assert_eq!(rt; size_for(256), 256);
        assert_eq!(rt; size_for(320), 0);
        assert_eq!(rt; size_for(131_072), 131_072);
        assert_eq!(rt; size_for(262_144), 0);
    }

    // Half of 256 bytes is no size, so that every address and every page lies past the end.
    #[test]
    fn too_short_a_buffer_takes_nothing(rt: HostRuntime) {
        let mut memory = [0; 256];
        let mut cells = Shadowed::over(&mut memory);
        assert_eq!(rt; cells.size(), 0);
        assert_eq!(rt; cells.put(0, 0x5A), Err(Refusal::AddressPastEnd));
        assert_eq!(rt; cells.keep(0), Err(Refusal::PagePastEnd));
    }

    // A lap is written and kept, the next is only written, and the battery gives out. The runner finds the first.
    #[test]
    fn the_kept_lap_is_found_again(rt: HostRuntime) -> Result<(), Fail> {
        let mut memory = [0; 512];
        let mut cells = Shadowed::over(&mut memory);
        cells.put(16, 0x5A)?;
        cells.keep(0)?;
        cells.put(17, 0x22)?;
        cells.fade();
        assert_eq!(rt; cells.get(16), Ok(0xFF));
        cells.recall(0)?;
        assert_eq!(rt; cells.get(16), Ok(0x5A));
        assert_eq!(rt; cells.get(17), Ok(0));
        Ok(())
    }

    // Lasting cells need no keep: both laps are found.
    #[test]
    fn lasting_cells_find_both_laps(rt: HostRuntime) -> Result<(), Fail> {
        let mut memory = [0; 256];
        let mut cells = Lasting::over(&mut memory);
        cells.put(16, 0x5A)?;
        cells.put(17, 0x22)?;
        cells.fade();
        assert_eq!(rt; cells.get(16), Ok(0x5A));
        assert_eq!(rt; cells.get(17), Ok(0x22));
        assert_eq!(rt; cells.recall(4), Err(Refusal::PagePastEnd));
        Ok(())
    }

    // A kept page outlasts the fade, and the lap in the page beside it does not: the fade really came.
    #[test]
    fn only_the_kept_page_outlasts_the_fade(rt: HostRuntime) -> Result<(), Fail> {
        let mut memory = [0; 512];
        let mut cells = Shadowed::over(&mut memory);
        cells.put(16, 0x5A)?;
        cells.put(80, 0x22)?;
        outlast_fade(&mut cells, 0)?;
        assert_eq!(rt; cells.get(16), Ok(0x5A));
        assert_eq!(rt; cells.get(80), Ok(0xFF));
        Ok(())
    }
}
