// Values worked out by hand, as one table with one proof: specs/Worked.antt. The tests ask the code for the dialects' rows.
#![tactic(auto)]

ghost use Rattle.worked.specs.Worked.{WorkedValues};

// Each worked value is what the definitions say.
pub fn worked_values_hold()
    ensures { WorkedValues }
{}

#[cfg(test)]
mod tests {
    use dialect::{Dialect, Mr, Nv};

    #[test]
    fn ranges_and_status(rt: HostRuntime) {
        assert_eq!(rt; Mr::protected(0x14, 131_072), (98_304, 131_072));
        assert_eq!(rt; Mr::protected(0x34, 131_072), (0, 32_768));
        assert_eq!(rt; status::update::<Nv>(0xFF), 0x6C);
        assert_eq!(rt; status::update::<Mr>(0xFF), 0xBC);
        // 04h, 10h for the fail mark, idle with the latch clear
        assert_eq!(rt; status::assemble::<Nv>(0x04, true, false, true), 0x14);
    }

    #[test]
    fn alive_and_dead(rt: HostRuntime) {
        assert!(rt; !Nv::is_alive(128));
        assert!(rt; Nv::is_alive(256));
        assert!(rt; !Nv::is_alive(300));
        assert!(rt; Nv::is_alive(32_768));
        assert!(rt; !Nv::is_alive(65_536));
    }
}
