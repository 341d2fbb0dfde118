//! The texts of supers and anchors.
use crate::texts::{is_zero_from, stands};
use sd_base::{MAX_ANCHOR, NodeId, Shape, parse_anchor, parse_super, write_anchor, write_super};

#[test]
fn supers_have_their_texts(rt: HostRuntime) {
    let shape = Shape {
        nodes: 2,
        ring: 8,
        maps: 1,
        keep: 8,
        birth: 0,
    };
    for (vault, magic) in [(false, b"SDSTORE1"), (true, b"SDVAULT1")] {
        let mut block = [7; 4096];
        write_super(&shape, vault, &mut block);
        assert!(rt; stands(&block, 0, magic));
        assert!(rt;
            stands(
                &block,
                8,
                b"\0\0\0\x01\0\0\0\x02\0\0\0\x08\0\0\0\x01\0\0\0\x08"
            )
        );
        assert!(rt; is_zero_from(&block, 28));
        let read = [parse_super(&block, vault), parse_super(&block, !vault)];
        assert_eq!(rt; read, [Some(shape), None]);
    }
}

#[test]
fn anchors_have_their_texts(rt: HostRuntime) {
    for (vault, magic) in [(false, b"SDANCHOR"), (true, b"SDVANCHR")] {
        let mut block = [7; 4096];
        write_anchor(NodeId(3), vault, 0x01_2345_6789_abcd, &mut block);
        assert!(rt; stands(&block, 0, magic));
        assert!(rt;
            stands(
                &block,
                8,
                b"\x03\0\0\0\0\0\0\0\0\x01\x23\x45\x67\x89\xab\xcd"
            )
        );
        assert!(rt; is_zero_from(&block, 24));
        let read = [
            parse_anchor(&block, vault, NodeId(3)),
            parse_anchor(&block, !vault, NodeId(3)),
        ];
        assert_eq!(rt; read, [Some(0x01_2345_6789_abcd), None]);
    }
}

#[test]
fn the_greatest_number_of_an_anchor(rt: HostRuntime) {
    let mut block = [7; 4096];
    write_anchor(NodeId(1), false, MAX_ANCHOR, &mut block);
    assert!(rt; stands(&block, 16, b"\x01\0\0\0\0\0\0\0"));
    assert_eq!(rt; parse_anchor(&block, false, NodeId(1)), Some(MAX_ANCHOR));
    block[23] = 1;
    assert_eq!(rt; parse_anchor(&block, false, NodeId(1)), None);
}
