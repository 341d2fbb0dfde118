//! Where the pages, the groups and the blocks of a store stand.
use sd_base::{BlockNo, GroupNo, Key, PageNo, Shape};

#[test]
fn pages_and_their_places(rt: HostRuntime) {
    let shape = Shape {
        nodes: 2,
        ring: 8,
        maps: 3,
        keep: 8,
        birth: 0,
    };
    let key = Key(16 * 7 + 5);
    assert_eq!(rt; key.group(), GroupNo(7));
    assert_eq!(rt; key.slot(), 5);
    assert_eq!(rt; key.group().first_key(), 16 * 7);
    assert_eq!(rt; shape.map_of_group(GroupNo(7)), PageNo(1));
    assert_eq!(rt; shape.map_of_key(key), PageNo(1));
    assert_eq!(rt; shape.page_count(), 3 + 3 * 252);
    // Of each map page the first place and the last one.
    for (map, place, page) in [(0, 0, 3), (0, 251, 254), (1, 0, 255), (2, 251, 758)] {
        let x = shape.data_page(PageNo(map), place);
        assert_eq!(rt; x, PageNo(page));
        assert_eq!(rt; shape.map_of_data(x), PageNo(map));
        assert_eq!(rt; shape.map_of_page(x), PageNo(map));
        assert_eq!(rt; shape.place_of_page(x), place);
    }
    assert_eq!(rt; shape.map_of_page(PageNo(2)), PageNo(2));
    // Page 0 is behind the super, and of each node its anchor, and its ring or the blocks that are kept.
    assert_eq!(rt; shape.page_block(PageNo(3)), BlockNo(1 + 2 * 9 + 3));
    assert_eq!(rt; shape.image_block(PageNo(3)), BlockNo(1 + 2 + 2 * 8 + 3));
    assert_eq!(rt; shape.disk_need(), 1 + 2 * 9 + 759);
    assert_eq!(rt; shape.vault_need(), 1 + 2 + 2 * 8 + 759);
}
