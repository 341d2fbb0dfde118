//! The numbers that a store is formatted with, and which block of the disk is for what.

ghost use Rattle.std.specs.Prelude.{◌≡◌, ◌+◌, ◌<◌, ◌≤◌, ◌↔◌, false, IsTrue};
ghost use Rattle.sd_base.specs.Shape.{IsShape, anchor_place, disk_need, first_image, first_page, page_count, ring_place, vault_need};
ghost use Rattle.sd_base.specs.Places.{map_of_data, map_of_group, map_of_key, map_of_page, page_of_place, place_of_page};

use crate::device::{BlockNo, NodeId};
use crate::names::{GroupNo, Key, PageNo};

/// How many data pages have their entries in a map page.
const PAGES_PER_MAP: u32 = 252;

/// The numbers that a store is formatted with.
#[derive(Clone, Copy, Debug, PartialEq, Eq)]
pub struct Shape {
    /// The number of nodes, from 1 to 8.
    pub nodes: u8,
    /// The number of blocks in the ring of a node's log, from 4 to 4,096.
    pub ring: u32,
    /// The number of map pages, from 1 to 256. Each maps 252 data pages.
    pub maps: u32,
    /// The number of log blocks that the vault keeps of a node, from 1 to 65,536.
    pub keep: u32,
    /// The identifier that each page is born with, at most 2^63.
    pub birth: u64,
}

impl Shape {
    /// Whether each number is in its range.
    pub fn is_valid(&self) -> bool
        ensures { IsTrue result ↔ IsShape self.now }
    {
        (1..=8).contains(&self.nodes)
            && (4..=4096).contains(&self.ring)
            && (1..=256).contains(&self.maps)
            && (1..=65536).contains(&self.keep)
            && self.birth <= 1 << 63
    }

    /// The number of pages: each map page, and its data pages.
    pub fn page_count(&self) -> u32
        requires { IsShape self.now }
        ensures { result ≡ page_count self.now }
    {
        (1 + PAGES_PER_MAP) * self.maps
    }

    /// How many blocks the disk needs.
    pub fn disk_need(&self) -> u64
        requires { IsShape self.now }
        ensures { result ≡ disk_need self.now }
    {
        u64::from(self.first_page() + self.page_count())
    }

    /// How many blocks the vault needs.
    pub fn vault_need(&self) -> u32
        requires { IsShape self.now }
        ensures { result ≡ vault_need self.now }
    {
        self.first_image() + self.page_count()
    }

    /// The block of a page on the disk.
    pub fn page_block(&self, x: PageNo) -> BlockNo
        requires valid { IsShape self.now }
        requires page { x.0 < page_count self.now }
        ensures { result.0 ≡ first_page self.now + x.0 }
    {
        BlockNo(self.first_page() + x.0)
    }

    /// The block of the vault for the image of a page.
    pub fn image_block(&self, x: PageNo) -> BlockNo
        requires valid { IsShape self.now }
        requires page { x.0 < page_count self.now }
        ensures { result.0 ≡ first_image self.now + x.0 }
    {
        BlockNo(self.first_image() + x.0)
    }

    /// The map page that may have an entry for a group.
    pub fn map_of_group(&self, group: GroupNo) -> PageNo
        requires { IsShape self.now }
        ensures at { result.0 ≡ map_of_group self.now group }
        ensures low { result.0 < self.now.maps }
    {
        PageNo(group.0 % self.maps)
    }

    /// The map page that may have an entry for the group of a key.
    pub fn map_of_key(&self, key: Key) -> PageNo
        requires { IsShape self.now }
        ensures at { result.0 ≡ map_of_key self.now key.0 }
        ensures low { result.0 < self.now.maps }
    {
        self.map_of_group(key.group())
    }

    /// The map page that has the entry of a data page.
    pub fn map_of_data(&self, x: PageNo) -> PageNo
        requires valid { IsShape self.now }
        requires data { self.now.maps ≤ x.0 }
        requires page { x.0 < page_count self.now }
        ensures at { result ≡ map_of_data self.now x }
        ensures low { result.0 < self.now.maps }
    {
        PageNo((x.0 - self.maps) / PAGES_PER_MAP)
    }

    /// The map page of any page of the store: of a map page, the page itself.
    pub fn map_of_page(&self, x: PageNo) -> PageNo
        requires valid { IsShape self.now }
        requires page { x.0 < page_count self.now }
        ensures at { result ≡ map_of_page self.now x }
        ensures low { result.0 < self.now.maps }
    {
        if x.0 < self.maps {
            x
        } else {
            self.map_of_data(x)
        }
    }

    /// The place of the entry of a data page in its map page.
    pub fn place_of_page(&self, x: PageNo) -> u8
        requires valid { IsShape self.now }
        requires data { self.now.maps ≤ x.0 }
        requires page { x.0 < page_count self.now }
        ensures at { result ≡ place_of_page self.now x }
        ensures high { result ≤ 251 }
    {
        ((x.0 - self.maps) % PAGES_PER_MAP) as u8
    }

    /// The data page of a place of a map page, for a place from 0 to 251.
    pub fn data_page(&self, map: PageNo, place: u8) -> PageNo
        requires valid { IsShape self.now }
        requires map { map.0 < self.now.maps }
        requires place { place ≤ 251 }
        ensures at { result.0 ≡ page_of_place self.now map.0 place }
        ensures low { self.now.maps ≤ result.0 }
        ensures high { result.0 < page_count self.now }
    {
        PageNo(self.maps + PAGES_PER_MAP * map.0 + u32::from(place))
    }

    /// The block of a node's anchor, on the vault or on the disk, for a node from 1 to `nodes`.
    pub fn anchor_block(&self, vault: bool, n: NodeId) -> BlockNo
        requires valid { IsShape self.now }
        requires node { (1 ≤ n.0) × (n.0 ≤ self.now.nodes) }
        ensures { result.0 ≡ anchor_place vault self.now n.0 }
    {
        if vault {
            BlockNo(u32::from(n.0))
        } else {
            BlockNo(self.disk_anchor(n))
        }
    }

    /// The block of the disk for the log block of a node with this number, for a node from 1 to
    /// `nodes`. Numbers that leave the same rest by `ring` share a block.
    pub fn ring_block(&self, n: NodeId, number: u64) -> BlockNo
        requires valid { IsShape self.now }
        requires node { (1 ≤ n.0) × (n.0 ≤ self.now.nodes) }
        ensures { result.0 ≡ ring_place self.now n.0 number }
    {
        let place = (number % u64::from(self.ring)) as u32;
        BlockNo(self.disk_anchor(n) + 1 + place)
    }

    fn disk_anchor(&self, n: NodeId) -> u32
        requires valid { IsShape self.now }
        requires node { (1 ≤ n.0) × (n.0 ≤ self.now.nodes) }
        ensures at { result ≡ anchor_place false self.now n.0 }
        ensures low { result + self.now.ring < 32777 }
    {
        1 + u32::from(n.0 - 1) * (self.ring + 1)
    }

    fn first_page(&self) -> u32
        requires { IsShape self.now }
        ensures at { result ≡ first_page self.now }
        ensures low { result ≤ 32777 }
    {
        1 + u32::from(self.nodes) * (self.ring + 1)
    }

    fn first_image(&self) -> u32
        requires { IsShape self.now }
        ensures at { result ≡ first_image self.now }
        ensures low { result ≤ 524297 }
    {
        let nodes = u32::from(self.nodes);
        1 + nodes + nodes * self.keep
    }
}
