//! Scripts over devices of other sizes than the program's, with lost and damaged blocks, and with a store on them.
use crate::MisreadDisk;
use crate::trial::{expect, unarmed};
use disk_model::Fused;
use page_image::write_birth;
use sd_base::{Block, BlockNo, PageNo, Shape, write_super};
use std::test::Fail;

const FORMAT: &str = "format 1 8 1 8 0\n";

const TWO_NODES: Shape = Shape {
    nodes: 2,
    ring: 8,
    maps: 1,
    keep: 8,
    birth: 0,
};

#[test]
fn what_a_format_answers(rt: HostRuntime) -> Result<(), Fail> {
    let mut super_of_two: Block = [0; 4096];
    write_super(&TWO_NODES, false, &mut super_of_two);
    let mut of_the_vault: Block = [0; 4096];
    write_super(&TWO_NODES, true, &mut of_the_vault);
    let mut nine_nodes = super_of_two;
    nine_nodes[15] = 9;
    let blank = Some([0; 4096]);
    for (disk, vault, content, format, reply) in [
        (0, 0, blank, FORMAT, "small disk 263 0\n"),
        (10, 263, blank, FORMAT, "small disk 263 10\n"),
        (262, 262, blank, FORMAT, "small disk 263 262\n"),
        (263, 262, blank, FORMAT, "small vault 263 262\n"),
        (263, 0, blank, FORMAT, "small vault 263 0\n"),
        (263, 263, blank, FORMAT, "ok\n"),
        // 1 + (1 + 9) + 253 * 2 blocks, and 1 + 1 + 7 + 253 * 2.
        (
            516,
            515,
            blank,
            "format 1 9 2 7 1\n",
            "small disk 517 516\n",
        ),
        (
            517,
            514,
            blank,
            "format 1 9 2 7 1\n",
            "small vault 515 514\n",
        ),
        (517, 515, blank, "format 1 9 2 7 1\n", "ok\n"),
        // A super of other numbers is one too, also on a disk that is too small; a lost block 0 is none.
        (263, 263, Some(super_of_two), FORMAT, "formatted\n"),
        (10, 263, Some(super_of_two), FORMAT, "formatted\n"),
        (263, 263, Some(of_the_vault), FORMAT, "ok\n"),
        (263, 263, Some(nine_nodes), FORMAT, "ok\n"),
        (263, 263, None, FORMAT, "ok\n"),
        (10, 263, None, FORMAT, "small disk 263 10\n"),
    ] {
        let disk = MisreadDisk::new(rt.alloc(), disk, BlockNo(0), content)?;
        let mut disk = Fused::new(disk);
        let mut vault = unarmed(rt.alloc(), vault)?;
        expect(&rt, &mut disk, &mut vault, format, reply)?;
    }
    Ok(())
}

#[test]
fn a_store_that_an_earlier_run_has_left(rt: HostRuntime) -> Result<(), Fail> {
    // No command opens it yet.
    let mut disk = unarmed(rt.alloc(), 263)?;
    let mut vault = unarmed(rt.alloc(), 263)?;
    let refused = "format 1 8 1 8 0\nget 1.0 5\ndump 1\nformat 1 8 1 8 0\n";
    for (script, transcript) in [
        (
            "format 1 8 1 8 0\nstart 1\nbegin 1.0\nput 1.0 5 a\ncommit 1.0\n",
            "ok\nok\nok\nok\nok\n",
        ),
        (refused, "formatted\nclosed\nclosed\nformatted\n"),
        (refused, "formatted\nclosed\nclosed\nformatted\n"),
    ] {
        expect(&rt, &mut disk, &mut vault, script, transcript)?;
    }
    Ok(())
}

const PUT: &str = "format 1 8 1 8 0\nstart 1\nbegin 1.0\nget 1.0 5\nput 1.0 5 a\n";

const PUT_AT_LIMIT: &str = "format 1 8 1 8 9223372036854775808\nstart 1\nbegin 1.0\nput 1.0 5 a\n";

const DUMP: &str =
    "format 1 8 2 8 0\nstart 1\nbegin 1.0\nput 1.0 5 a\ncommit 1.0\ndump 1\nbegin 1.0\nget 1.0 5\n";

#[test]
fn blocks_that_are_not_what_they_should_be(rt: HostRuntime) -> Result<(), Fail> {
    let mut full: Block = [0; 4096];
    write_birth(PageNo(1), 1 << 63, &mut full);
    let mut nearly_full: Block = [0; 4096];
    write_birth(PageNo(1), (1 << 63) - 1, &mut nearly_full);
    let mut another: Block = [0; 4096];
    write_birth(PageNo(2), 0, &mut another);
    let noise = Some([0xff; 4096]);
    let no_log = "ok\ndamaged disk 1\nnotup 1\nnotup 1\nnotup 1\n";
    for (script, at, content, transcript) in [
        // The anchor is block 1, the map page is in block 10, and the first data page in block 11.
        (PUT, 1, noise, no_log),
        (PUT, 1, None, no_log),
        (
            PUT,
            2,
            noise,
            "ok\ndamaged disk 2\nnotup 1\nnotup 1\nnotup 1\n",
        ),
        (
            PUT,
            10,
            noise,
            "ok\nok\nok\ndamaged disk 10\ndamaged disk 10\n",
        ),
        (PUT, 10, None, "ok\nok\nok\nlost 0\nlost 0\n"),
        (PUT, 11, noise, "ok\nok\nok\nabsent\ndamaged disk 11\n"),
        (
            PUT,
            11,
            Some(another),
            "ok\nok\nok\nabsent\ndamaged disk 11\n",
        ),
        (PUT, 11, None, "ok\nok\nok\nabsent\nlost 1\n"),
        (PUT, 11, Some(full), "ok\nok\nok\nabsent\nlimit 1\n"),
        (PUT, 11, Some(nearly_full), "ok\nok\nok\nabsent\nok\n"),
        // Of two map pages the second one, in block 11, isn't read before the dump. All map pages are taken
        // before the first row.
        (
            DUMP,
            11,
            noise,
            "ok\nok\nok\nok\nok\ndamaged disk 11\nok\nvalue a\n",
        ),
        (DUMP, 11, None, "ok\nok\nok\nok\nok\nlost 1\nok\nvalue a\n"),
        // A map page at its limit: the page that the group would get is read before that is tested.
        (PUT_AT_LIMIT, 11, noise, "ok\nok\nok\ndamaged disk 11\n"),
        (PUT_AT_LIMIT, 11, None, "ok\nok\nok\nlost 1\n"),
    ] {
        let disk = MisreadDisk::new(rt.alloc(), 516, BlockNo(at), content)?;
        let mut disk = Fused::new(disk);
        let mut vault = unarmed(rt.alloc(), 516)?;
        expect(&rt, &mut disk, &mut vault, script, transcript)?;
    }
    Ok(())
}
