//! The texts of data pages.
ghost use Rattle.std.specs.Prelude.{◌≤◌};
ghost use Rattle.page_image.specs.Change.{IsSlotOp, slot_of};

use crate::texts::{is_zero_from, stands};
use page_image::{apply, identifier, parse, slot, write_birth};
use sd_base::{Block, MAX_IDENT, PageNo, PageOp, Value};
use std::process::Abort;
use std::test::Fail;

const PAGE: PageNo = PageNo(5);

// Changes page 5, and compares what stands at a place then.
fn change(rt: &impl Abort, page: &mut Block, op: &PageOp, at: usize, held: &[u8])
    requires kind { IsSlotOp op.now }
    requires slot { slot_of op.now ≤ 15 }
{
    let view = parse(page, PAGE).expect(rt, "a data page");
    assert!(rt; view.ident < MAX_IDENT);
    apply(page, op);
    assert!(rt; stands(page, at, held), "{op:?}");
}

#[test]
fn pages_have_their_texts(rt: HostRuntime) -> Result<(), Fail> {
    let mut page = [7; 4096];
    write_birth(PAGE, (1 << 63) + (1 << 40) - 3, &mut page);
    let hello = Value::from_slice(b"hello").ok_or("too long")?;
    // Slot 5 begins at 64 + 252 * 5.
    let put = PageOp::Put {
        slot: 5,
        after: Some(hello),
    };
    change(&rt, &mut page, &put, 1324, b"\x01\x05\0\0hello\0");
    let append = PageOp::Append {
        slot: 5,
        bytes: hello,
    };
    change(&rt, &mut page, &append, 1324, b"\x01\x0a\0\0hellohello\0");
    let cut = PageOp::Cut {
        slot: 5,
        present: true,
        len: 4,
    };
    change(
        &rt,
        &mut page,
        &cut,
        1324,
        b"\x01\x04\0\0hell\0\0\0\0\0\0\0",
    );
    assert!(rt;
        stands(
            &page,
            0,
            b"SDPAGE01\x02\0\0\0\0\0\0\x05\x80\0\x01\0\0\0\0\0\0"
        )
    );
    assert!(rt; is_zero_from(&page, 1332));
    Ok(())
}

// What is read of slot 15 of page 5, with the identifier.
fn read(page: &Block) -> Option<(u64, Option<Value>)> {
    let view = parse(page, PAGE)?;
    if view.ident != identifier(page) || view.slots[15] != slot(page, 15) {
        return None;
    }
    Some((view.ident, view.slots[15]))
}

#[test]
fn the_longest_value_at_the_last_identifier(rt: HostRuntime) -> Result<(), Fail> {
    let mut page = [0; 4096];
    write_birth(PAGE, (1 << 63) + (1 << 40) - 1, &mut page);
    let longest = Value::from_slice(&[7; 248]).ok_or("too long")?;
    let put = PageOp::Put {
        slot: 15,
        after: Some(longest),
    };
    change(&rt, &mut page, &put, 3844, b"\x01\xf8\0\0\x07");
    assert!(rt; stands(&page, 4094, b"\x07\x07"));
    assert_eq!(rt; read(&page), Some((0x8000_0100_0000_0000, Some(longest))));
    // One identifier higher.
    page[23] = 1;
    assert_eq!(rt; parse(&page, PAGE), None);
    Ok(())
}
