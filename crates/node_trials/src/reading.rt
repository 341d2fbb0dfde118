//! What a cached page and the log on the device hold, compared with what a test expects.

ghost use Rattle.std.specs.Prelude.{◌≡◌, true};
ghost use Rattle.node_trials.specs.Bench.{IsReady, IsWhole};

use crate::bench::Bench;
use crate::records::{PAGE, text};
use crate::store::{NODE, SHAPE};
use log_record::{LogRecord, decode};
use page_image::{PageView, parse};
use private_log::Log;
use sd_base::{DevFault, Disk};
use std::process::Abort;

/// A slot that is present, and what it holds.
pub(crate) type Held = (usize, &'static [u8]);

/// Compares the page as it is in the cache: its identifier, and the slots that are present.
pub(crate) fn check_page<D: Disk>(rt: &impl Abort, bench: &Bench<D>, ident: u64, held: &[Held])
    requires { IsReady SHAPE D.told (D.state bench.now.disk) bench.now.pool bench.now.owners bench.now.cache }
{
    let mut slots = [None; 16];
    for (place, bytes) in held {
        assert!(rt; *place < 16);
        slots[*place] = Some(text(rt, bytes));
    }
    let image = PageView {
        page: PAGE,
        ident,
        slots,
    };
    assert_eq!(rt; parse(bench.view(rt, PAGE), PAGE), Some(image));
}

/// Starts the node's port, attaches its log again, and compares the records: these are all.
pub(crate) fn check_log<D: Disk>(
    rt: &impl Abort,
    disk: &mut D,
    records: &[LogRecord],
) -> Result<(), DevFault>
    requires whole { IsWhole SHAPE (D.state disk.old) }
{
    disk.start(NODE);
    let log = Log::attach(disk, &SHAPE, NODE, NODE)?;
    assert_eq!(rt; log.start(), 0);
    assert_eq!(rt; log.tail(), records.len() as u64);
    let mut text = [0; 672];
    for (number, rec) in records.iter().enumerate() {
        log.read(disk, NODE, number as u64, &mut text)?;
        assert_eq!(rt; decode(&text), Some(*rec), "record {number}");
    }
    Ok(())
}
