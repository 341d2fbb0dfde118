//! A page in a frame is changed, which takes the token of a log record.

ghost use Rattle.std.specs.Prelude.{◌≡◌, ◌<◌, ◌^◌, ◌+◌, ℕ};
ghost use Rattle.frame_pool.specs.Frames.{IsOut};
ghost use Rattle.state_ids.specs.PageImage.{PageImage, page_of, ident_of, is_map, is_map_op, IsInRange, changed};
ghost use Rattle.state_ids.specs.Held.{Shows, KeepsFrames};

use crate::held::{Clean, Dirty, Held};
use crate::logged::Logged;
use frame_pool::{Frame, Pool};
use page_image::apply;
use sd_base::PageOp;
use space_map::apply_map;

/// Makes a change of the page in a frame.
fn change_frame(pool: &mut Pool, f: &Frame, op: &PageOp)
    requires page { (image : PageImage) × Shows pool.old f.now image × IsInRange (ident_of image) op.now × (is_map image ≡ is_map_op op.now) }
    ensures frames { KeepsFrames f.now pool.old pool.new }
    ensures image { (image : PageImage) → Shows pool.old f.now image → is_map image ≡ is_map_op op.now → Shows pool.new f.now (changed op.now image) }
{
    match op {
        PageOp::MapUse { .. } | PageOp::MapFree { .. } => apply_map(pool.bytes_mut(f), op),
        PageOp::Put { .. } | PageOp::Append { .. } | PageOp::Cut { .. } => {
            apply(pool.bytes_mut(f), op);
        }
    }
}

impl<S: Drop> Held<S> {
    fn change(self, pool: &mut Pool, l: Logged) -> Held<Dirty>
        requires page { l.page ≡ self.ticket.page }
        requires node { l.node ≡ self.ticket.node }
        requires image { (image : PageImage) × Shows pool.old self.frame image × (page_of image ≡ self.ticket.page) × (ident_of image ≡ l.ident) × (is_map image ≡ is_map_op l.op) }
        ensures frame { result.frame ≡ self.frame }
        ensures ticket { result.ticket ≡ self.ticket }
        ensures shape { result.shape ≡ self.shape }
        ensures last { result.last ≡ l.number }
        ensures frames { KeepsFrames self.frame pool.old pool.new }
        ensures image { (image : PageImage) → Shows pool.old self.frame image → is_map image ≡ is_map_op l.op → Shows pool.new self.frame (changed l.op image) }
    {
        let shape = self.shape();
        let (frame, ticket) = self.parts();
        change_frame(pool, &frame, l.op());
        Held::dirty(frame, ticket, shape, l.spent())
    }
}

impl Held<Clean> {
    /// Makes the change of a log record. The record stands in the log of the page's node, it names this
    /// page and its present identifier, and its change is one of an entry exactly where this is a map
    /// page.
    pub fn apply(self, pool: &mut Pool, l: Logged) -> Held<Dirty>
        requires page { l.page ≡ self.ticket.page }
        requires node { l.node ≡ self.ticket.node }
        requires image { (image : PageImage) × Shows pool.old self.frame image × (page_of image ≡ self.ticket.page) × (ident_of image ≡ l.ident) × (is_map image ≡ is_map_op l.op) }
        ensures frame { result.frame ≡ self.frame }
        ensures ticket { result.ticket ≡ self.ticket }
        ensures shape { result.shape ≡ self.shape }
        ensures last { result.last ≡ l.number }
        ensures frames { KeepsFrames self.frame pool.old pool.new }
        ensures image { (image : PageImage) → Shows pool.old self.frame image → is_map image ≡ is_map_op l.op → Shows pool.new self.frame (changed l.op image) }
    {
        self.change(pool, l)
    }
}

impl Held<Dirty> {
    /// Makes the change of a further log record, as the change of a page that had none.
    pub fn apply(self, pool: &mut Pool, l: Logged) -> Held<Dirty>
        requires page { l.page ≡ self.ticket.page }
        requires node { l.node ≡ self.ticket.node }
        requires image { (image : PageImage) × Shows pool.old self.frame image × (page_of image ≡ self.ticket.page) × (ident_of image ≡ l.ident) × (is_map image ≡ is_map_op l.op) }
        ensures frame { result.frame ≡ self.frame }
        ensures ticket { result.ticket ≡ self.ticket }
        ensures shape { result.shape ≡ self.shape }
        ensures last { result.last ≡ l.number }
        ensures frames { KeepsFrames self.frame pool.old pool.new }
        ensures image { (image : PageImage) → Shows pool.old self.frame image → is_map image ≡ is_map_op l.op → Shows pool.new self.frame (changed l.op image) }
    {
        self.change(pool, l)
    }
}
