//! Pages that pass from owner to owner.
use page_owner::{Own, Owners};
use sd_base::{NodeId, PageNo};
use std::test::Fail;

const PAGE: PageNo = PageNo(1);

const NODE: NodeId = NodeId(3);

#[test]
fn a_page_passes_from_owner_to_owner(rt: HostRuntime) -> Result<(), Fail> {
    let mut owners = Owners::new(rt.alloc(), 2)?;
    let ticket = owners.grant(PAGE, NODE);
    assert_eq!(rt; (ticket.page(), ticket.node()), (PAGE, NODE));
    assert_eq!(rt; owners.state(PAGE), Own::Out(NODE));
    assert_eq!(rt; owners.state(PageNo(0)), Own::Nobody);
    owners.park(ticket);
    assert_eq!(rt; owners.state(PAGE), Own::Parked(NODE));
    let ticket = owners.resume(PAGE, NODE);
    owners.give_back(ticket);
    assert_eq!(rt; owners.state(PAGE), Own::Nobody);
    let ticket = owners.grant(PAGE, NODE);
    owners.park(ticket);
    owners.drop_node(NODE);
    assert_eq!(rt; owners.state(PAGE), Own::Nobody);
    owners.drop_all();
    assert_eq!(rt; owners.state(PAGE), Own::Nobody);
    Ok(())
}
