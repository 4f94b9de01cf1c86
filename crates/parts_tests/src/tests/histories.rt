//! Records are committed in order of their intervals.
use super::is_so;
use rv_core::Record;
use sn_base::NodeId;
use sn_history::*;
use std::test::Fail;

fn record(core: NodeId, seen: u32, read: Option<u8>) -> Record {
    Record {
        core,
        seen,
        sc_done: false,
        read,
    }
}

#[test]
fn records_are_committed_in_order_of_their_intervals(rt: HostRuntime) -> Result<(), Fail> {
    let node = NodeId::new(1).unwrap();
    let other = NodeId::new(2).unwrap();
    let mut history = History::new(rt.alloc());
    history.reserve(4)?;
    history.add(1, record(node, 3, Some(7)));
    history.add(0, record(other, 1, None));
    history.add(1, record(other, 4, Some(8)));
    history.add(0, record(node, 2, Some(9)));
    is_so(&rt, (history.taken(node), history.taken(other)) == (2, 1));
    is_so(
        &rt,
        (history.pending().len(), history.pending()[1].interval) == (4, 0),
    );
    history.commit_below(1);
    let seen = history.committed();
    is_so(&rt, seen.len() == 2);
    is_so(&rt, seen[0].seen == 1 && seen[1].seen == 2);
    history.drop_pending();
    is_so(&rt, (history.taken(node), history.taken(other)) == (1, 0));
    history.commit_below(2);
    is_so(&rt, (history.committed().len(), history.spare()) == (2, 0));
    Ok(())
}
