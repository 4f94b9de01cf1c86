//! Entries that are taken back or given on by their intervals.
use super::is_so;
use interval_list::*;
use std::test::Fail;

#[test]
fn entries_are_committed_in_order_of_their_intervals(rt: HostRuntime) -> Result<(), Fail> {
    let mut list = IntervalList::<u8>::new(rt.alloc());
    list.reserve(5)?;
    for (interval, entry) in [(1, b'c'), (0, b'a'), (1, b'd'), (0, b'b'), (2, b'e')] {
        if list.spare() > 0 {
            list.add(interval, entry);
        }
    }
    is_so(&rt, (list.waiting().len(), list.spare()) == (5, 0));
    list.commit_below(2);
    is_so(&rt, list.committed() == b"abcd".as_slice());
    list.drop_from(2);
    list.commit_below(3);
    is_so(&rt, list.committed() == b"abcd".as_slice());
    the_next_point_commits_one_interval::<u8>();
    Ok(())
}
