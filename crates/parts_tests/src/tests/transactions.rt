//! A transaction is complete once it is answered and acknowledged.
use super::is_so;
use atomicity_point::*;
use sn_base::BlockNo;

#[test]
fn a_miss_is_complete_once_it_is_answered_and_acknowledged(rt: HostRuntime) {
    let mut table = TxnTable::new();
    is_so(&rt, table.least_open() == None);
    table.open_miss(BlockNo::new(64), 3);
    is_so(&rt, !table.ack());
    is_so(&rt, !table.answer(5, 2));
    is_so(&rt, table.least_open() == Some(3));
    is_so(&rt, table.ack());
    is_so(&rt, table.miss().map(|miss| miss.fixed) == Some(Some(5)));
    table.open_put(BlockNo::new(65), 2);
    is_so(&rt, table.least_open() == Some(2));
    table.close_miss();
    is_so(&rt, table.miss().is_none() && table.put().is_some());
    table.close_put();
    is_so(&rt, table.least_open() == None);
}
