// Recovery into a state of one buffer, and into lent room.
use recorded::case::records;
use recorded::saved::State;

// Recovery with ample room: the refusal's number and the state, which is all zero where there is a refusal.
pub fn recover(book: &[u8], time: i64) -> (u32, State) {
    let mut orders = [0; 4096];
    let mut positions = [0; 4096];
    let mut s = State::new();
    let r = recovery::recover::reconstruct_state(book, time, &mut orders, &mut positions);
    let refusal = recovery_answers::give_recovery(r, &mut s.bytes);
    let orders = records(&orders, wire::u64_at(&s.bytes, 176), 64);
    let positions = records(&positions, wire::u64_at(&s.bytes, 184), 32);
    s.put_records(orders, positions);
    (refusal, s)
}

// The refusal of a recovery into so many bytes of orders and of positions.
pub fn recover_in(book: &[u8], time: i64, order_bytes: u64, position_bytes: u64) -> u32 {
    let mut orders = [0; 4096];
    let mut positions = [0; 4096];
    let n = orders.len().min(order_bytes as usize);
    let m = positions.len().min(position_bytes as usize);
    cases::refusal(recovery::recover::reconstruct_state(
        book,
        time,
        &mut orders[..n],
        &mut positions[..m],
    ))
}
