// The count at its stop, which no caller reaches by puts.
use super::*;
use base::registers::GroupRegister;

#[test]
fn count_stays_at_its_largest(rt: HostRuntime) {
    let mut list = [7; 8];
    let (mut block, _) = Recorder::new(Profile::bench(), &mut list);
    block.puts = u64::MAX - 1;
    let int_ena = Place::from(GroupRegister::IntEna);
    block.put(int_ena, 1);
    assert_eq!(rt; block.puts(), u64::MAX);
    block.put(int_ena, 2);
    assert_eq!(rt; block.puts(), u64::MAX);
    assert_eq!(rt; block.words()[26], 2);
}
