use super::*;
use std::test::Fail;

// Worked by hand: three actors, of which actor 1 has ended. 4 stands for actor 1 and is spent, 5 for actor 2, 0 for itself; then
// the rotation passes over actor 1, and begins with 0 in each phase.
#[test]
fn turns_by_a_list(rt: HostRuntime) -> Result<(), Fail> {
    let mut driver = ScheduleDriver::new(rt.alloc(), &[4, 5, 0])?;
    driver.begin();
    assert_eq!(rt; driver.next_actor(3, 2), 2);
    driver.begin();
    assert_eq!(rt; driver.next_actor(3, 2), 0);
    assert_eq!(rt; driver.next_actor(3, 2), 0);
    assert_eq!(rt; driver.next_actor(3, 2), 2);
    assert_eq!(rt; driver.next_actor(3, 2), 0);
    driver.begin();
    assert_eq!(rt; driver.next_actor(2, 0), 0);
    assert_eq!(rt; driver.next_actor(2, 0), 1);
    Ok(())
}
