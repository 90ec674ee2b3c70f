//! Turns at one lock, in one thread and in two.
use crate::number_list::Line;
use crate::working::{collect, hire, work_together};
use std::test::Fail;

// How many lines each worker adds where two threads work.
const LINES: u32 = 300;

#[test]
fn one_thread_takes_both_turns(rt: HostRuntime) -> Result<(), Fail> {
    let (lock, mut workers) = hire(rt.alloc(), 2, 2)?;
    work_together(&rt, &lock, &mut workers, 1);
    let list = collect(&rt, &lock, workers).ok_or("a list")?;
    let wanted = [(1, 0), (1, 1), (0, 0), (0, 1)].map(|(turn, value)| Line { turn, value });
    assert!(rt; list.name == 7);
    assert!(rt; list.lines.as_slice() == wanted.as_slice());
    Ok(())
}

#[test]
fn two_threads_take_turns_and_join_them(rt: HostRuntime) -> Result<(), Fail> {
    let (lock, mut workers) = hire(rt.alloc(), 2, LINES)?;
    work_together(&rt, &lock, &mut workers, 2);
    assert!(rt; workers.iter().all(|worker| worker.left == 0));
    let list = collect(&rt, &lock, workers).ok_or("a list")?;
    assert!(rt; list.lines.len() == 2 * LINES as usize);
    // however the threads met, each worker's lines stand in its own order
    for turn in 0..2 {
        let own = list.lines.iter().filter(|line| line.turn == turn);
        assert!(rt; own.map(|line| line.value).eq(0..LINES));
    }
    Ok(())
}
