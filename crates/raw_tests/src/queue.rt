//! That items come in order, and that a taker learns that nothing more comes.
use raw_queue::{Item, Queue};
use std::test::Fail;

#[test]
fn items_come_in_order(rt: HostRuntime) -> Result<(), Fail> {
    let (queue, mut put, mut take) = Queue::open(rt.alloc())?;
    let word = queue.put(&rt, &mut put, Item::Word { port: 3, word: 7 });
    let end = queue.put(&rt, &mut put, Item::End);
    let taken = queue.take_wait(&rt, &mut take);
    let left = queue.close(&rt, put, take);
    assert!(rt; word.is_ok() && end.is_ok() && left == 1);
    assert!(rt; taken == Some(Item::Word { port: 3, word: 7 }));
    Ok(())
}

#[test]
fn nothing_more_comes(rt: HostRuntime) -> Result<(), Fail> {
    let (queue, put, mut take) = Queue::open(rt.alloc())?;
    queue.hang_up(&put);
    let nothing = queue.take_wait(&rt, &mut take);
    queue.close(&rt, put, take);
    assert!(rt; nothing == None);
    Ok(())
}
