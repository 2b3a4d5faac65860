//! Views on threads, and a block that is sealed again.
ghost use Rattle.std.specs.Prelude.{◌≡◌, ◌≤◌, length, slice_index};

use lend_block::{Root, View};
use std::alloc::AllocError;
use std::sync::Wait;
use std::thread::{self, Threads};

/// The first byte that each view shows.
fn firsts(one: &View<'_>, two: &View<'_>) -> (u8, u8)
    requires not_empty { (1 ≤ length one.now.bytes) × (1 ≤ length two.now.bytes) }
    ensures first { (result.0 ≡ slice_index one.now.bytes 0)
        × (result.1 ≡ slice_index two.now.bytes 0) }
{
    (one.bytes()[0], two.bytes()[0])
}

/// What each of two threads reads of two views that they share, and what a view shows once the
/// block was written and sealed anew.
fn shared_then_written<R: Threads>(rt: &R, block: &mut [u8]) -> ((u8, u8), (u8, u8), u8)
    requires two_bytes { 2 ≤ length block.old }
    ensures written { result.2 ≡ 9 }
{
    let mut root = Root::seal(block, 2);
    let one = root.view();
    let two = root.view();
    let (left, right) = thread::join(rt, || firsts(&one, &two), || firsts(&two, &one));
    root.give_back(two);
    root.give_back(one);
    let open_again = root.reopen();
    open_again[0] = 9;
    let mut anew = Root::seal(open_again, 2);
    let view = anew.view();
    (left, right, view.bytes()[0])
}

/// What a thread tells of a view that moved into it.
fn firsts_of_moved<R: Threads + Wait>(rt: &R, view: View<'_>) -> Result<(u8, u8), AllocError>
    requires not_empty { 1 ≤ length view.bytes }
{
    thread::scope(
        thread::scope_env(),
        rt,
        |scope| -> Result<(u8, u8), AllocError>
            requires { 1 ≤ length view.bytes }
        {
            let child = scope.spawn(move || firsts(&view, &view))?;
            Ok(child.join(rt))
        },
    )
}

#[test]
fn two_threads_share_two_views(rt: HostRuntime) {
    let mut block = [7, 8, 1, 2];
    assert_eq!(rt; shared_then_written(&rt, &mut block), ((7, 7), (7, 7), 9));
    assert_eq!(rt; block, [9, 8, 1, 2]);
}

#[test]
fn a_view_moves_into_a_thread(rt: HostRuntime) {
    let mut block = [7, 8, 1, 2];
    let mut root = Root::seal(&mut block, 2);
    let view = root.view();
    assert_eq!(rt; firsts_of_moved(&rt, view).expect(&rt, "memory"), (7, 7));
    assert_eq!(rt; root.out(), 1);
}
