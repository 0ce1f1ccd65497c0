//! A priority queue in a lent slice: a binary min-heap over any kind of element that has a total order.
//!
//! The queue's elements are the first `len` of the slice; the caller keeps `len`, and each call that adds or takes one
//! says how many there are after it. Every slice and every `len` is taken. No element is ever lost, whatever the slice
//! holds; that the answer is the smallest, and that the elements are a queue again, is promised where they were one.
//! A `len` past the end of the slice is no queue: it is refused as a full or an empty one is, and the slice stays as it
//! was. The places past the queue's own are never touched.
// No `Vec` and no struct: the caller lends the memory, and `push` needs a free place past the queue's own.
#![tactic(auto)]

ghost use Rattle.std.specs.Prelude.{◌≡◌, ◌+◌, ◌-◌, ◌<◌, ◌≤◌, length, position, MatchOption, MatchResult};
ghost use Rattle.queue.specs.Order.{before};
ghost use Rattle.queue.specs.Queue.{First, Entered, Left, Removed, Replaced, Vacant, Alone, NoneAlike, Absent};

use crate::sift::{settle, take_out};

mod sift;

/// Adds `x`, and says how many there are then. A full queue hands `x` back.
pub fn push<T: Ord + Copy>(heap: &mut [T], len: usize, x: T) -> Result<usize, T>
    ensures { MatchResult result (λ n. Entered (before T.cmp) x heap.old len heap.new n) (λ y. (y ≡ x) × (length heap.old ≤ len) × (heap.new ≡ heap.old)) }
{
    if len >= heap.len() {
        return Err(x);
    }
    heap[len] = x;
    let n = len + 1;
    settle(&mut heap[..n], len);
    Ok(n)
}

/// The smallest element, which stays. An empty queue gives none.
pub fn peek<T: Ord + Copy>(heap: &[T], len: usize) -> Option<T>
    ensures { MatchOption result (Vacant heap.now len) (λ x. First (before T.cmp) x heap.now len) }
{
    heap.get(..len)?.first().copied()
}

/// The smallest element, which leaves, and how many stay. An empty queue gives none.
pub fn pop<T: Ord + Copy>(heap: &mut [T], len: usize) -> Option<(T, usize)>
    ensures { MatchOption result (Vacant heap.old len × (heap.new ≡ heap.old)) (λ p. First (before T.cmp) p.0 heap.old len × Left (before T.cmp) p.0 heap.old len heap.new p.1) }
{
    // Not by `get_mut(..len)?`: of what the slice ends as, std says nothing then.
    if len > heap.len() {
        return None;
    }
    let x = take_out(&mut heap[..len], 0)?;
    Some((x, len - 1))
}

/// Puts `x` in the place of the smallest element, which leaves: a `pop` and a `push` in one step. An empty queue hands
/// `x` back.
pub fn replace_first<T: Ord + Copy>(heap: &mut [T], len: usize, x: T) -> Result<T, T>
    ensures { MatchResult result (λ y. First (before T.cmp) y heap.old len × Replaced (before T.cmp) x y heap.old len heap.new) (λ y. (y ≡ x) × Vacant heap.old len × (heap.new ≡ heap.old)) }
{
    if len == 0 || len > heap.len() {
        return Err(x);
    }
    let first = heap[0];
    heap[0] = x;
    settle(&mut heap[..len], 0);
    Ok(first)
}

/// Takes `x` out, wherever it is, and says how many stay: `x` itself (`exact`) where nothing else is equal to it, else an
/// element that is. A queue that holds none gives none.
pub fn remove<T: Ord + Copy>(heap: &mut [T], len: usize, x: T) -> Option<usize>
    ensures equal { MatchOption result (NoneAlike T.eq x heap.old len × (heap.new ≡ heap.old)) (λ n. Removed (before T.cmp) T.eq x heap.old len heap.new n) }
    ensures exact { Alone T.eq x → MatchOption result (Absent x heap.old len × (heap.new ≡ heap.old)) (λ n. Left (before T.cmp) x heap.old len heap.new n) }
{
    let at = position(heap.get(..len)?, x)?;
    let _ = take_out(&mut heap[..len], at)?;
    Some(len - 1)
}

/// Where the first element equal to `x` is.
fn position<T: Ord + Copy>(held: &[T], x: T) -> Option<usize>
    ensures { result ≡ position (λ y. T.eq y x) held.now }
{
    held.iter().position(|y| *y == x)
}
