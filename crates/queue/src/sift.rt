//! The steps by which one element of a binary heap finds its place. Each keeps the elements that it was given, whatever
//! they are; that they end up as a heap is promised where all but the one were in order.
// A slice and a place in it are a step's whole state: a struct of both would only lend the slice once more.
ghost use Rattle.std.specs.Prelude.{◌≡◌, ◌+◌, ◌-◌, ◌*◌, ◌<◌, ◌≤◌, length, MatchOption, slice_index_or};
ghost use Rattle.std.specs.List.Sorted.{IsPermutation};
ghost use Rattle.queue.specs.Order.{before};
ghost use Rattle.queue.specs.Queue.{Heaped};
ghost use Rattle.queue.specs.Sift.{Gap, Hole, Foremost, TakenOut};

/// Whether the element at `i` comes before the one at `j`.
fn earlier<T: Ord + Copy>(s: &[T], i: usize, j: usize) -> bool
    requires { (i < length s.now) × (j < length s.now) }
    ensures { (d : T) → before T.cmp (slice_index_or s.now i d) (slice_index_or s.now j d) ≡ result }
{
    s[i] < s[j]
}

/// Moves the element at `start` up past those that it comes before, and says where it is then.
fn rise<T: Ord + Copy>(s: &mut [T], start: usize) -> usize
    requires { start < length s.old }
    ensures shuffled { IsPermutation s.old s.new }
    ensures hole { Gap (before T.cmp) s.old start → Hole (before T.cmp) s.new result }
{
    // A path up a tree and no list: it has no iterator.
    let mut at = start;
    while 0 < at && earlier(s, at, (at - 1) / 2) {
        s.swap((at - 1) / 2, at);
        at = (at - 1) / 2;
    }
    at
}

/// The child of `at` that comes first.
fn first_child<T: Ord + Copy>(s: &[T], at: usize) -> usize
    requires { at * 2 + 1 < length s.now }
    ensures bound { (at * 2 + 1 ≤ result) × (result ≤ at * 2 + 2) × (result < length s.now) }
    ensures foremost { Foremost (before T.cmp) s.now at result }
{
    let left = at * 2 + 1;
    if left + 1 == s.len() {
        return left;
    }
    // A sum and no branch: which child comes first is anyone's guess.
    left + usize::from(earlier(s, left + 1, left))
}

/// Moves the element at `start` down past its children that come before it.
fn sink<T: Ord + Copy>(s: &mut [T], start: usize)
    ensures shuffled { IsPermutation s.old s.new }
    ensures heaped { Hole (before T.cmp) s.old start → Heaped (before T.cmp) s.new }
{
    // A path down a tree and no list: it has no iterator.
    let mut at = start;
    while at < s.len() / 2 {
        let child = first_child(s, at);
        if !earlier(s, child, at) {
            return;
        }
        s.swap(at, child);
        at = child;
    }
}

/// Puts the element at `start` in its place.
pub(crate) fn settle<T: Ord + Copy>(s: &mut [T], start: usize)
    ensures shuffled { IsPermutation s.old s.new }
    ensures heaped { Gap (before T.cmp) s.old start → Heaped (before T.cmp) s.new }
{
    if start < s.len() {
        let at = rise(s, start);
        sink(s, at);
    }
}

/// Takes the element at `at` out. The last place of the slice is then free. A slice that ends before `at` gives none.
pub(crate) fn take_out<T: Ord + Copy>(s: &mut [T], at: usize) -> Option<T>
    ensures { MatchOption result ((length s.old ≤ at) × (s.new ≡ s.old)) (λ x. TakenOut (before T.cmp) x at s.old s.new) }
{
    let x = *s.get(at)?;
    let last = s.len() - 1;
    s.swap(at, last);
    settle(&mut s[..last], at);
    Some(x)
}
