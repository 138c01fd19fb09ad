// The calls of a slab of numbers, each made only where what it asks is seen to hold.
ghost use Rattle.std.specs.Prelude.{◌<◌, length, IfSome};
ghost use Rattle.ring_slab.specs.Calls.{slots_of};

use ring_slab::linked_slab::LinkedSlab;

// `at`, if it is a place of the slab.
fn place(slab: &LinkedSlab<'_, u32>, at: u32) -> Option<u32>
    ensures { IfSome result (λ _. at < length (slots_of slab.now)) }
{
    ((at as usize) < slab.capacity()).then_some(at)
}

pub fn take(slab: &mut LinkedSlab<'_, u32>, item: u32) -> Option<u32> {
    if slab.len() > 1_048_576 {
        return None;
    }
    slab.take(item)
}

pub fn free(slab: &mut LinkedSlab<'_, u32>, at: u32) -> Option<u32> {
    place(slab, at)?;
    if slab.len() < 1 {
        return None;
    }
    slab.free(at)
}

pub fn start(slab: &mut LinkedSlab<'_, u32>, at: u32) -> Option<u32> {
    place(slab, at)?;
    Some(slab.link(at, None))
}

pub fn append(slab: &mut LinkedSlab<'_, u32>, at: u32, head: u32) -> Option<u32> {
    place(slab, at)?;
    place(slab, head)?;
    place(slab, slab.prev_of(head))?;
    Some(slab.link(at, Some(head)))
}

pub fn unlink(slab: &mut LinkedSlab<'_, u32>, at: u32) -> Option<u32> {
    place(slab, at)?;
    place(slab, slab.next_of(at))?;
    place(slab, slab.prev_of(at))?;
    slab.unlink(at)
}

pub fn next_of(slab: &LinkedSlab<'_, u32>, at: u32) -> Option<u32> {
    place(slab, at)?;
    Some(slab.next_of(at))
}

pub fn item(slab: &LinkedSlab<'_, u32>, at: u32) -> Option<u32> {
    place(slab, at)?;
    slab.item(at)
}

pub fn enter(slab: &mut LinkedSlab<'_, u32>, at: u32, hash: u64) {
    if place(slab, at).is_some() && slab.capacity() <= 1_048_576 {
        slab.enter(at, hash);
    }
}

pub fn first(slab: &LinkedSlab<'_, u32>, hash: u64) -> Option<u32> {
    if slab.capacity() > 1_048_576 {
        return None;
    }
    slab.first(hash)
}

pub fn after(slab: &LinkedSlab<'_, u32>, at: u32) -> Option<u32> {
    place(slab, at)?;
    slab.after(at)
}
