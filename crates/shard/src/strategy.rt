use interface::refusal::Refusal;

// How a record comes in. A soft replace does not count as a read.
#[derive(Clone, Copy)]
pub enum InsertStrategy {
    Insert,
    Replace { soft: bool },
}

// A record that was refused, handed back as it is now, and why.
#[derive(Clone, Copy)]
pub struct Returned<V> {
    pub why: Refusal,
    pub value: V,
}
