/// An op: the number of its log, and its own in the log, both from 0.
#[derive(Clone, Copy, Drop)]
pub struct Place {
    pub log: u32,
    pub op: u32,
}

/// What an op has to do with other logs: the name that it claims, and the name under which it posts
/// a block. In the code
/// a name is its number among the sorted names.
#[derive(Clone, Copy, Drop)]
pub struct Step {
    pub claims: Option<u32>,
    pub posts: Option<u32>,
}
