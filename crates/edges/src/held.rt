// The table of edges, held together.

// The edges of each leaf state: those of state s stand in `list` from `ends[s]` to `ends[s + 1]`.
#[derive(Clone, Copy)]
pub struct EdgeTable<'a> {
    pub list: &'a [u8],
    pub ends: &'a [usize],
}
