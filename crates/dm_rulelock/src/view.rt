/// What a pass knows, for clauses alone: no value of this type is made. A clause reads an array as a list of any
/// length.
pub struct View<I> {
    /// The lock's inputs. Only the view of a pass that was joined into another has none.
    pub inputs: Option<I>,
    /// How many callers the pass stands for.
    pub callers: u64,
    /// The value has come at least this far.
    pub seen: [u64; 0],
    /// The positions of the value that this pass has taken, if it has taken one.
    pub taken: Option<[u64; 0]>,
}
