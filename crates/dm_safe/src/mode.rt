/// How the changes of rows are carried out.
#[derive(Clone, Copy, Debug, PartialEq, Eq)]
pub enum Mode {
    /// Each for the first time.
    Plain,
    /// Some may have been carried out before, as behind a restart.
    Safe,
}
