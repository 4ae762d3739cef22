/// Where a word leads as the target of a jump, a call or a return: to a point, to an imported symbol, or out of
/// the program.
#[derive(Clone, Copy, Debug, PartialEq, Eq)]
pub enum Goal<P> {
    At(P),
    Import(u32),
    Finish,
}
