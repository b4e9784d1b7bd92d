/// The devices that a call is handed: where its files come from, where its profiles go, the lines that ask for work, and
/// where its text goes.
#[derive(Drop)]
pub struct Devices<S, H, N, O> {
    pub source: S,
    pub shelf: H,
    pub lines: N,
    pub out: O,
}
